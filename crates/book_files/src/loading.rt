//! A whole file, read in pieces.

ghost use Rattle.std.specs.Prelude.{◌≡◌, ◌≤◌, Some, Err, IfOk, IfSome, vec_len};
ghost use Rattle.book_outer.specs.Cause.{one_more};
ghost use Rattle.book_outer.specs.Files.{content};
ghost use Rattle.book_outer.specs.Folder.{missed_after};
ghost use Rattle.book_files.specs.Loading.{error_of, HasLongText, HasReadCause, HasTaken, HasFewReads, IsLongerThan, HasTakenWithin, HasFewReadsWithin};
ghost use Rattle.book_files.specs.declared.loading.LoadError.TheVariants.{Memory};

use book_outer::{Folder, Trouble};
use std::alloc::{AllocError, Global};

/// The most bytes that a file may have. A longer one is refused as `TooLong`.
pub const MOST_BYTES: usize = 268_435_456;

/// How many bytes are asked for at once.
const PIECE_BYTES: usize = 65_536;

/// Why a file wasn't loaded.
#[derive(Clone, Copy, Debug, PartialEq, Eq)]
pub enum LoadError {
    /// The folder couldn't read it.
    ReadFault,
    /// It has more bytes than a file may have.
    TooLong,
    /// Want of memory.
    Memory,
}

impl From<Trouble> for LoadError {
    ghost from_gives = { λ trouble error. error ≡ error_of trouble };

    fn from(trouble: Trouble) -> LoadError {
        match trouble {
            Trouble::Failed => LoadError::ReadFault,
            Trouble::Memory => LoadError::Memory,
        }
    }
}

impl From<AllocError> for LoadError {
    ghost from_gives = { λ _ error. error ≡ Memory };

    fn from(_: AllocError) -> LoadError {
        LoadError::Memory
    }
}

/// Room for so many bytes.
fn room(alloc: Global, count: usize) -> Result<Vec<u8>, AllocError>
    ensures { IfOk result (λ piece. vec_len piece ≡ count) }
{
    vec![in alloc; 0; count]
}

/// The whole file, of at most `MOST_BYTES` bytes, read in pieces.
///
/// Whatever it answers, the folder's files are unchanged. `ReadFault` comes only where the folder counted one fault, and
/// `TooLong` where more bytes were taken than a file may have. Each read but the last takes at least one byte, and nothing
/// is read behind the end.
pub fn load<F: Folder>(alloc: Global, folder: &mut F, name: &str) -> Result<Vec<u8>, LoadError>
    ensures loaded { IfOk result (λ bytes. IfSome ((F.state folder.old).files) (λ files. content files name.now ≡ Some bytes.items)) }
    ensures within { IfOk result (λ bytes. vec_len bytes ≤ MOST_BYTES) }
    ensures too_long { result ≡ Err LoadError.TooLong → IfSome ((F.state folder.old).files) (λ files. HasLongText files name.now) }
    ensures taken { HasTaken (λ bytes. vec_len bytes) ((F.state folder.old).files) name.now result ((F.state folder.new).reading) }
    ensures cause { HasReadCause ((F.state folder.old).read_faults) ((F.state folder.new).read_faults) result }
    ensures begun { (F.state folder.new).begun ≡ one_more ((F.state folder.old).begun) }
    ensures missed { (F.state folder.new).missed ≡ missed_after ((F.state folder.old).files) name.now ((F.state folder.old).missed) }
    ensures reads { HasFewReads (λ bytes. vec_len bytes) (F.state folder.old).reads (F.state folder.new).reads result }
    ensures files { (F.state folder.new).files ≡ (F.state folder.old).files }
    ensures writing { (F.state folder.new).writing ≡ (F.state folder.old).writing }
    ensures write_faults { (F.state folder.new).write_faults ≡ (F.state folder.old).write_faults }
{
    load_within(alloc, folder, name, MOST_BYTES)
}

/// The whole file, of at most so many bytes, read in pieces.
pub fn load_within<F: Folder>(
    alloc: Global,
    folder: &mut F,
    name: &str,
    most: usize,
) -> Result<Vec<u8>, LoadError>
    ensures loaded { IfOk result (λ bytes. IfSome ((F.state folder.old).files) (λ files. content files name.now ≡ Some bytes.items)) }
    ensures within { IfOk result (λ bytes. vec_len bytes ≤ most) }
    ensures too_long { result ≡ Err LoadError.TooLong → IfSome ((F.state folder.old).files) (λ files. IsLongerThan most files name.now) }
    ensures taken { HasTakenWithin most (λ bytes. vec_len bytes) ((F.state folder.old).files) name.now result ((F.state folder.new).reading) }
    ensures cause { HasReadCause ((F.state folder.old).read_faults) ((F.state folder.new).read_faults) result }
    ensures begun { (F.state folder.new).begun ≡ one_more ((F.state folder.old).begun) }
    ensures missed { (F.state folder.new).missed ≡ missed_after ((F.state folder.old).files) name.now ((F.state folder.old).missed) }
    ensures reads { HasFewReadsWithin most (λ bytes. vec_len bytes) (F.state folder.old).reads (F.state folder.new).reads result }
    ensures files { (F.state folder.new).files ≡ (F.state folder.old).files }
    ensures writing { (F.state folder.new).writing ≡ (F.state folder.old).writing }
    ensures write_faults { (F.state folder.new).write_faults ≡ (F.state folder.old).write_faults }
{
    folder.begin(name)?;
    let mut piece = room(alloc, PIECE_BYTES)?;
    let mut bytes = Vec::new(alloc);
    'pieces: loop {
        let count = folder.read(&mut piece)?;
        if count == 0 {
            return Ok(bytes);
        }
        bytes.extend_from_slice(&piece[..count])?;
        if bytes.len() > most {
            return Err(LoadError::TooLong);
        }
    }
}
