//! What the folders and the sinks in memory share: files with one that is read and one that is written, and bytes.

ghost use Rattle.std.specs.Prelude.{◌≡◌, ℕ, ◌<◌, ◌↔◌, length, Some, None, Ok, Err, IsTrue, IsSome, IsErrOf, is_some, not, ◌&&◌, option_copied, if◌then◌else◌, IsOkUnless, OnErr, MatchBool, drop, min, max, ◌+◌, ◌≤◌};
ghost use Rattle.book_outer.specs.Cause.{one_more};
ghost use Rattle.book_outer.specs.Files.{content};
ghost use Rattle.book_outer.specs.Memory.{given};
ghost use Rattle.book_outer.specs.Sink.{Gets};
ghost use Rattle.book_outer.specs.Folder.{Begins, Reads, Creates, Puts, missed_after, TakesFront};

use crate::lists::Files;
use crate::trouble::Trouble;
use std::marker::Model;

/// A file that is being read: which of the files it is, and how many of its bytes were read.
#[derive(Clone, Copy, Debug)]
pub(crate) struct Open {
    file: usize,
    at: usize,
}

/// Files with the one that is being read and the one that is being written.
#[derive(Drop)]
pub(crate) struct Store {
    files: Files,
    reading: Option<Open>,
    writing: Option<usize>,
    begun: u64,
    missed: u64,
    reads: u64,
}

impl Model for Store {
    ghost use Rattle.book_outer.specs.Memory.{StoredFiles};
    ghost use Rattle.book_outer.specs.Forms.Store.{AreOpenFound, reading_of, writing_of};

    ghost Value = { StoredFiles };

    ghost view = { λ s. record {
      files = s.files;
      reading = reading_of s.files s.reading;
      writing = writing_of s.files s.writing;
      begun = s.begun;
      missed = s.missed;
      reads = s.reads;
    } };

    ghost invariant = { λ s. AreOpenFound s.files s.reading s.writing };
}

impl Store {
    /// No file is open.
    pub(crate) fn new(files: Files) -> Store
        ensures { result ≡ record { files = files; reading = None; writing = None; begun = 0; missed = 0; reads = 0 } }
    {
        Store {
            files,
            reading: None,
            writing: None,
            begun: 0,
            missed: 0,
            reads: 0,
        }
    }

    /// The bytes of a file.
    pub(crate) fn file(&self, name: &str) -> Option<&[u8]>
        ensures { option_copied result ≡ content self.now.files name.now }
    {
        let at = self.files.find(name)?;
        Some(self.files.bytes(at))
    }

    /// Starts to read a file, unless the call is to fail.
    pub(crate) fn begin(&mut self, name: &str, fails: bool) -> Result<(), Trouble>
        ensures answer { result ≡ (if is_some (content self.old.files name.now) && not fails then Ok tt else Err Trouble.Failed) }
        ensures begins { Begins (Some self.old.files) name.now result self.new.reading }
        ensures files { self.new.files ≡ self.old.files }
        ensures writing { self.new.writing ≡ self.old.writing }
        ensures begun { self.new.begun ≡ one_more self.old.begun }
        ensures missed { self.new.missed ≡ missed_after (Some self.old.files) name.now self.old.missed }
        ensures counted { self.new.reads ≡ self.old.reads }
        ensures later { self.old.missed ≤ self.new.missed }
    {
        let found = self.files.find(name);
        self.begun = self.begun.saturating_add(1);
        self.reading = None;
        let Some(file) = found else {
            self.missed = self.missed.saturating_add(1);
            return Err(Trouble::Failed);
        };
        if fails {
            return Err(Trouble::Failed);
        }
        self.reading = Some(Open { file, at: 0 });
        Ok(())
    }

    /// Reads the next bytes of the file that was begun, and at most so many, unless the call is to fail.
    pub(crate) fn read(
        &mut self,
        buf: &mut [u8],
        most: usize,
        fails: bool,
    ) -> Result<usize, Trouble>
        requires room { 0 < length buf.old }
        requires some { 1 ≤ most }
        requires begun { IsSome self.old.reading }
        ensures answer { MatchBool fails (result ≡ Err Trouble.Failed) (result ≡ Ok (given most self.old.files self.old.reading buf.old)) }
        ensures reads { Reads (Some self.old.files) self.old.reading buf.old buf.new result self.new.reading }
        ensures files { self.new.files ≡ self.old.files }
        ensures writing { self.new.writing ≡ self.old.writing }
        ensures begun { self.new.begun ≡ self.old.begun }
        ensures missed { self.new.missed ≡ self.old.missed }
        ensures counted { self.new.reads ≡ one_more self.old.reads }
    {
        self.reads = self.reads.saturating_add(1);
        if fails {
            self.reading = None;
            return Err(Trouble::Failed);
        }
        let open = self.reading.unwrap();
        let n = copy_behind(self.files.bytes(open.file), open.at, buf, most);
        self.reading = Some(Open {
            file: open.file,
            at: open.at + n,
        });
        Ok(n)
    }

    /// Makes an empty file and starts to write it, unless the call is to fail.
    pub(crate) fn create(&mut self, name: &str, fails: bool) -> Result<(), Trouble>
        ensures answer { MatchBool fails (result ≡ Err Trouble.Failed) (IsOkUnless result Trouble.Memory) }
        ensures creates { Creates (Some self.old.files) (Some self.new.files) name.now result self.new.writing }
        ensures begun { self.new.begun ≡ self.old.begun }
        ensures missed { self.new.missed ≡ self.old.missed }
        ensures counted { self.new.reads ≡ self.old.reads }
    {
        self.writing = None;
        if fails {
            return Err(Trouble::Failed);
        }
        let at = self.files.create(name)?;
        self.writing = Some(at);
        Ok(())
    }

    /// Puts bytes at the end of the file that was created, unless the call is to fail.
    pub(crate) fn put(&mut self, bytes: &[u8], fails: bool) -> Result<(), Trouble>
        requires { IsSome self.old.writing }
        ensures answer { MatchBool fails (result ≡ Err Trouble.Failed) (IsOkUnless result Trouble.Memory) }
        ensures puts { Puts (Some self.old.files) self.old.writing bytes.now result (Some self.new.files) self.new.writing }
        ensures kept { OnErr result (self.new.files ≡ self.old.files) }
        ensures begun { self.new.begun ≡ self.old.begun }
        ensures missed { self.new.missed ≡ self.old.missed }
        ensures counted { self.new.reads ≡ self.old.reads }
    {
        let at = self.writing.unwrap();
        if fails {
            return Err(Trouble::Failed);
        }
        self.files.extend(at, bytes)?;
        Ok(())
    }
}

/// Puts bytes behind those that are there, unless the call is to fail.
pub(crate) fn append(written: &mut Vec<u8>, bytes: &[u8], fails: bool) -> Result<(), Trouble>
    ensures answer { MatchBool fails (result ≡ Err Trouble.Failed) (IsOkUnless result Trouble.Memory) }
    ensures gets { Gets (Some written.old.items) (Some written.new.items) bytes.now result }
    ensures kept { OnErr result (written.new.items ≡ written.old.items) }
{
    if fails {
        return Err(Trouble::Failed);
    }
    written.extend_from_slice(bytes)?;
    Ok(())
}

// Copies to the buffer's front what stands from a byte on, as far as it has room and at most so much, and says how much.
fn copy_behind(bytes: &[u8], at: usize, buf: &mut [u8], most: usize) -> usize
    requires room { 0 < length buf.old }
    requires some { 1 ≤ most }
    ensures count { result ≡ min most (min (length buf.old) (length (drop at bytes.now))) }
    ensures front { TakesFront (drop at bytes.now) buf.old buf.new result }
    ensures room { result ≤ length buf.old }
    ensures sum { at + result ≤ max at (length bytes.now) }
{
    let rest = &bytes[at.min(bytes.len())..];
    let n = rest.len().min(buf.len()).min(most);
    buf[..n].copy_from_slice(&rest[..n]);
    n
}
