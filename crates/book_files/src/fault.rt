ghost use Rattle.std.specs.Prelude.{◌≡◌, Err};
ghost use Rattle.book_text.specs.Lines.{end_line};

use book_text::count_lines;
use std::alloc::{AllocError, AllocFailed};

/// What is wrong with a line, or with the whole at its end.
#[derive(Clone, Copy, Debug, PartialEq, Eq)]
pub enum TextKind {
    /// The first line isn't the file's header, or there is no line.
    BadHeader,
    /// The line has another shape.
    BadLine,
    /// A word in a number's place isn't a number in range.
    BadNumber,
    /// A stated count isn't the count of what stands there.
    CountMismatch { told: u64, found: u64 },
}

/// The first fault of a text. The line behind the last one is meant where the fault is seen at the end.
#[derive(Clone, Copy, Debug, PartialEq, Eq)]
pub struct TextFault {
    pub line: u64,
    pub kind: TextKind,
}

/// Why a line isn't kept: its first fault, or want of memory.
#[derive(Clone, Copy, Debug, PartialEq, Eq)]
pub enum LineError {
    Kind(TextKind),
    Memory,
}

impl LineError {
    ghost use Rattle.book_files.specs.Forms.Progress.{error_at};

    /// The same at a line's number.
    pub fn at(self, line: u64) -> ReadError
        ensures { result ≡ error_at line self }
    {
        match self {
            LineError::Kind(kind) => ReadError::Fault(TextFault { line, kind }),
            LineError::Memory => ReadError::Memory,
        }
    }
}

impl From<TextKind> for LineError {
    ghost use Rattle.book_files.specs.declared.fault.LineError.TheVariants.{Kind};

    ghost from_gives = { λ kind e. e ≡ Kind kind };

    fn from(kind: TextKind) -> LineError {
        LineError::Kind(kind)
    }
}

impl From<AllocError> for LineError {
    ghost use Rattle.book_files.specs.declared.fault.LineError.TheVariants.{Memory};

    ghost from_gives = { λ _ e. e ≡ Memory };

    fn from(_: AllocError) -> LineError {
        LineError::Memory
    }
}

impl<T: Drop> From<AllocFailed<T>> for LineError {
    ghost use Rattle.book_files.specs.declared.fault.LineError.TheVariants.{Memory};

    ghost from_gives = { λ _ e. e ≡ Memory };

    fn from(_: AllocFailed<T>) -> LineError {
        LineError::Memory
    }
}

/// Why a file gave no records.
#[derive(Clone, Copy, Debug, PartialEq, Eq)]
pub enum ReadError {
    /// The text's first fault.
    Fault(TextFault),
    /// Want of memory.
    Memory,
}

impl From<AllocError> for ReadError {
    ghost use Rattle.book_files.specs.declared.fault.ReadError.TheVariants.{Memory};

    ghost from_gives = { λ _ e. e ≡ Memory };

    fn from(_: AllocError) -> ReadError {
        ReadError::Memory
    }
}

impl<T: Drop> From<AllocFailed<T>> for ReadError {
    ghost use Rattle.book_files.specs.declared.fault.ReadError.TheVariants.{Memory};

    ghost from_gives = { λ _ e. e ≡ Memory };

    fn from(_: AllocFailed<T>) -> ReadError {
        ReadError::Memory
    }
}

/// The fault that is seen at the end of a text.
pub fn fault_at_end(text: &[u8], kind: TextKind) -> ReadError
    ensures { result ≡ ReadError.Fault (record { line = end_line text.now; kind = kind }) }
{
    ReadError::Fault(TextFault {
        line: count_lines(text) + 1,
        kind,
    })
}
