ghost use Rattle.std.specs.Prelude.{◌≡◌};
ghost use Rattle.book_design.specs.declared.fault.DesignFault.TheVariants.{Limit};

use book_files::FileKind;
use std::alloc::{AllocError, AllocFailed};

/// What is wrong with files that are each well-formed. The first of these that holds is named, at its first place.
#[derive(Clone, Copy, Debug, PartialEq, Eq)]
pub enum DesignFault {
    /// A line of the nodes file whose name stood on an earlier line.
    DuplicateName { line: u64 },
    /// A line of the nets file, or else of the placement file, whose name no node has.
    UnknownName { file: FileKind, line: u64 },
    /// A terminal without a line in the placement file, by its number.
    NoPosition { node: u32 },
    /// No subrow has a site.
    NoRows,
    /// A row whose height or pitch isn't that of row 0.
    MixedRows { row: u32 },
    /// A row with a subrow that shares area with an earlier subrow.
    RowsOverlap { row: u32 },
    /// A movable node that is higher than a row.
    TallCell { node: u32 },
    /// A quantity past its limit, by the kind's number from 1 to 6.
    Limit { kind: u8, number: u64 },
}

/// Why the files made no design.
#[derive(Clone, Copy, Debug, PartialEq, Eq)]
pub enum JoinError {
    /// The first fault of the files together.
    Fault(DesignFault),
    /// Want of memory.
    Memory,
}

/// The fault that a quantity is past the limit of this kind.
pub(crate) fn past_limit(kind: u8, number: u64) -> DesignFault
    ensures { result ≡ Limit kind number }
{
    DesignFault::Limit { kind, number }
}

impl From<DesignFault> for JoinError {
    ghost use Rattle.std.specs.Prelude.{◌≡◌};
    ghost use Rattle.book_design.specs.declared.fault.JoinError.TheVariants.{Fault};

    ghost from_gives = { λ fault e. e ≡ Fault fault };

    fn from(fault: DesignFault) -> JoinError {
        JoinError::Fault(fault)
    }
}

impl From<AllocError> for JoinError {
    ghost use Rattle.std.specs.Prelude.{◌≡◌};
    ghost use Rattle.book_design.specs.declared.fault.JoinError.TheVariants.{Memory};

    ghost from_gives = { λ _ e. e ≡ Memory };

    fn from(_: AllocError) -> JoinError {
        JoinError::Memory
    }
}

impl<T: Drop> From<AllocFailed<T>> for JoinError {
    ghost use Rattle.std.specs.Prelude.{◌≡◌};
    ghost use Rattle.book_design.specs.declared.fault.JoinError.TheVariants.{Memory};

    ghost from_gives = { λ _ e. e ≡ Memory };

    fn from(_: AllocFailed<T>) -> JoinError {
        JoinError::Memory
    }
}
