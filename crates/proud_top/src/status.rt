ghost use Rattle.std.specs.Prelude.{◌≡◌};
ghost use Rattle.proud_top.specs.Codes.{code_of};

use crate::stop::Stop;
use book_design::DesignFault;
use book_files::{FileKind, TextFault};
use net_model::NetFault;

/// How a run ended.
#[derive(Clone, Copy, Debug, PartialEq, Eq)]
pub enum Status {
    /// The output file holds the placement, and the report got its text.
    Done,
    /// The words have another form.
    Usage,
    /// The design was refused.
    Refused(Refusal),
    /// A file couldn't be read.
    ReadFault(FileKind),
    /// The output file or the report couldn't be written.
    WriteFault,
    /// Want of memory.
    Memory,
}

/// Why a design was refused: the first cause in the order of the files, then of the files together, then
/// of the nets, then of the points, then of the rows.
#[derive(Clone, Copy, Debug, PartialEq, Eq)]
pub enum Refusal {
    /// The file has more than 268,435,456 bytes.
    TooLong(FileKind),
    /// The file's first fault.
    Text(FileKind, TextFault),
    /// The first fault of the files together.
    Design(DesignFault),
    /// The first fault of the nets: they have too many pair terms, or a node or a net's star is too heavy.
    Net(NetFault),
    /// The first cell from which no chain of nets leads to a pad, by the number of cells before it.
    Unanchored(u32),
    /// The first cell, in the order in which cells are taken, for which no segment has room: how many sites it takes, and
    /// the largest room left.
    NoRoom { cell: u32, sites: u64, largest: u64 },
}

impl Status {
    /// The exit status of the program.
    pub fn code(&self) -> u8
        ensures { result ≡ code_of self.now }
    {
        match self {
            Status::Done => 0,
            Status::Usage => 1,
            Status::Refused(_) => 2,
            Status::ReadFault(_) => 3,
            Status::WriteFault => 4,
            Status::Memory => 5,
        }
    }
}

impl From<Stop> for Status {
    ghost use Rattle.proud_top.specs.Statuses.{status_of};

    ghost from_gives = { λ stop status. status ≡ status_of stop };

    fn from(stop: Stop) -> Status {
        match stop {
            Stop::ReadFault(kind) => Status::ReadFault(kind),
            Stop::Refused(refusal) => Status::Refused(refusal),
            Stop::Memory => Status::Memory,
        }
    }
}
