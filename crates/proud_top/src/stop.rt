ghost use Rattle.std.specs.Prelude.{◌≡◌};

use crate::status::Refusal;
use book_design::JoinError;
use book_files::FileKind;
use net_model::NetError;
use pad_reach::ReachError;
use row_legal::LegalError;

/// Why a run stops before there is a placement.
#[derive(Clone, Copy, Debug, PartialEq, Eq)]
pub(crate) enum Stop {
    /// The file couldn't be read.
    ReadFault(FileKind),
    /// The design was refused.
    Refused(Refusal),
    /// Want of memory.
    Memory,
}

impl From<JoinError> for Stop {
    ghost use Rattle.proud_top.specs.Forms.Stops.{stop_of_join};

    ghost from_gives = { λ error stop. stop ≡ stop_of_join error };

    fn from(error: JoinError) -> Stop {
        match error {
            JoinError::Fault(fault) => Stop::Refused(Refusal::Design(fault)),
            JoinError::Memory => Stop::Memory,
        }
    }
}

impl From<NetError> for Stop {
    ghost use Rattle.proud_top.specs.Forms.Stops.{stop_of_net};

    ghost from_gives = { λ error stop. stop ≡ stop_of_net error };

    fn from(error: NetError) -> Stop {
        match error {
            NetError::Fault(fault) => Stop::Refused(Refusal::Net(fault)),
            NetError::Memory => Stop::Memory,
        }
    }
}

impl From<ReachError> for Stop {
    ghost use Rattle.proud_top.specs.Forms.Stops.{stop_of_reach};

    ghost from_gives = { λ error stop. stop ≡ stop_of_reach error };

    fn from(error: ReachError) -> Stop {
        match error {
            ReachError::Unanchored(point) => Stop::Refused(Refusal::Unanchored(point)),
            ReachError::Memory => Stop::Memory,
        }
    }
}

impl From<LegalError> for Stop {
    ghost use Rattle.proud_top.specs.Forms.Stops.{stop_of_legal};

    ghost from_gives = { λ error stop. stop ≡ stop_of_legal error };

    fn from(error: LegalError) -> Stop {
        match error {
            LegalError::NoRoom {
                cell,
                sites,
                largest,
            } => Stop::Refused(Refusal::NoRoom {
                cell,
                sites,
                largest,
            }),
            LegalError::Memory => Stop::Memory,
        }
    }
}

impl From<book_text::Memory> for Stop {
    ghost use Rattle.proud_top.specs.declared.stop.Stop.TheVariants.{Memory};

    ghost from_gives = { λ _ stop. stop ≡ Memory };

    fn from(_: book_text::Memory) -> Stop {
        Stop::Memory
    }
}
