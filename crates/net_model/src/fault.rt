use std::alloc::{AllocError, AllocFailed};

/// What is wrong with the nets of a design. The first of these that holds is named, at its first place.
#[derive(Clone, Copy, Debug, PartialEq, Eq)]
pub enum NetFault {
    /// More than 16,777,216 pair terms ([`MOST_TERMS`](crate::MOST_TERMS)): how many.
    TooManyEdges(u64),
    /// A point whose total weight passes 2^40 ([`MOST_WEIGHT`](crate::MOST_WEIGHT)), by its number. The net of a star point is
    /// that of [`star_net`](crate::star_net), by the star points before it: its number less the movable nodes.
    Heavy(u32),
}

/// Why a design has no network.
#[derive(Clone, Copy, Debug, PartialEq, Eq)]
pub enum NetError {
    /// The first fault of the nets.
    Fault(NetFault),
    /// Want of memory.
    Memory,
}

impl From<AllocError> for NetError {
    ghost use Rattle.std.specs.Prelude.{◌≡◌};
    ghost use Rattle.net_model.specs.declared.fault.NetError.TheVariants.{Memory};

    ghost from_gives = { λ _ e. e ≡ Memory };

    fn from(_: AllocError) -> NetError {
        NetError::Memory
    }
}

impl<T: Drop> From<AllocFailed<T>> for NetError {
    ghost use Rattle.std.specs.Prelude.{◌≡◌};
    ghost use Rattle.net_model.specs.declared.fault.NetError.TheVariants.{Memory};

    ghost from_gives = { λ _ e. e ≡ Memory };

    fn from(_: AllocFailed<T>) -> NetError {
        NetError::Memory
    }
}
