//! Seats: what one thread knows of a table.

ghost use Rattle.std.specs.Prelude.{◌≡◌};
ghost use Rattle.relax_table.specs.Seats.{IsSound};

use crate::direction::Direction;
use crate::rule::View;
use atomic_table::Seat;
use std::marker::{Model, PhantomData};

/// What a fetch found in the word, and what it left there.
#[derive(Clone, Copy, Debug, PartialEq, Eq)]
pub struct Renewal {
    pub old: u64,
    pub new: u64,
}

/// A seat at a table of that direction: what one thread has seen, how many words it has moved, and how many mark words it has
/// taken. The last count stands still at the end of its type.
#[derive(Drop)]
pub struct SideSeat<D: Direction> {
    pub(crate) seat: Seat<u8, View>,
    pub(crate) seen: Vec<u64>,
    pub(crate) moves: u64,
    pub(crate) takes: u64,
    pub(crate) direction: PhantomData<D>,
}

impl<D: Direction> Model for SideSeat<D> {
    ghost use Rattle.std.specs.Prelude.{◌≡◌, []};
    ghost use Rattle.relax_table.specs.Seats.{SeatState};
    ghost use Rattle.relax_table.specs.Forms.Rule.{state_of, IsHeld};

    ghost Value = { SeatState };

    ghost view = { λ s. state_of s.seat.table_id s.seat.me.0 };

    ghost invariant = { λ s. (s.seat.me.1 ≡ []) × IsHeld D.side s.seat.table_id s.seat.me.0 s.seen.items s.moves s.takes };
}

impl<D: Direction> SideSeat<D> {
    /// What the seat has seen: one coordinate per point.
    pub fn values(&self) -> &[u64]
        ensures seen { result.now ≡ self.now.seen }
        ensures sound { IsSound D.side self.now }
    {
        &self.seen
    }

    /// How many fetches of this seat, and of those that were joined to it, moved a word.
    pub fn moves(&self) -> u64
        ensures moves { result ≡ self.now.moves }
        ensures sound { IsSound D.side self.now }
    {
        self.moves
    }

    /// Does nothing; its clause is what holds of a seat at every moment.
    #[inline(always)]
    pub(crate) fn know(&self)
        ensures { IsSound D.side self.now }
    {
        let _ = &self.seen;
    }
}
