//! A table of one direction: how it is made, and how its seats are split and joined.

ghost use Rattle.std.specs.Prelude.{◌≡◌, [], ◌+◌, ◌<◌, ◌≤◌, length, slice_index, IfOk, OnOk, OnErr};
ghost use Rattle.relax_system.specs.Sides.{AllBefore, further_of};
ghost use Rattle.relax_system.specs.Means.{InBoxes};
ghost use Rattle.relax_system.specs.System.{IsValid};
ghost use Rattle.relax_table.specs.Ways.{IsQuietVector};
ghost use Rattle.relax_table.specs.Seats.{SeatState, IsSeatOf, IsSound, Advances};
ghost use Rattle.relax_table.specs.Forms.Rule.{furthest};
ghost use Rattle.std.specs.Prelude.{ℕ, List};

use crate::direction::{Direction, further};
use crate::marks::marked;
use crate::rule::{Halves, Learns, Origin, SideRule, View};
use crate::seat::SideSeat;
use atomic_table::Table;
use book_text::Memory;
use relax_system::System;
use std::alloc::Global;
use std::marker::{Model, PhantomData};
use std::snapshot::Snapshot;

/// A table of that direction, which many threads share.
#[derive(Drop)]
pub struct SideTable<'a, D: Direction> {
    pub(crate) system: &'a System,
    pub(crate) table: Table<u8, View, Origin, SideRule<D>, Global>,
}

impl<'a, D: Direction> Model for SideTable<'a, D> {
    ghost use Rattle.std.specs.Prelude.{◌≡◌, ◌+◌, ◌<◌, length};
    ghost use Rattle.relax_system.specs.System.{IsValid};
    ghost use Rattle.relax_table.specs.Seats.{TableState, mark_words};

    ghost Value = { TableState };

    ghost view = { λ t. record { id = t.table.shared.table_id; system = t.system.now; start = t.table.shared.key.start.value.items } };

    ghost invariant = { λ t. (t.table.shared.key.system.value ≡ t.system.now) × (t.table.shared.table_id.words ≡ length t.system.now + mark_words (length t.system.now)) × (0 < length t.system.now) × IsValid t.system.now };
}

impl<'a, D: Direction> SideTable<'a, D> {
    /// A table whose words are the start's entries, with a mark of each point behind them, and its first seat. Only want of memory
    /// is refused.
    pub fn over(
        alloc: Global,
        system: &'a System,
        start: &[u64],
    ) -> Result<(SideTable<'a, D>, SideSeat<D>), Memory>
        requires some { 0 < length system.now }
        requires boxes { InBoxes system.now start.now }
        requires first { (u : List ℕ) → IsQuietVector D.side system.now u → AllBefore D.side start.now u }
        ensures table { IfOk result (λ t. (t.0.system ≡ system.now) × (t.0.start ≡ start.now)) }
        ensures own { IfOk result (λ t. IsSeatOf t.0 t.1) }
        ensures seat { IfOk result (λ t. (t.1.seen ≡ start.now) × (t.1.loads ≡ 0) × (t.1.fetches ≡ 0) × (t.1.moves ≡ 0) × (t.1.parts ≡ 1) × (t.1.looked ≡ []) × (t.1.renewed ≡ []) × (t.1.takes ≡ 0)) }
        ensures sound { IfOk result (λ t. IsSound D.side t.1) }
    {
        let _ = system.points();
        let mut seen = Vec::new(alloc);
        seen.extend_from_slice(start)?;
        let words = marked(alloc, start)?;
        let origin = Origin {
            system: Snapshot::of(system),
            start: Snapshot::of(&seen),
        };
        let (table, seat) = Table::of_words(alloc, &words, &origin)?;
        let seat = SideSeat {
            seat,
            seen,
            moves: 0,
            takes: 0,
            direction: PhantomData,
        };
        Ok((SideTable { system, table }, seat))
    }

    /// A second seat, which has seen what this one has. On want of memory this one is as before.
    pub fn split_side(&self, seat: &mut SideSeat<D>) -> Result<SideSeat<D>, Memory>
        requires { IsSeatOf self.now seat.old }
        ensures same { seat.new ≡ seat.old }
        ensures own { IfOk result (IsSeatOf self.now) }
        ensures seat { IfOk result (λ s. (s.seen ≡ seat.old.seen) × (s.loads ≡ 0) × (s.fetches ≡ 0) × (s.moves ≡ 0) × (s.parts ≡ 1) × (s.looked ≡ []) × (s.renewed ≡ []) × (s.takes ≡ 0)) }
        ensures sound { IfOk result (IsSound D.side) }
    {
        let seen = seat.seen.clone()?;
        let other = self.table.shared.split_seat::<Halves<D>>(&mut seat.seat);
        Ok(SideSeat {
            seat: other,
            seen,
            moves: 0,
            takes: 0,
            direction: PhantomData,
        })
    }

    /// One seat of two. It has seen the further of both entries at each point, and its counts are the sums.
    pub fn join_sides(&self, seat: SideSeat<D>, other: SideSeat<D>) -> SideSeat<D>
        requires own { IsSeatOf self.now seat }
        requires other { IsSeatOf self.now other }
        ensures own { IsSeatOf self.now result }
        ensures seen { (i : ℕ) → slice_index result.seen i ≡ further_of D.side (slice_index seat.seen i) (slice_index other.seen i) }
        ensures counts { (result.loads ≡ seat.loads + other.loads) × (result.fetches ≡ seat.fetches + other.fetches) × (result.moves ≡ seat.moves + other.moves) × (result.parts ≡ seat.parts + other.parts) × (result.takes ≡ seat.takes + other.takes) }
        ensures advances { Advances D.side seat result }
        ensures advances_other { Advances D.side other result }
    {
        let SideSeat {
            mut seat,
            mut seen,
            moves,
            takes,
            direction,
        } = seat;
        let SideSeat {
            seat: other,
            seen: others,
            moves: more,
            takes: more_takes,
            direction: _,
        } = other;
        self.table.shared.join_seat::<Halves<D>>(&mut seat, other);
        self.table.shared.load::<Learns<D>>(&mut seat, 0);
        put_furthest::<D>(&mut seen, &others);
        SideSeat {
            seat,
            seen,
            moves: moves + more,
            takes: takes.saturating_add(more_takes),
            direction,
        }
    }
}

/// Puts the further of both entries at each place.
fn put_furthest<D: Direction>(seen: &mut Vec<u64>, others: &[u64])
    requires { length seen.old.items ≡ length others.now }
    ensures { seen.new.items ≡ furthest D.side seen.old.items others.now }
{
    for i in 0..seen.len() {
        seen[i] = further(D::side(), seen[i], others[i]);
    }
}
