//! Sweeps over a range of points, until what the seat has seen is quiet there.

ghost use Rattle.std.specs.Prelude.{◌≡◌, ℕ, ◌+◌, ◌*◌, ◌<◌, ◌≤◌, List, length, MatchBool};
ghost use Rattle.relax_system.specs.Sides.{IsExtremal, distance};
ghost use Rattle.relax_table.specs.Seats.{IsSeatOf, Advances, Continues, BeginsWithSweep, sweep_steps};
ghost use Rattle.relax_table.specs.Forms.Sweep.{SweepsOnce};
ghost use Rattle.relax_table.specs.Ways.{IsQuietVector, IsQuietIn};

use crate::direction::Direction;
use crate::relax::either;
use crate::seat::SideSeat;
use crate::steps::Steps;
use crate::table::SideTable;
use std::sync::ledger::Ledger;

impl<'a, D: Direction> SideTable<'a, D> {
    /// Relaxes the points of a range until what the seat has seen is quiet there. Each is relaxed once at least, in order.
    pub fn settle_side<L: Ledger>(
        &self,
        seat: &mut SideSeat<D>,
        from: usize,
        to: usize,
        steps: &mut Steps<L>,
    )
        requires own { IsSeatOf self.now seat.old }
        requires order { from ≤ to }
        requires within { to ≤ length self.now.system }
        ensures own { IsSeatOf self.now seat.new }
        ensures advances { Advances D.side seat.old seat.new }
        ensures continues { Continues seat.old seat.new }
        ensures begins { BeginsWithSweep self.now.system from to seat.old seat.new }
        ensures quiet { IsQuietIn D.side self.now.system from to seat.new.seen }
        ensures counted { steps.new + (seat.old.loads + seat.old.fetches) ≡ steps.old + (seat.new.loads + seat.new.fetches) }
        ensures cost { (u : List ℕ) → IsQuietVector D.side self.now.system u → steps.new ≤ steps.old + (distance D.side self.now.start u + 2) * sweep_steps self.now.system from to }
    {
        seat.know();
        'sweeps: while self.sweep(seat, from, to, steps) {}
    }

    /// Relaxes all points until the seat has seen the side's extremal vector, whatever other seats do.
    #[tactic(auto, using(crate::proofs::Seated::settled_extremal))]
    pub fn settle_all<L: Ledger>(&self, seat: &mut SideSeat<D>, steps: &mut Steps<L>)
        requires { IsSeatOf self.now seat.old }
        ensures own { IsSeatOf self.now seat.new }
        ensures advances { Advances D.side seat.old seat.new }
        ensures continues { Continues seat.old seat.new }
        ensures extremal { IsExtremal D.side self.now.system seat.new.seen }
    {
        self.settle_side(seat, 0, self.system.points(), steps);
    }

    /// Relaxes each point of a range once, in ascending order. Whether an entry of what the seat has seen moved.
    #[inline(always)]
    fn sweep<L: Ledger>(
        &self,
        seat: &mut SideSeat<D>,
        from: usize,
        to: usize,
        steps: &mut Steps<L>,
    ) -> bool
        requires own { IsSeatOf self.now seat.old }
        requires order { from ≤ to }
        requires within { to ≤ length self.now.system }
        ensures own { IsSeatOf self.now seat.new }
        ensures advances { Advances D.side seat.old seat.new }
        ensures swept { SweepsOnce self.now.system from to seat.old seat.new }
        ensures moved { MatchBool result (1 ≤ distance D.side seat.old.seen seat.new.seen) (IsQuietIn D.side self.now.system from to seat.new.seen) }
        ensures counted { steps.new + (seat.old.loads + seat.old.fetches) ≡ steps.old + (seat.new.loads + seat.new.fetches) }
        ensures steps { steps.new ≡ steps.old + sweep_steps self.now.system from to }
    {
        seat.know();
        let mut moved = false;
        for i in from..to {
            moved = either(moved, self.relax_side(seat, i, steps).moved);
        }
        moved
    }
}
