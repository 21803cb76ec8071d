//! Floor tables. Their words rise from a start towards the least vector.

ghost use Rattle.std.specs.Prelude.{◌≡◌, ◌≢◌, [], ◌∷◌, ◌++◌, ℕ, ◌+◌, ◌-◌, ◌*◌, ◌^◌, ◌<◌, ◌≤◌, max, min, List, length, slice_index, slice_set, nat_lt, IfOk, OnErr};
ghost use Rattle.relax_system.specs.Means.{floor_mean, InBoxes, IsPreFixed};
ghost use Rattle.relax_system.specs.Extremal.{IsLeast};
ghost use Rattle.relax_system.specs.System.{point_at};
ghost use Rattle.relax_system.specs.declared.side.Side.TheVariants.{Floor};
ghost use Rattle.relax_table.specs.Ways.{one_if};
ghost use Rattle.relax_table.specs.Step.{word_after, seen_after};
ghost use Rattle.relax_table.specs.Step.Kind.{Load, Renew};
ghost use Rattle.relax_table.specs.Seats.{IsSeatOf, Continues, GoesOn, TakesPasses, IsNoNeighbour, mark_words, near_numbers, sweep_steps};
ghost use Rattle.relax_table.specs.declared.chase.TheConstants.{MOST_PASSES};
ghost use Rattle.relax_table.specs.Floor.{IsFloorStart, rise, IsBelowLeast, Rises};

use crate::direction::Up;
use crate::seat::{Renewal, SideSeat};
use crate::steps::Steps;
use crate::table::SideTable;
use book_text::Memory;
use relax_system::System;
use std::alloc::Global;
use std::sync::ledger::Ledger;

/// A table that is solved from below.
pub type FloorTable<'a> = SideTable<'a, Up>;

/// A seat at a floor table.
pub type FloorSeat = SideSeat<Up>;

/// What a raise found in the word, and what it left there.
pub type Raised = Renewal;

impl SideSeat<Up> {
    /// What the seat has seen: one coordinate per point. Where it is pre-fixed, it is the least vector.
    #[tactic(auto, using(crate::proofs::Literal::below_least))]
    pub fn seen(&self) -> &[u64]
        ensures seen { result.now ≡ self.now.seen }
        ensures below { IsBelowLeast self.now }
        ensures least { IsPreFixed self.now.system result.now → IsLeast self.now.system result.now }
    {
        &self.seen
    }

    /// How many fetches of this seat, and of those that were joined to it, raised a word.
    #[tactic(auto, using(crate::proofs::Literal::below_least))]
    pub fn raises(&self) -> u64
        ensures raises { result ≡ self.now.moves }
        ensures bound { (v : List ℕ) → IsLeast self.now.system v → result ≤ rise self.now.start v }
        ensures below { IsBelowLeast self.now }
    {
        self.moves
    }

    /// How many mark words this seat took, and those that were joined to it. It stands still at the greatest `u64`.
    pub fn takes(&self) -> u64
        ensures { result ≡ min self.now.takes (2 ^ 64 - 1) }
    {
        self.takes
    }
}

impl<'a> SideTable<'a, Up> {
    /// A table whose words are the start's entries, and its first seat. Only want of memory is refused.
    #[tactic(auto, using(crate::proofs::Literal::below_least))]
    pub fn new(
        alloc: Global,
        system: &'a System,
        start: &[u64],
    ) -> Result<(FloorTable<'a>, FloorSeat), Memory>
        requires { IsFloorStart system.now start.now }
        ensures table { IfOk result (λ t. (t.0.system ≡ system.now) × (t.0.start ≡ start.now)) }
        ensures own { IfOk result (λ t. IsSeatOf t.0 t.1) }
        ensures seat { IfOk result (λ t. (t.1.seen ≡ start.now) × (t.1.loads ≡ 0) × (t.1.fetches ≡ 0) × (t.1.moves ≡ 0) × (t.1.parts ≡ 1) × (t.1.looked ≡ []) × (t.1.renewed ≡ []) × (t.1.takes ≡ 0)) }
        ensures below { IfOk result (λ t. IsBelowLeast t.1) }
    {
        SideTable::over(alloc, system, start)
    }

    /// A second seat, which has seen what this one has and has no raises. Only want of memory is refused, and then this
    /// seat is as before.
    #[tactic(auto, using(crate::proofs::Literal::below_least))]
    pub fn split(&self, seat: &mut FloorSeat) -> Result<FloorSeat, Memory>
        requires { IsSeatOf self.now seat.old }
        ensures same { seat.new ≡ seat.old }
        ensures own { IfOk result (IsSeatOf self.now) }
        ensures seat { IfOk result (λ s. (s.seen ≡ seat.old.seen) × (s.loads ≡ 0) × (s.fetches ≡ 0) × (s.moves ≡ 0) × (s.parts ≡ 1) × (s.looked ≡ []) × (s.renewed ≡ []) × (s.takes ≡ 0)) }
        ensures below { IfOk result IsBelowLeast }
    {
        self.split_side(seat)
    }

    /// One seat of two: what it has seen is the greater of both in each entry, and its counts are the sums.
    #[tactic(auto, using(crate::proofs::Literal::rises_of))]
    pub fn join_seats(&self, seat: FloorSeat, other: FloorSeat) -> FloorSeat
        requires own { IsSeatOf self.now seat }
        requires other { IsSeatOf self.now other }
        ensures own { IsSeatOf self.now result }
        ensures seen { (i : ℕ) → slice_index result.seen i ≡ max (slice_index seat.seen i) (slice_index other.seen i) }
        ensures counts { (result.loads ≡ seat.loads + other.loads) × (result.fetches ≡ seat.fetches + other.fetches) × (result.parts ≡ seat.parts + other.parts) × (result.takes ≡ seat.takes + other.takes) }
        ensures raises { result.moves ≡ seat.moves + other.moves }
        ensures rises { Rises seat result }
        ensures rises_other { Rises other result }
    {
        self.join_sides(seat, other)
    }

    /// One load. The answer is the word found, and the seat's entry `i`.
    #[tactic(auto, using(crate::proofs::Literal::rises_of))]
    pub fn look<L: Ledger>(&self, seat: &mut FloorSeat, i: usize, steps: &mut Steps<L>) -> u64
        requires own { IsSeatOf self.now seat.old }
        requires point { i < length self.now.system }
        ensures own { IsSeatOf self.now seat.new }
        ensures rises { Rises seat.old seat.new }
        ensures seen { seat.new.seen ≡ slice_set seat.old.seen i result }
        ensures step { seat.new.seen ≡ seen_after Floor self.now.system Load i result seat.old.seen }
        ensures entry { slice_index seat.new.seen i ≡ result }
        ensures counts { (seat.new.loads ≡ seat.old.loads + 1) × (seat.new.fetches ≡ seat.old.fetches) × (seat.new.moves ≡ seat.old.moves) }
        ensures points { (seat.new.looked ≡ seat.old.looked ++ i ∷ []) × (seat.new.renewed ≡ seat.old.renewed) × (seat.new.parts ≡ seat.old.parts) × (seat.new.takes ≡ seat.old.takes) }
        ensures steps { steps.new ≡ steps.old + 1 }
    {
        self.load(seat, i, steps)
    }

    /// One `fetch_max` of the point's rounded-down mean of what the seat has seen.
    #[tactic(auto, using(crate::proofs::Literal::rises_of))]
    pub fn raise<L: Ledger>(&self, seat: &mut FloorSeat, i: usize, steps: &mut Steps<L>) -> Raised
        requires own { IsSeatOf self.now seat.old }
        requires point { i < length self.now.system }
        ensures own { IsSeatOf self.now seat.new }
        ensures rises { Rises seat.old seat.new }
        ensures found { (result.old ≡ seat.new.found) × (slice_index seat.old.seen i ≤ result.old) }
        ensures new { result.new ≡ max result.old (floor_mean self.now.system i seat.old.seen) }
        ensures seen { seat.new.seen ≡ slice_set seat.old.seen i result.new }
        ensures step { (result.new ≡ word_after Floor self.now.system Renew i result.old seat.old.seen) × (seat.new.seen ≡ seen_after Floor self.now.system Renew i result.old seat.old.seen) }
        ensures entry { slice_index seat.new.seen i ≡ result.new }
        ensures counts { (seat.new.loads ≡ seat.old.loads) × (seat.new.fetches ≡ seat.old.fetches + 1) × (seat.new.moves ≡ seat.old.moves + one_if (nat_lt result.old result.new)) }
        ensures points { (seat.new.looked ≡ seat.old.looked) × (seat.new.renewed ≡ seat.old.renewed ++ i ∷ []) × (seat.new.parts ≡ seat.old.parts) × (seat.new.takes ≡ seat.old.takes) }
        ensures steps { steps.new ≡ steps.old + 1 }
    {
        self.renew(seat, i, steps)
    }

    /// A look at each neighbour of a point, and then a raise. The point is quiet afterwards.
    #[tactic(auto, using(crate::proofs::Literal::rises_of))]
    pub fn relax<L: Ledger>(&self, seat: &mut FloorSeat, i: usize, steps: &mut Steps<L>) -> Raised
        requires own { IsSeatOf self.now seat.old }
        requires point { i < length self.now.system }
        ensures own { IsSeatOf self.now seat.new }
        ensures rises { Rises seat.old seat.new }
        ensures others { (j : ℕ) → j ≢ i → IsNoNeighbour self.now.system i j → slice_index seat.new.seen j ≡ slice_index seat.old.seen j }
        ensures found { (result.old ≡ seat.new.found) × (slice_index seat.old.seen i ≤ result.old) }
        ensures new { result.new ≡ max result.old (floor_mean self.now.system i seat.new.seen) }
        ensures entry { slice_index seat.new.seen i ≡ result.new }
        ensures quiet { floor_mean self.now.system i seat.new.seen ≤ slice_index seat.new.seen i }
        ensures counts { (seat.new.loads ≡ seat.old.loads + length (point_at self.now.system i).near) × (seat.new.fetches ≡ seat.old.fetches + 1) × (seat.new.moves ≡ seat.old.moves + one_if (nat_lt result.old result.new)) }
        ensures points { (seat.new.looked ≡ seat.old.looked ++ near_numbers self.now.system i) × (seat.new.renewed ≡ seat.old.renewed ++ i ∷ []) × (seat.new.parts ≡ seat.old.parts) × (seat.new.takes ≡ seat.old.takes) }
        ensures steps { steps.new ≡ steps.old + (length (point_at self.now.system i).near + 1) }
    {
        self.relax_side(seat, i, steps).fetch
    }

    /// Relaxes the points from `from` to before `to` until they are quiet in what the seat has seen, whatever other seats do.
    /// It takes at most H + 2 sweeps, where H is how far the least vector lies above the start, all entries together.
    #[tactic(auto, using(crate::proofs::Literal::rises_of))]
    pub fn settle_range<L: Ledger>(
        &self,
        seat: &mut FloorSeat,
        from: usize,
        to: usize,
        steps: &mut Steps<L>,
    )
        requires own { IsSeatOf self.now seat.old }
        requires order { from ≤ to }
        requires within { to ≤ length self.now.system }
        ensures own { IsSeatOf self.now seat.new }
        ensures rises { Rises seat.old seat.new }
        ensures continues { Continues seat.old seat.new }
        ensures quiet { (i : ℕ) → from ≤ i → i < to → floor_mean self.now.system i seat.new.seen ≤ slice_index seat.new.seen i }
        ensures counted { steps.new + (seat.old.loads + seat.old.fetches) ≡ steps.old + (seat.new.loads + seat.new.fetches) }
        ensures cost { (v : List ℕ) → IsLeast self.now.system v → steps.new ≤ steps.old + (rise self.now.start v + 2) * sweep_steps self.now.system from to }
    {
        self.settle_side(seat, from, to, steps);
    }

    /// Takes marked points in place of sweeping over all: the mark words from `from` to before `to`, pass after pass. Each point
    /// whose bit is found is relaxed, and where that changed its word its neighbours are marked. It ends after a pass that found
    /// no bit, or after `passes` passes. What it leaves need not be quiet.
    #[tactic(auto, using(crate::proofs::Literal::rises_of))]
    pub fn chase<L: Ledger>(
        &self,
        seat: &mut FloorSeat,
        from: usize,
        to: usize,
        passes: u64,
        steps: &mut Steps<L>,
    )
        requires own { IsSeatOf self.now seat.old }
        requires order { from ≤ to }
        requires within { to ≤ mark_words (length self.now.system) }
        requires few { passes ≤ MOST_PASSES }
        ensures own { IsSeatOf self.now seat.new }
        ensures rises { Rises seat.old seat.new }
        ensures goes_on { GoesOn seat.old seat.new }
        ensures takes { TakesPasses passes from to seat.old seat.new }
        ensures counted { steps.new + (seat.old.loads + seat.old.fetches) ≡ steps.old + (seat.new.loads + seat.new.fetches) }
        ensures cost { steps.new ≤ steps.old + passes * sweep_steps self.now.system (64 * from) (min (64 * to) (length self.now.system)) }
    {
        self.chase_side(seat, from, to, passes, steps);
    }

    /// Relaxes all points until the seat has seen the least vector, whatever other seats do. It takes at most H + 2 sweeps,
    /// where H is how far that vector lies above the start, all entries together.
    #[tactic(auto, using(crate::proofs::Literal::rises_of))]
    pub fn settle<L: Ledger>(&self, seat: &mut FloorSeat, steps: &mut Steps<L>)
        requires { IsSeatOf self.now seat.old }
        ensures own { IsSeatOf self.now seat.new }
        ensures rises { Rises seat.old seat.new }
        ensures continues { Continues seat.old seat.new }
        ensures least { IsLeast self.now.system seat.new.seen }
        ensures counted { steps.new + (seat.old.loads + seat.old.fetches) ≡ steps.old + (seat.new.loads + seat.new.fetches) }
        ensures cost { (v : List ℕ) → IsLeast self.now.system v → steps.new ≤ steps.old + (rise self.now.start v + 2) * sweep_steps self.now.system 0 (length self.now.system) }
    {
        self.settle_side(seat, 0, self.system.points(), steps);
    }
}
