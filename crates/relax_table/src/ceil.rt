//! Ceil tables. Their words fall from a start towards the greatest vector.

ghost use Rattle.std.specs.Prelude.{◌≡◌, ◌≢◌, [], ◌∷◌, ◌++◌, ℕ, ◌+◌, ◌-◌, ◌*◌, ◌^◌, ◌<◌, ◌≤◌, min, List, length, slice_index, slice_set, nat_lt, IfOk, OnErr};
ghost use Rattle.relax_system.specs.Means.{ceil_mean, InBoxes, IsPostFixed};
ghost use Rattle.relax_system.specs.Extremal.{IsGreatest};
ghost use Rattle.relax_system.specs.System.{point_at};
ghost use Rattle.relax_system.specs.declared.side.Side.TheVariants.{Ceil};
ghost use Rattle.relax_table.specs.Ways.{one_if};
ghost use Rattle.relax_table.specs.Step.{word_after, seen_after};
ghost use Rattle.relax_table.specs.Step.Kind.{Load, Renew};
ghost use Rattle.relax_table.specs.Seats.{IsSeatOf, Continues, GoesOn, TakesPasses, IsNoNeighbour, mark_words, near_numbers, sweep_steps};
ghost use Rattle.relax_table.specs.declared.chase.TheConstants.{MOST_PASSES};
ghost use Rattle.relax_table.specs.Ceil.{IsCeilStart, fall, IsAboveGreatest, Falls};

use crate::direction::Down;
use crate::seat::{Renewal, SideSeat};
use crate::steps::Steps;
use crate::table::SideTable;
use book_text::Memory;
use relax_system::System;
use std::alloc::Global;
use std::sync::ledger::Ledger;

/// A table that is solved from above.
pub type CeilTable<'a> = SideTable<'a, Down>;

/// A seat at a ceil table.
pub type CeilSeat = SideSeat<Down>;

/// What a lower found in the word, and what it left there.
pub type Lowered = Renewal;

impl SideSeat<Down> {
    /// What the seat has seen: one coordinate per point. Where it is post-fixed, it is the greatest vector.
    #[tactic(auto, using(crate::proofs::Literal::above_greatest))]
    pub fn seen(&self) -> &[u64]
        ensures seen { result.now ≡ self.now.seen }
        ensures above { IsAboveGreatest self.now }
        ensures greatest { IsPostFixed self.now.system result.now → IsGreatest self.now.system result.now }
    {
        &self.seen
    }

    /// How many fetches of this seat, and of those that were joined to it, lowered a word.
    #[tactic(auto, using(crate::proofs::Literal::above_greatest))]
    pub fn lowers(&self) -> u64
        ensures lowers { result ≡ self.now.moves }
        ensures bound { (v : List ℕ) → IsGreatest self.now.system v → result ≤ fall self.now.start v }
        ensures above { IsAboveGreatest self.now }
    {
        self.moves
    }

    /// How many mark words this seat took, and those that were joined to it. It stands still at the greatest `u64`.
    pub fn takes(&self) -> u64
        ensures { result ≡ min self.now.takes (2 ^ 64 - 1) }
    {
        self.takes
    }
}

impl<'a> SideTable<'a, Down> {
    /// A table whose words are the start's entries, and its first seat. Only want of memory is refused.
    #[tactic(auto, using(crate::proofs::Literal::above_greatest))]
    pub fn new(
        alloc: Global,
        system: &'a System,
        start: &[u64],
    ) -> Result<(CeilTable<'a>, CeilSeat), Memory>
        requires { IsCeilStart system.now start.now }
        ensures table { IfOk result (λ t. (t.0.system ≡ system.now) × (t.0.start ≡ start.now)) }
        ensures own { IfOk result (λ t. IsSeatOf t.0 t.1) }
        ensures seat { IfOk result (λ t. (t.1.seen ≡ start.now) × (t.1.loads ≡ 0) × (t.1.fetches ≡ 0) × (t.1.moves ≡ 0) × (t.1.parts ≡ 1) × (t.1.looked ≡ []) × (t.1.renewed ≡ []) × (t.1.takes ≡ 0)) }
        ensures above { IfOk result (λ t. IsAboveGreatest t.1) }
    {
        SideTable::over(alloc, system, start)
    }

    /// A second seat, which has seen what this one has and has no lowers. Only want of memory is refused, and then this
    /// seat is as before.
    #[tactic(auto, using(crate::proofs::Literal::above_greatest))]
    pub fn split(&self, seat: &mut CeilSeat) -> Result<CeilSeat, Memory>
        requires { IsSeatOf self.now seat.old }
        ensures same { seat.new ≡ seat.old }
        ensures own { IfOk result (IsSeatOf self.now) }
        ensures seat { IfOk result (λ s. (s.seen ≡ seat.old.seen) × (s.loads ≡ 0) × (s.fetches ≡ 0) × (s.moves ≡ 0) × (s.parts ≡ 1) × (s.looked ≡ []) × (s.renewed ≡ []) × (s.takes ≡ 0)) }
        ensures above { IfOk result IsAboveGreatest }
    {
        self.split_side(seat)
    }

    /// One seat of two: what it has seen is the smaller of both in each entry, and its counts are the sums.
    #[tactic(auto, using(crate::proofs::Literal::falls_of))]
    pub fn join_seats(&self, seat: CeilSeat, other: CeilSeat) -> CeilSeat
        requires own { IsSeatOf self.now seat }
        requires other { IsSeatOf self.now other }
        ensures own { IsSeatOf self.now result }
        ensures seen { (i : ℕ) → slice_index result.seen i ≡ min (slice_index seat.seen i) (slice_index other.seen i) }
        ensures counts { (result.loads ≡ seat.loads + other.loads) × (result.fetches ≡ seat.fetches + other.fetches) × (result.parts ≡ seat.parts + other.parts) × (result.takes ≡ seat.takes + other.takes) }
        ensures lowers { result.moves ≡ seat.moves + other.moves }
        ensures falls { Falls seat result }
        ensures falls_other { Falls other result }
    {
        self.join_sides(seat, other)
    }

    /// One load. The answer is the word found, and the seat's entry `i`.
    #[tactic(auto, using(crate::proofs::Literal::falls_of))]
    pub fn look<L: Ledger>(&self, seat: &mut CeilSeat, i: usize, steps: &mut Steps<L>) -> u64
        requires own { IsSeatOf self.now seat.old }
        requires point { i < length self.now.system }
        ensures own { IsSeatOf self.now seat.new }
        ensures falls { Falls seat.old seat.new }
        ensures seen { seat.new.seen ≡ slice_set seat.old.seen i result }
        ensures step { seat.new.seen ≡ seen_after Ceil self.now.system Load i result seat.old.seen }
        ensures entry { slice_index seat.new.seen i ≡ result }
        ensures counts { (seat.new.loads ≡ seat.old.loads + 1) × (seat.new.fetches ≡ seat.old.fetches) × (seat.new.moves ≡ seat.old.moves) }
        ensures points { (seat.new.looked ≡ seat.old.looked ++ i ∷ []) × (seat.new.renewed ≡ seat.old.renewed) × (seat.new.parts ≡ seat.old.parts) × (seat.new.takes ≡ seat.old.takes) }
        ensures steps { steps.new ≡ steps.old + 1 }
    {
        self.load(seat, i, steps)
    }

    /// One `fetch_min` of the point's rounded-up mean of what the seat has seen.
    #[tactic(auto, using(crate::proofs::Literal::falls_of))]
    pub fn lower<L: Ledger>(&self, seat: &mut CeilSeat, i: usize, steps: &mut Steps<L>) -> Lowered
        requires own { IsSeatOf self.now seat.old }
        requires point { i < length self.now.system }
        ensures own { IsSeatOf self.now seat.new }
        ensures falls { Falls seat.old seat.new }
        ensures found { (result.old ≡ seat.new.found) × (result.old ≤ slice_index seat.old.seen i) }
        ensures new { result.new ≡ min result.old (ceil_mean self.now.system i seat.old.seen) }
        ensures seen { seat.new.seen ≡ slice_set seat.old.seen i result.new }
        ensures step { (result.new ≡ word_after Ceil self.now.system Renew i result.old seat.old.seen) × (seat.new.seen ≡ seen_after Ceil self.now.system Renew i result.old seat.old.seen) }
        ensures entry { slice_index seat.new.seen i ≡ result.new }
        ensures counts { (seat.new.loads ≡ seat.old.loads) × (seat.new.fetches ≡ seat.old.fetches + 1) × (seat.new.moves ≡ seat.old.moves + one_if (nat_lt result.new result.old)) }
        ensures points { (seat.new.looked ≡ seat.old.looked) × (seat.new.renewed ≡ seat.old.renewed ++ i ∷ []) × (seat.new.parts ≡ seat.old.parts) × (seat.new.takes ≡ seat.old.takes) }
        ensures steps { steps.new ≡ steps.old + 1 }
    {
        self.renew(seat, i, steps)
    }

    /// A look at each neighbour of a point, and then a lower. The point is quiet afterwards.
    #[tactic(auto, using(crate::proofs::Literal::falls_of))]
    pub fn relax<L: Ledger>(&self, seat: &mut CeilSeat, i: usize, steps: &mut Steps<L>) -> Lowered
        requires own { IsSeatOf self.now seat.old }
        requires point { i < length self.now.system }
        ensures own { IsSeatOf self.now seat.new }
        ensures falls { Falls seat.old seat.new }
        ensures others { (j : ℕ) → j ≢ i → IsNoNeighbour self.now.system i j → slice_index seat.new.seen j ≡ slice_index seat.old.seen j }
        ensures found { (result.old ≡ seat.new.found) × (result.old ≤ slice_index seat.old.seen i) }
        ensures new { result.new ≡ min result.old (ceil_mean self.now.system i seat.new.seen) }
        ensures entry { slice_index seat.new.seen i ≡ result.new }
        ensures quiet { slice_index seat.new.seen i ≤ ceil_mean self.now.system i seat.new.seen }
        ensures counts { (seat.new.loads ≡ seat.old.loads + length (point_at self.now.system i).near) × (seat.new.fetches ≡ seat.old.fetches + 1) × (seat.new.moves ≡ seat.old.moves + one_if (nat_lt result.new result.old)) }
        ensures points { (seat.new.looked ≡ seat.old.looked ++ near_numbers self.now.system i) × (seat.new.renewed ≡ seat.old.renewed ++ i ∷ []) × (seat.new.parts ≡ seat.old.parts) × (seat.new.takes ≡ seat.old.takes) }
        ensures steps { steps.new ≡ steps.old + (length (point_at self.now.system i).near + 1) }
    {
        self.relax_side(seat, i, steps).fetch
    }

    /// Relaxes the points from `from` to before `to` until they are quiet in what the seat has seen, whatever other seats do.
    /// It takes at most H + 2 sweeps, where H is how far the greatest vector lies below the start, all entries together.
    #[tactic(auto, using(crate::proofs::Literal::falls_of))]
    pub fn settle_range<L: Ledger>(
        &self,
        seat: &mut CeilSeat,
        from: usize,
        to: usize,
        steps: &mut Steps<L>,
    )
        requires own { IsSeatOf self.now seat.old }
        requires order { from ≤ to }
        requires within { to ≤ length self.now.system }
        ensures own { IsSeatOf self.now seat.new }
        ensures falls { Falls seat.old seat.new }
        ensures continues { Continues seat.old seat.new }
        ensures quiet { (i : ℕ) → from ≤ i → i < to → slice_index seat.new.seen i ≤ ceil_mean self.now.system i seat.new.seen }
        ensures counted { steps.new + (seat.old.loads + seat.old.fetches) ≡ steps.old + (seat.new.loads + seat.new.fetches) }
        ensures cost { (v : List ℕ) → IsGreatest self.now.system v → steps.new ≤ steps.old + (fall self.now.start v + 2) * sweep_steps self.now.system from to }
    {
        self.settle_side(seat, from, to, steps);
    }

    /// Takes marked points in place of sweeping over all: the mark words from `from` to before `to`, pass after pass. Each point
    /// whose bit is found is relaxed, and where that changed its word its neighbours are marked. It ends after a pass that found
    /// no bit, or after `passes` passes. What it leaves need not be quiet.
    #[tactic(auto, using(crate::proofs::Literal::falls_of))]
    pub fn chase<L: Ledger>(
        &self,
        seat: &mut CeilSeat,
        from: usize,
        to: usize,
        passes: u64,
        steps: &mut Steps<L>,
    )
        requires own { IsSeatOf self.now seat.old }
        requires order { from ≤ to }
        requires within { to ≤ mark_words (length self.now.system) }
        requires few { passes ≤ MOST_PASSES }
        ensures own { IsSeatOf self.now seat.new }
        ensures falls { Falls seat.old seat.new }
        ensures goes_on { GoesOn seat.old seat.new }
        ensures takes { TakesPasses passes from to seat.old seat.new }
        ensures counted { steps.new + (seat.old.loads + seat.old.fetches) ≡ steps.old + (seat.new.loads + seat.new.fetches) }
        ensures cost { steps.new ≤ steps.old + passes * sweep_steps self.now.system (64 * from) (min (64 * to) (length self.now.system)) }
    {
        self.chase_side(seat, from, to, passes, steps);
    }

    /// Relaxes all points until the seat has seen the greatest vector, whatever other seats do. It takes at most H + 2 sweeps,
    /// where H is how far that vector lies below the start, all entries together.
    #[tactic(auto, using(crate::proofs::Literal::falls_of))]
    pub fn settle<L: Ledger>(&self, seat: &mut CeilSeat, steps: &mut Steps<L>)
        requires { IsSeatOf self.now seat.old }
        ensures own { IsSeatOf self.now seat.new }
        ensures falls { Falls seat.old seat.new }
        ensures continues { Continues seat.old seat.new }
        ensures greatest { IsGreatest self.now.system seat.new.seen }
        ensures counted { steps.new + (seat.old.loads + seat.old.fetches) ≡ steps.old + (seat.new.loads + seat.new.fetches) }
        ensures cost { (v : List ℕ) → IsGreatest self.now.system v → steps.new ≤ steps.old + (fall self.now.start v + 2) * sweep_steps self.now.system 0 (length self.now.system) }
    {
        self.settle_side(seat, 0, self.system.points(), steps);
    }
}
