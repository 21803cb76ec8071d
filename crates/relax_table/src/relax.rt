//! Single steps, and the relaxation of one point.

ghost use Rattle.std.specs.Prelude.{◌≡◌, ◌≢◌, ℕ, ◌+◌, ◌<◌, ◌≤◌, length, slice_index, slice_set, MatchBool};
ghost use Rattle.relax_system.specs.Sides.{Before, mean_of, distance};
ghost use Rattle.relax_system.specs.System.{point_at};
ghost use Rattle.relax_table.specs.Step.{word_after, seen_after};
ghost use Rattle.relax_table.specs.Step.Kind.{Load, Renew};
ghost use Rattle.relax_table.specs.Seats.{IsSeatOf, IsSound, Advances, IsNoNeighbour, near_numbers};
ghost use Rattle.relax_table.specs.Ways.{is_past, one_if};
ghost use Rattle.relax_table.specs.Forms.Look.{IsLooked};
ghost use Rattle.relax_table.specs.Forms.Rule.{Stepped, state_of};
ghost use Rattle.std.specs.Prelude.{[], ◌∷◌, ◌++◌, All, false, ◌||◌};

use crate::direction::{Direction, further, mean, passes};
use crate::rule::{Looks, Renews, View};
use crate::seat::{Renewal, SideSeat};
use crate::steps::Steps;
use crate::table::SideTable;
use atomic_table::Seat;
use relax_system::{Near, Side};
use std::sync::ledger::Ledger;

/// What a relaxation did: its fetch, and whether it moved an entry of what the seat has seen.
#[derive(Clone, Copy)]
pub struct Relaxed {
    pub fetch: Renewal,
    pub moved: bool,
}

impl<'a, D: Direction> SideTable<'a, D> {
    /// One load of the word of a point. The answer is the word found, and the seat's entry `i`.
    #[inline(always)]
    pub fn load<L: Ledger>(&self, seat: &mut SideSeat<D>, i: usize, steps: &mut Steps<L>) -> u64
        requires own { IsSeatOf self.now seat.old }
        requires point { i < length self.now.system }
        ensures own { IsSeatOf self.now seat.new }
        ensures advances { Advances D.side seat.old seat.new }
        ensures seen { seat.new.seen ≡ seen_after D.side self.now.system Load i result seat.old.seen }
        ensures counts { (seat.new.loads ≡ seat.old.loads + 1) × (seat.new.fetches ≡ seat.old.fetches) × (seat.new.moves ≡ seat.old.moves) }
        ensures points { (seat.new.looked ≡ seat.old.looked ++ i ∷ []) × (seat.new.renewed ≡ seat.old.renewed) × (seat.new.parts ≡ seat.old.parts) × (seat.new.takes ≡ seat.old.takes) }
        ensures idle { seat.new.idle ≡ seat.old.idle }
        ensures found { Before D.side (slice_index seat.old.seen i) result }
        ensures steps { steps.new ≡ steps.old + 1 }
    {
        let word = self.table.shared.load::<Looks<D>>(&mut seat.seat, i);
        seat.seen[i] = word;
        steps.tick();
        word
    }

    /// One fetch on the word of a point, of the mean of what the seat has seen.
    #[inline(always)]
    pub fn renew<L: Ledger>(
        &self,
        seat: &mut SideSeat<D>,
        i: usize,
        steps: &mut Steps<L>,
    ) -> Renewal
        requires own { IsSeatOf self.now seat.old }
        requires point { i < length self.now.system }
        ensures own { IsSeatOf self.now seat.new }
        ensures advances { Advances D.side seat.old seat.new }
        ensures word { result.new ≡ word_after D.side self.now.system Renew i result.old seat.old.seen }
        ensures seen { seat.new.seen ≡ slice_set seat.old.seen i result.new }
        ensures counts { (seat.new.loads ≡ seat.old.loads) × (seat.new.fetches ≡ seat.old.fetches + 1) × (seat.new.moves ≡ seat.old.moves + one_if (is_past D.side result.old result.new)) }
        ensures points { (seat.new.looked ≡ seat.old.looked) × (seat.new.renewed ≡ seat.old.renewed ++ i ∷ []) × (seat.new.parts ≡ seat.old.parts) × (seat.new.takes ≡ seat.old.takes) }
        ensures idle { seat.new.idle ≡ seat.old.idle }
        ensures found { (result.old ≡ seat.new.found) × Before D.side (slice_index seat.old.seen i) result.old }
        ensures quiet { Before D.side (mean_of D.side self.now.system i seat.new.seen) (slice_index seat.new.seen i) }
        ensures steps { steps.new ≡ steps.old + 1 }
    {
        let mean = mean(D::side(), self.system, i, &seat.seen);
        let old = self.fetch(&mut seat.seat, i, mean);
        let new = further(D::side(), old, mean);
        seat.seen[i] = new;
        seat.moves += passes(D::side(), old, new);
        steps.tick();
        Renewal { old, new }
    }

    /// Loads of the words of all neighbours of a point. Whether an entry of what the seat has seen moved.
    #[inline(always)]
    fn look_around<L: Ledger>(&self, seat: &mut SideSeat<D>, i: usize, steps: &mut Steps<L>) -> bool
        requires own { IsSeatOf self.now seat.old }
        requires point { i < length self.now.system }
        ensures own { IsSeatOf self.now seat.new }
        ensures advances { Advances D.side seat.old seat.new }
        ensures counts { (seat.new.loads ≡ seat.old.loads + length (point_at self.now.system i).near) × (seat.new.fetches ≡ seat.old.fetches) × (seat.new.moves ≡ seat.old.moves) }
        ensures points { (seat.new.looked ≡ seat.old.looked ++ near_numbers self.now.system i) × (seat.new.renewed ≡ seat.old.renewed) × (seat.new.parts ≡ seat.old.parts) × (seat.new.takes ≡ seat.old.takes) }
        ensures idle { seat.new.idle ≡ seat.old.idle }
        ensures others { (j : ℕ) → IsNoNeighbour self.now.system i j → slice_index seat.new.seen j ≡ slice_index seat.old.seen j }
        ensures moved { MatchBool result (1 ≤ distance D.side seat.old.seen seat.new.seen) (seat.new.seen ≡ seat.old.seen) }
        ensures steps { steps.new ≡ steps.old + length (point_at self.now.system i).near }
    {
        seat.know();
        let near = self.system.point(i).near.as_slice();
        self.look_each(&mut seat.seat, &mut seat.seen, near, steps)
    }

    /// Loads of the words of these neighbours, one after another. Whether an entry of what was seen moved. Over slices, so
    /// that no turn takes their places anew.
    #[inline(always)]
    fn look_each<L: Ledger>(
        &self,
        seat: &mut Seat<u8, View>,
        seen: &mut [u64],
        near: &[Near],
        steps: &mut Steps<L>,
    ) -> bool
        requires own { IsSeatOf self.now (state_of seat.old.table_id seat.old.me.0) }
        requires held { (seat.old.me.1 ≡ []) × (seat.old.me.0.spent ≡ false) × (seen.old ≡ seat.old.me.0.seen) }
        requires sound { IsSound D.side (state_of seat.old.table_id seat.old.me.0) }
        requires there { All (λ n. n.point < length self.now.system) near.now }
        ensures looked { IsLooked D.side near.now self.now (state_of seat.old.table_id seat.old.me.0) (state_of seat.new.table_id seat.new.me.0) steps.old steps.new (length near.now) result }
        ensures held { (seat.new.me.1 ≡ []) × (seat.new.me.0.spent ≡ false) × (seen.new ≡ seat.new.me.0.seen) }
    {
        let mut moved = false;
        for entry in near {
            let other = entry.point as usize;
            let word = self.table.shared.load::<Looks<D>>(seat, other);
            steps.tick();
            if see(seen, other, word) {
                moved = true;
            }
        }
        moved
    }

    /// A look at each neighbour of a point, and then a renewal of the point.
    #[inline(always)]
    pub fn relax_side<L: Ledger>(
        &self,
        seat: &mut SideSeat<D>,
        i: usize,
        steps: &mut Steps<L>,
    ) -> Relaxed
        requires own { IsSeatOf self.now seat.old }
        requires point { i < length self.now.system }
        ensures own { IsSeatOf self.now seat.new }
        ensures advances { Advances D.side seat.old seat.new }
        ensures word { result.fetch.new ≡ word_after D.side self.now.system Renew i result.fetch.old seat.new.seen }
        ensures entry { slice_index seat.new.seen i ≡ result.fetch.new }
        ensures counts { (seat.new.loads ≡ seat.old.loads + length (point_at self.now.system i).near) × (seat.new.fetches ≡ seat.old.fetches + 1) × (seat.new.moves ≡ seat.old.moves + one_if (is_past D.side result.fetch.old result.fetch.new)) × (steps.new ≡ steps.old + (length (point_at self.now.system i).near + 1)) × (seat.new.idle ≡ seat.old.idle) }
        ensures points { (seat.new.looked ≡ seat.old.looked ++ near_numbers self.now.system i) × (seat.new.renewed ≡ seat.old.renewed ++ i ∷ []) × (seat.new.parts ≡ seat.old.parts) × (seat.new.takes ≡ seat.old.takes) }
        ensures others { (j : ℕ) → j ≢ i → IsNoNeighbour self.now.system i j → slice_index seat.new.seen j ≡ slice_index seat.old.seen j }
        ensures found { (result.fetch.old ≡ seat.new.found) × Before D.side (slice_index seat.old.seen i) result.fetch.old }
        ensures quiet { Before D.side (mean_of D.side self.now.system i seat.new.seen) (slice_index seat.new.seen i) }
        ensures moved { MatchBool result.moved (1 ≤ distance D.side seat.old.seen seat.new.seen) (seat.new.seen ≡ seat.old.seen) }
    {
        seat.know();
        let looked = self.look_around(seat, i, steps);
        let before = seat.seen[i];
        let fetch = self.renew(seat, i, steps);
        let moved = either(looked, differs(fetch.new, before));
        Relaxed { fetch, moved }
    }

    /// The fetch alone: the greater, or on the way down the smaller, of the word and the mean.
    #[inline(always)]
    fn fetch(&self, seat: &mut Seat<u8, View>, i: usize, mean: u64) -> u64
        requires own { (seat.old.table_id ≡ self.now.id) × (seat.old.me.1 ≡ []) × (seat.old.me.0.spent ≡ false) }
        requires point { i < length self.now.system }
        requires mean { mean ≡ mean_of D.side seat.old.me.0.system i seat.old.me.0.seen }
        ensures own { (seat.new.table_id ≡ self.now.id) × (seat.new.me.1 ≡ []) }
        ensures stepped { Stepped D.side Renew i seat.old.me.0 result seat.new.me.0 }
    {
        let _ = &self.system;
        match D::side() {
            Side::Floor => self.table.shared.fetch_max::<Renews<D>>(seat, i, mean),
            Side::Ceil => self.table.shared.fetch_min::<Renews<D>>(seat, i, mean),
        }
    }
}

/// Puts a word at its place. Whether it is another one than stood there: only then anything is written.
#[inline(always)]
fn see(seen: &mut [u64], i: usize, word: u64) -> bool
    requires { i < length seen.old }
    ensures seen { seen.new ≡ slice_set seen.old i word }
    ensures moved { MatchBool result (word ≢ slice_index seen.old i) (word ≡ slice_index seen.old i) }
{
    let moved = differs(word, seen[i]);
    if moved {
        seen[i] = word;
    }
    moved
}

/// Whether one of the two holds.
#[inline(always)]
pub(crate) fn either(a: bool, b: bool) -> bool
    ensures { result ≡ (a || b) }
{
    a || b
}

/// Whether the numbers differ.
#[inline(always)]
pub(crate) fn differs(a: u64, b: u64) -> bool
    ensures { MatchBool result (a ≢ b) (a ≡ b) }
{
    a != b
}
