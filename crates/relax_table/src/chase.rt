//! Chases: a seat takes marked points in place of sweeping over all, and marks the neighbours of each point that it moved.

ghost use Rattle.std.specs.Prelude.{◌≡◌, ℕ, ◌+◌, ◌-◌, ◌*◌, ◌<◌, ◌≤◌, min, length, MatchBool};
ghost use Rattle.relax_system.specs.System.{point_at};
ghost use Rattle.relax_table.specs.Seats.{IsSeatOf, Advances, GoesOn, TakesPasses, mark_words, sweep_steps};
ghost use Rattle.relax_table.specs.Forms.Chase.{taken_once, IsChased};
ghost use Rattle.relax_table.specs.declared.chase.TheConstants.{MOST_PASSES};

use crate::direction::Direction;
use crate::marks::MARKS;
use crate::relax::{differs, either};
use crate::rule::{Marks, Takes};
use crate::seat::SideSeat;
use crate::steps::Steps;
use crate::table::SideTable;
use std::sync::ledger::Ledger;

/// The most passes of one chase.
pub const MOST_PASSES: u64 = 64;

impl<'a, D: Direction> SideTable<'a, D> {
    /// Takes the mark words of a range, pass after pass, and relaxes the points whose bits are found. It ends after a pass that
    /// found no bit, or after so many passes.
    pub fn chase_side<L: Ledger>(
        &self,
        seat: &mut SideSeat<D>,
        from: usize,
        to: usize,
        passes: u64,
        steps: &mut Steps<L>,
    )
        requires own { IsSeatOf self.now seat.old }
        requires order { from ≤ to }
        requires within { to ≤ mark_words (length self.now.system) }
        requires few { passes ≤ MOST_PASSES }
        ensures own { IsSeatOf self.now seat.new }
        ensures advances { Advances D.side seat.old seat.new }
        ensures goes_on { GoesOn seat.old seat.new }
        ensures takes { TakesPasses passes from to seat.old seat.new }
        ensures counted { steps.new + (seat.old.loads + seat.old.fetches) ≡ steps.old + (seat.new.loads + seat.new.fetches) }
        ensures cost { steps.new ≤ steps.old + passes * sweep_steps self.now.system (64 * from) (min (64 * to) (length self.now.system)) }
    {
        seat.know();
        let mut found = true;
        let mut done = 0;
        'passes: while found && done < passes {
            found = self.chase_once(seat, from, to, steps);
            done += 1;
        }
    }

    /// One pass: each mark word of the range is taken once, in order. Whether a bit was found.
    #[inline(always)]
    fn chase_once<L: Ledger>(
        &self,
        seat: &mut SideSeat<D>,
        from: usize,
        to: usize,
        steps: &mut Steps<L>,
    ) -> bool
        requires own { IsSeatOf self.now seat.old }
        requires order { from ≤ to }
        requires within { to ≤ mark_words (length self.now.system) }
        ensures chased { IsChased D.side self.now seat.old seat.new steps.old steps.new (to - from) (sweep_steps self.now.system (64 * from) (min (64 * to) (length self.now.system))) }
        ensures idle { MatchBool result (seat.new.idle < to - from) (seat.new.idle ≡ seat.old.idle + (to - from)) }
    {
        seat.know();
        let mut found = false;
        for word in from..to {
            let marks = self.take(seat, word);
            found = either(found, differs(marks, 0));
            self.relax_marked(seat, word, marks, steps);
        }
        found
    }

    /// Goes through the bits of a mark word in ascending order, and relaxes the points that they stand for.
    #[inline(always)]
    fn relax_marked<L: Ledger>(
        &self,
        seat: &mut SideSeat<D>,
        word: usize,
        marks: u64,
        steps: &mut Steps<L>,
    )
        requires own { IsSeatOf self.now seat.old }
        requires word { word < mark_words (length self.now.system) }
        ensures chased { IsChased D.side self.now seat.old seat.new steps.old steps.new 0 (sweep_steps self.now.system (64 * word) (min (64 * (word + 1)) (length self.now.system))) }
        ensures idle { seat.new.idle ≡ seat.old.idle }
    {
        seat.know();
        let first = word * MARKS;
        let mut at = 0;
        let mut left = marks;
        'bits: while left != 0 {
            let skip = left.trailing_zeros();
            at += skip;
            self.relax_there(seat, first + at as usize, steps);
            left = left >> skip >> 1;
            at += 1;
        }
    }

    /// Relaxes the point of that number, if there is one.
    #[inline(always)]
    fn relax_there<L: Ledger>(&self, seat: &mut SideSeat<D>, i: usize, steps: &mut Steps<L>)
        requires own { IsSeatOf self.now seat.old }
        ensures chased { IsChased D.side self.now seat.old seat.new steps.old steps.new 0 (sweep_steps self.now.system (min i (length self.now.system)) (min (i + 1) (length self.now.system))) }
        ensures idle { seat.new.idle ≡ seat.old.idle }
    {
        seat.know();
        if i < self.system.points() {
            self.relax_and_mark(seat, i, steps);
        }
    }

    /// Relaxes a point, and marks its neighbours where that changed its word.
    #[inline(always)]
    fn relax_and_mark<L: Ledger>(&self, seat: &mut SideSeat<D>, i: usize, steps: &mut Steps<L>)
        requires own { IsSeatOf self.now seat.old }
        requires point { i < length self.now.system }
        ensures chased { IsChased D.side self.now seat.old seat.new steps.old steps.new 0 (length (point_at self.now.system i).near + 1) }
        ensures idle { seat.new.idle ≡ seat.old.idle }
    {
        let fetch = self.relax_side(seat, i, steps).fetch;
        if fetch.old != fetch.new {
            self.mark_around(seat, i);
        }
    }

    /// Marks each neighbour of a point, once for each entry.
    #[inline(always)]
    fn mark_around(&self, seat: &mut SideSeat<D>, i: usize)
        requires own { IsSeatOf self.now seat.old }
        requires point { i < length self.now.system }
        ensures { seat.new ≡ seat.old }
    {
        for entry in self.system.point(i).near.as_slice() {
            self.mark(seat, entry.point as usize);
        }
    }

    /// Marks a point: one `fetch_or` of its bit.
    #[inline(always)]
    fn mark(&self, seat: &mut SideSeat<D>, i: usize)
        requires own { IsSeatOf self.now seat.old }
        requires point { i < length self.now.system }
        ensures { seat.new ≡ seat.old }
    {
        let word = self.system.points() + i / MARKS;
        self.table
            .shared
            .fetch_or::<Marks>(&mut seat.seat, word, 1 << (i % MARKS));
    }

    /// Takes a mark word: one swap with 0. The answer is its bits.
    #[inline(always)]
    fn take(&self, seat: &mut SideSeat<D>, word: usize) -> u64
        requires own { IsSeatOf self.now seat.old }
        requires word { word < mark_words (length self.now.system) }
        ensures own { IsSeatOf self.now seat.new }
        ensures advances { Advances D.side seat.old seat.new }
        ensures taken { seat.new ≡ taken_once seat.old result }
    {
        let place = self.system.points() + word;
        let marks = self.table.shared.swap::<Takes>(&mut seat.seat, place, 0);
        seat.takes = seat.takes.saturating_add(1);
        marks
    }
}
