//! Which points a seat begins with.

ghost use Rattle.std.specs.Prelude.{◌≡◌, ℕ, ◌+◌, ◌*◌, ◌/◌, ◌<◌, ◌≤◌, nat_lt};
ghost use Rattle.relax_table.specs.Seats.{mark_words};
ghost use Rattle.relax_crew.specs.Forms.Turns.{first_point, first_mark, marks_end};

use relax_system::MOST_POINTS;
use relax_table::MARKS;

/// The most seats that a crew may have; it has at least one.
pub const MOST_SEATS: usize = 64;

/// The first point of seat `k` of `seats`, and the one past its last, where `points` points are dealt out.
pub(crate) fn range_of(k: usize, seats: usize, points: usize) -> (usize, usize)
    requires seat { k < seats }
    requires seats { seats ≤ MOST_SEATS }
    requires points { points ≤ MOST_POINTS }
    ensures from { result.0 ≡ first_point k seats points }
    ensures to { result.1 ≡ first_point (k + 1) seats points }
    ensures order { result.0 ≤ result.1 }
    ensures within { result.1 ≤ points }
{
    (k * points / seats, (k + 1) * points / seats)
}

/// The first mark word of the points from `from` to before `to`, and the one past their last. No point has none.
pub(crate) fn marks_of(from: usize, to: usize) -> (usize, usize)
    requires order { from ≤ to }
    requires few { to ≤ MOST_POINTS }
    ensures from { result.0 ≡ first_mark from }
    ensures to { result.1 ≡ marks_end (nat_lt from to) from to }
    ensures order { result.0 ≤ result.1 }
    ensures within { (points : ℕ) → to ≤ points → result.1 ≤ mark_words points }
{
    let first = from / MARKS;
    if from < to {
        (first, (to + MARKS - 1) / MARKS)
    } else {
        (first, first)
    }
}
