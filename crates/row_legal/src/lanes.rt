//! The segments in the order of their rows' y, to be searched outwards from a wish.

ghost use Rattle.std.specs.Prelude.{◌≡◌, ◌<◌, ◌≤◌, ◌-◌, ◌^◌, ◌↔◌, ℕ, length, slice_index, IfOk, IsTrue, IsSomeAnd, ◌-ℤ◌, ◌<ℤ◌, ◌≤ℤ◌, unsigned_abs};
ghost use Rattle.row_space.specs.Ends.{AreGoodSegments};
ghost use Rattle.row_legal.specs.Forms.Turns.{IsGoodTurn};
ghost use Rattle.row_legal.specs.Forms.Search.{IsNearest, IsSearched, AreRooms};
ghost use Rattle.row_legal.specs.Forms.Lanes.{AreLanes, AreInOrder, AreFull, lane_at};

use crate::found::{Found, Rows, better};
use crate::turns::Turn;
use row_space::Segment;
use std::alloc::{AllocError, Global};

/// A segment by its number, behind the y of its row. Lanes are in the order of y, then of numbers.
#[derive(Clone, Copy, Debug, PartialEq, Eq, PartialOrd, Ord)]
pub(crate) struct Lane {
    pub y: i64,
    pub segment: usize,
}

/// The lanes of all segments, in order.
pub(crate) fn lanes(alloc: Global, segments: &[Segment]) -> Result<Vec<Lane>, AllocError>
    ensures { IfOk result (λ lanes. AreLanes segments.now lanes.items) }
{
    let mut lanes = Vec::with_capacity(alloc, segments.len())?;
    for (s, segment) in segments.iter().enumerate() {
        lanes.push(Lane {
            y: segment.y,
            segment: s,
        })?;
    }
    lanes.sort_unstable();
    Ok(lanes)
}

/// The segment of least cost among those with room for a cell, and the first of them on a tie.
pub(crate) fn nearest(lanes: &[Lane], rows: &Rows<'_>, turn: &Turn) -> Option<usize>
    requires lanes { AreLanes rows.now.segments.now lanes.now }
    requires good { AreGoodSegments rows.now.pitch rows.now.segments.now }
    requires rooms { AreRooms rows.now.segments.now rows.now.rooms.now }
    requires turn { IsGoodTurn turn.now }
    ensures { IsNearest rows.now.pitch rows.now.segments.now (slice_index rows.now.rooms.now) turn.now result }
{
    match search(lanes, rows, turn) {
        Some(best) => Some(best.segment),
        None => None,
    }
}

/// The best of all segments. It goes from the wished y to the lane that is nearest of those left, below or above, and stops
/// where that distance alone is more than the cost found: all that is left costs more.
fn search(lanes: &[Lane], rows: &Rows<'_>, turn: &Turn) -> Option<Found>
    requires lanes { AreLanes rows.now.segments.now lanes.now }
    requires good { AreGoodSegments rows.now.pitch rows.now.segments.now }
    requires rooms { AreRooms rows.now.segments.now rows.now.rooms.now }
    requires turn { IsGoodTurn turn.now }
    ensures { IsSearched rows.now.pitch rows.now.segments.now (slice_index rows.now.rooms.now) turn.now result }
{
    let middle = first_above(lanes, turn.y);
    let mut low = skip_down(lanes, rows, turn, middle);
    let mut high = skip_up(lanes, rows, turn, middle);
    let mut found: Option<Found> = None;
    'outwards: while low > 0 || high < lanes.len() {
        let below = gap_below(lanes, low, turn.y);
        let above = gap_above(lanes, high, turn.y);
        if is_cheaper(&found, below.min(above)) {
            return found;
        }
        if low > 0 && below <= above {
            found = better(rows, turn, found, lanes[low - 1].segment);
            low = skip_down(lanes, rows, turn, low - 1);
        } else {
            found = better(rows, turn, found, lanes[high].segment);
            high = skip_up(lanes, rows, turn, high + 1);
        }
    }
    found
}

/// Where the lanes below this one end that have no room for a cell.
fn skip_down(lanes: &[Lane], rows: &Rows<'_>, turn: &Turn, low: usize) -> usize
    requires lanes { AreLanes rows.now.segments.now lanes.now }
    requires rooms { AreRooms rows.now.segments.now rows.now.rooms.now }
    requires within { low ≤ length lanes.now }
    ensures down { result ≤ low }
    ensures none { AreFull lanes.now rows.now.rooms.now turn.now result low }
{
    let mut at = low;
    while at > 0 && rows.rooms[lanes[at - 1].segment] < turn.sites.0 {
        at -= 1;
    }
    at
}

/// Where the lanes from this one on end that have no room for a cell.
fn skip_up(lanes: &[Lane], rows: &Rows<'_>, turn: &Turn, high: usize) -> usize
    requires lanes { AreLanes rows.now.segments.now lanes.now }
    requires rooms { AreRooms rows.now.segments.now rows.now.rooms.now }
    requires within { high ≤ length lanes.now }
    ensures up { high ≤ result }
    ensures within { result ≤ length lanes.now }
    ensures none { AreFull lanes.now rows.now.rooms.now turn.now high result }
{
    let mut at = high;
    while at < lanes.len() && rows.rooms[lanes[at].segment] < turn.sites.0 {
        at += 1;
    }
    at
}

/// The first lane whose y isn't below this one.
fn first_above(lanes: &[Lane], y: i64) -> usize
    requires { AreInOrder lanes.now }
    ensures within { result ≤ length lanes.now }
    ensures below { (k : ℕ) → k < result → (lane_at lanes.now k).y <ℤ y }
    ensures above { (k : ℕ) → result ≤ k → k < length lanes.now → y ≤ℤ (lane_at lanes.now k).y }
{
    lanes.partition_point(|lane| lane.y < y)
}

/// How far the lane below this one is from y, and the greatest number where there is none.
fn gap_below(lanes: &[Lane], low: usize, y: i64) -> u64
    requires { low ≤ length lanes.now }
    ensures none { low ≡ 0 → result ≡ 2 ^ 64 - 1 }
    ensures gap { 0 < low → result ≡ unsigned_abs ((lane_at lanes.now (low - 1)).y -ℤ y) }
{
    if low == 0 {
        u64::MAX
    } else {
        lanes[low - 1].y.abs_diff(y)
    }
}

/// How far this lane is from y, and the greatest number where there is none.
fn gap_above(lanes: &[Lane], high: usize, y: i64) -> u64
    ensures none { length lanes.now ≤ high → result ≡ 2 ^ 64 - 1 }
    ensures gap { high < length lanes.now → result ≡ unsigned_abs ((lane_at lanes.now high).y -ℤ y) }
{
    if high < lanes.len() {
        lanes[high].y.abs_diff(y)
    } else {
        u64::MAX
    }
}

/// Whether what was found costs less than this.
fn is_cheaper(found: &Option<Found>, cost: u64) -> bool
    ensures { IsTrue result ↔ IsSomeAnd found.now (λ best. best.cost < cost) }
{
    match found {
        Some(best) => best.cost < cost,
        None => false,
    }
}
