//! The best segment found so far.

ghost use Rattle.std.specs.Prelude.{◌≡◌, ◌<◌, ◌≤◌, ℕ, length, slice_index};
ghost use Rattle.row_space.specs.Values.{segment_at};
ghost use Rattle.row_space.specs.Ends.{IsGoodSegment, AreGoodSegments};
ghost use Rattle.row_legal.specs.Forms.Turns.{IsGoodTurn};
ghost use Rattle.row_legal.specs.Forms.Search.{Fits, IsFit, IsNoLater, cost_at, AreRooms};

use crate::cost::cost;
use crate::turns::Turn;
use row_space::Segment;

/// A segment with room for a cell, and what the cell costs there.
#[derive(Clone, Copy)]
pub(crate) struct Found {
    pub cost: u64,
    pub segment: usize,
}

/// Where a cell may go: the segments, the pitch, and the room left in each segment.
#[derive(Clone, Copy)]
pub(crate) struct Rows<'a> {
    pub segments: &'a [Segment],
    pub pitch: i64,
    pub rooms: &'a [u64],
}

/// The better one of what was found so far and one more segment, where that has room.
pub(crate) fn better(rows: &Rows<'_>, turn: &Turn, found: Option<Found>, s: usize) -> Option<Found>
    requires there { s < length rows.now.segments.now }
    requires good { AreGoodSegments rows.now.pitch rows.now.segments.now }
    requires rooms { AreRooms rows.now.segments.now rows.now.rooms.now }
    requires turn { IsGoodTurn turn.now }
    ensures fit { IsFit rows.now.pitch rows.now.segments.now (slice_index rows.now.rooms.now) turn.now found
        → IsFit rows.now.pitch rows.now.segments.now (slice_index rows.now.rooms.now) turn.now result }
    ensures kept { (cost t : ℕ) → IsNoLater found cost t → IsNoLater result cost t }
    ensures here { Fits rows.now.segments.now (slice_index rows.now.rooms.now) turn.now s
        → IsNoLater result (cost_at rows.now.pitch rows.now.segments.now turn.now s) s }
{
    if rows.rooms[s] < turn.sites.0 {
        return found;
    }
    let cost = cost(&rows.segments[s], rows.pitch, turn);
    if let Some(best) = found {
        if best.cost < cost || (best.cost == cost && best.segment <= s) {
            return found;
        }
    }
    Some(Found { cost, segment: s })
}
