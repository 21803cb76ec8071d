//! What a cell costs in a segment.

ghost use Rattle.std.specs.Prelude.{◌≡◌, ◌≤◌, ◌^◌, ◌*◌, pos, ◌≤ℤ◌};
ghost use Rattle.row_space.specs.Ends.{IsGoodSegment};
ghost use Rattle.row_legal.specs.Forms.Turns.{IsGoodTurn};
ghost use Rattle.row_legal.specs.Cost.{cost_of, last_left};

use crate::turns::Turn;
use row_space::Segment;

/// How far a cell's wish is from the row's y, plus how far it is from where its left edge may stand in a segment.
pub(crate) fn cost(segment: &Segment, pitch: i64, turn: &Turn) -> u64
    requires segment { IsGoodSegment pitch segment.now }
    requires turn { IsGoodTurn turn.now }
    requires long { turn.now.sites.0 ≤ segment.now.sites }
    ensures cost { result ≡ cost_of pitch segment.now turn.now.sites.0 turn.now.x turn.now.y }
    ensures small { result ≤ 8 * 10 ^ 12 }
{
    let last = last_left(segment, pitch, turn.sites.0);
    turn.y.abs_diff(segment.y) + turn.x.abs_diff(turn.x.clamp(segment.x, last))
}

/// Where a cell of so many sites stands at the right end of a segment.
fn last_left(segment: &Segment, pitch: i64, sites: u64) -> i64
    requires segment { IsGoodSegment pitch segment.now }
    requires long { sites ≤ segment.now.sites }
    ensures last { result ≡ last_left pitch segment.now sites }
    ensures from { segment.now.x ≤ℤ result }
    ensures up_to { result ≤ℤ pos (10 ^ 12) }
{
    let free = u64::from(segment.sites) - sites;
    segment.x + free as i64 * pitch
}
