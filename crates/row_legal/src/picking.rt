//! The greedy rule: each cell in turn goes to the nearest segment with room for it.

ghost use Rattle.std.specs.Prelude.{◌≡◌, length, map, IfOk, MatchResult};
ghost use Rattle.row_space.specs.Ends.{AreGoodSegments};
ghost use Rattle.row_legal.specs.Forms.Turns.{AreGoodTurns};
ghost use Rattle.row_legal.specs.Forms.Choices.{AreChosen, IsStop, IsNoRoom};

use crate::fault::LegalError;
use crate::found::Rows;
use crate::lanes::{lanes, nearest};
use crate::turns::Turn;
use row_space::Segment;
use std::alloc::{AllocError, Global};

/// A cell with the segment that it goes to. Where it wishes its left edge, its number, and how many sites it takes. Choices
/// are in the order of their fields: those of a segment from left to right.
#[derive(Clone, Copy, Debug, PartialEq, Eq, PartialOrd, Ord)]
pub(crate) struct Choice {
    pub x: i64,
    pub cell: u32,
    pub segment: usize,
    pub sites: u64,
}

/// The choices of the cells, each in its turn, or the first cell for which no segment has the room.
pub(crate) fn choose_all(
    alloc: Global,
    segments: &[Segment],
    pitch: i64,
    turns: &[Turn],
) -> Result<Vec<Choice>, LegalError>
    requires good { AreGoodSegments pitch segments.now }
    requires turns { AreGoodTurns turns.now }
    ensures { MatchResult result
        (λ choices. AreChosen pitch segments.now turns.now choices.items × (length choices.items ≡ length turns.now))
        (IsStop pitch segments.now turns.now) }
{
    let mut rooms = full_rooms(alloc, segments)?;
    let lanes = lanes(alloc, segments)?;
    let mut choices = Vec::with_capacity(alloc, turns.len())?;
    for turn in turns {
        let rows = Rows {
            segments,
            pitch,
            rooms: &rooms,
        };
        let Some(segment) = nearest(&lanes, &rows, turn) else {
            return Err(no_room(turn, &rooms));
        };
        rooms[segment] -= turn.sites.0;
        choices.push(Choice {
            x: turn.x,
            cell: turn.cell,
            segment,
            sites: turn.sites.0,
        })?;
    }
    Ok(choices)
}

/// The room of each segment before any cell is taken.
fn full_rooms(alloc: Global, segments: &[Segment]) -> Result<Vec<u64>, AllocError>
    ensures { IfOk result (λ rooms. rooms.items ≡ map (λ segment. segment.sites) segments.now) }
{
    segments
        .iter()
        .map(|segment| u64::from(segment.sites))
        .collect(alloc)
}

/// That no segment has room for this cell.
fn no_room(turn: &Turn, rooms: &[u64]) -> LegalError
    ensures { IsNoRoom turn.now rooms.now result }
{
    LegalError::NoRoom {
        cell: turn.cell,
        sites: turn.sites.0,
        largest: rooms.iter().copied().max().unwrap_or(0),
    }
}
