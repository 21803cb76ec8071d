ghost use Rattle.std.specs.Prelude.{MatchResult};
ghost use Rattle.row_space.specs.Ends.{AreGoodSegments};
ghost use Rattle.row_legal.specs.Cells.{cells_of};
ghost use Rattle.row_legal.specs.Ranges.{AreGoodCells};
ghost use Rattle.row_legal.specs.Places.{IsLegalised};
ghost use Rattle.row_legal.specs.Answers.{IsRefusal};

use crate::fault::LegalError;
use crate::greedy::greedy_choices;
use crate::parts::Wish;
use crate::placing::place_all;
use crate::sites::Sites;
use row_space::Segments;
use std::alloc::Global;

/// The places of cells by the greedy rule, one for each, or the first cell that is taken for which no segment has the room.
///
/// `sites` says how many sites each cell takes, from 1 to `MOST_CELL_SITES`, and `wishes` where it wishes its lower left
/// corner, in Bookshelf millionths, at most `MOST_WISH` from 0; there are at most `MOST_CELLS` cells. Want of memory may
/// come at any time.
pub fn legalise(
    alloc: Global,
    segments: &Segments,
    sites: &[u64],
    wishes: &[Wish],
) -> Result<Sites, LegalError>
    requires cells { AreGoodCells (cells_of sites.now wishes.now) }
    requires rows { AreGoodSegments segments.now.pitch segments.now.segments }
    ensures answer { MatchResult result
        (IsLegalised segments.now (cells_of sites.now wishes.now))
        (IsRefusal segments.now (cells_of sites.now wishes.now)) }
{
    let choices = greedy_choices(alloc, segments, sites, wishes)?;
    let places = place_all(alloc, segments.as_slice(), segments.pitch(), &choices)?;
    Ok(Sites::new(places))
}
