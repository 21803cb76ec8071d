//! The greedy rule over segments and cells as a caller has them.

ghost use Rattle.std.specs.Prelude.{◌≡◌, map, All, MatchResult};
ghost use Rattle.row_legal.specs.Cells.{cells_of};
ghost use Rattle.row_space.specs.Ends.{AreGoodSegments};
ghost use Rattle.row_legal.specs.Ranges.{AreGoodCells};
ghost use Rattle.row_legal.specs.Greedy.{IsGreedy};
ghost use Rattle.row_legal.specs.Answers.{IsRefusal};
ghost use Rattle.row_legal.specs.Forms.Choices.{pick_of, IsOwn};

use crate::fault::LegalError;
use crate::parts::Wish;
use crate::picking::{Choice, choose_all};
use crate::turns::turns;
use row_space::Segments;
use std::alloc::Global;

/// The choices of all cells by the greedy rule, in the order in which cells are taken, or where the rule ends.
pub(crate) fn greedy_choices(
    alloc: Global,
    segments: &Segments,
    sites: &[u64],
    wishes: &[Wish],
) -> Result<Vec<Choice>, LegalError>
    requires cells { AreGoodCells (cells_of sites.now wishes.now) }
    requires rows { AreGoodSegments segments.now.pitch segments.now.segments }
    ensures { MatchResult result
        (λ choices. IsGreedy segments.now (cells_of sites.now wishes.now) (map pick_of choices.items)
        × All (IsOwn (cells_of sites.now wishes.now)) choices.items)
        (IsRefusal segments.now (cells_of sites.now wishes.now)) }
{
    let turns = turns(alloc, sites, wishes)?;
    choose_all(alloc, segments.as_slice(), segments.pitch(), &turns)
}
