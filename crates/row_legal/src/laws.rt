//! Laws of the definitions: what holds of all segments, cells and places. Each is the contract of a function that does nothing.

ghost use Rattle.std.specs.Prelude.{List};
ghost use Rattle.book_design.specs.Values.{DesignValue};
ghost use Rattle.book_design.specs.WellFormed.{IsDesign};
ghost use Rattle.row_space.specs.Values.{SegmentsValue};
ghost use Rattle.row_space.specs.Runs.{segments_of};
ghost use Rattle.row_legal.specs.declared.parts.Place.{Place};
ghost use Rattle.row_legal.specs.Cells.{CellsValue};
ghost use Rattle.row_legal.specs.Ranges.{AreGoodCells};
ghost use Rattle.row_legal.specs.Places.{IsLegalised};
ghost use Rattle.row_legal.specs.Apart.{AreApart};
ghost use Rattle.row_legal.specs.Legal.{IsLegal};
ghost use Rattle.row_legal.specs.Spots.{AreSitesOf, spots_of};
ghost use Rattle.row_legal.specs.OneAnswer.{HasAnswer, HasOneAnswerAtMost};

use row_space::clear_segments;

/// The places of the greedy rule lie in their segments, from their first sites on, and no two have a site in common.
pub fn places_apart()
    ensures apart { (rows : SegmentsValue) (cells : CellsValue) (places : List Place) → IsLegalised rows cells places → AreApart rows cells places }
{}

/// Places that lie apart in the segments of a design are legal.
pub fn places_legal()
    ensures legal { (design : DesignValue) (cells : CellsValue) (places : List Place) → IsDesign design → AreSitesOf design cells.sites
        → AreApart (segments_of design) cells places → IsLegal design (spots_of (segments_of design) places) }
{
    clear_segments();
}

/// The greedy rule has one answer at most, places of all cells or a cell without room, and never both. Where the cells are good it
/// has one: without segments, a cell of no site would have neither.
pub fn one_answer()
    ensures one { (rows : SegmentsValue) (cells : CellsValue) → HasOneAnswerAtMost rows cells }
    ensures there { (rows : SegmentsValue) (cells : CellsValue) → AreGoodCells cells → HasAnswer rows cells }
{}
