//! A law of segments.

ghost use Rattle.book_design.specs.Values.{DesignValue};
ghost use Rattle.book_design.specs.WellFormed.{IsDesign};
ghost use Rattle.row_space.specs.Clear.{AreClear};

/// A law: no fixed node that forbids overlap shares area with a segment of a design, no two segments do, and none could be longer.
pub fn clear_segments()
    ensures clear { (design : DesignValue) → IsDesign design → AreClear design }
{}
