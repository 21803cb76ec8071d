//! The runs of free sites.

ghost use Rattle.std.specs.Prelude.{◌≡◌, ◌<◌, ◌+◌, length, IfOk, OnOk};
ghost use Rattle.book_design.specs.WellFormed.{IsDesign, subrow_at};
ghost use Rattle.row_space.specs.Ends.{AreGoodSegments};
ghost use Rattle.row_space.specs.Runs.{segments_of, segments_in};
ghost use Rattle.row_space.specs.Forms.Marks.{AreMarks, AreSorted, Parts};
ghost use Rattle.row_space.specs.Forms.Sweep.{Adds, with_run, IsGoodRun};

use crate::list::Segments;
use crate::marks::{Mark, marks};
use crate::parts::Segment;
use book_design::{Design, Subrow};
use book_text::Memory;
use std::alloc::Global;

/// The segments of a design: the maximal runs of free sites, in the order of subrows, then from left to right.
///
/// The time is that of sorting the subrows and what the fixed nodes take of them, and of two searches among the subrows for
/// each y of subrows that a fixed node meets.
pub fn segments(alloc: Global, design: &Design<'_>) -> Result<Segments, Memory>
    ensures segments { IfOk result (λ segments. segments ≡ segments_of design.now) }
    ensures good { IfOk result (λ segments. AreGoodSegments segments.pitch segments.segments) }
{
    let marks = marks(alloc, design)?;
    let mut found = Segments::new(alloc, design.pitch());
    let mut at = 0;
    for (number, subrow) in design.subrows().iter().enumerate() {
        at = add_runs(design, &marks, subrow, number, at, &mut found)?;
    }
    Ok(found)
}

/// Adds the runs of the subrow of that number, whose marks begin at this place, and answers where they end.
fn add_runs(
    design: &Design<'_>,
    marks: &[Mark],
    subrow: &Subrow,
    number: usize,
    begin: usize,
    found: &mut Segments,
) -> Result<usize, Memory>
    requires valid { IsDesign design.now }
    requires there { number < length design.now.subrows }
    requires subrow { subrow.now ≡ subrow_at design.now.subrows number }
    requires marks { AreMarks design.now (length design.now.nodes) marks.now }
    requires sorted { AreSorted marks.now }
    requires parts { Parts marks.now number begin }
    requires pitch { found.old.pitch ≡ design.now.pitch }
    ensures parts { IfOk result (λ at. Parts marks.now (number + 1) at) }
    ensures added { OnOk result (Adds found.old found.new (segments_in design.now subrow.now)) }
{
    let mut from = 0;
    let mut at = begin;
    'marks: while at < marks.len() && marks[at].subrow == number {
        add_run(design, subrow, from, marks[at].first, found)?;
        from = marks[at].end.max(from);
        at += 1;
    }
    add_run(design, subrow, from, u64::from(subrow.sites), found)?;
    Ok(at)
}

/// Adds the sites from one up to another, where there are any.
fn add_run(
    design: &Design<'_>,
    subrow: &Subrow,
    from: u64,
    end: u64,
    found: &mut Segments,
) -> Result<(), Memory>
    requires good { IsGoodRun design.now subrow.now end }
    ensures { OnOk result (found.new ≡ with_run design.now subrow.now from end found.old) }
{
    if from < end {
        found.push(Segment {
            x: subrow.x + from as i64 * design.pitch(),
            y: subrow.y,
            sites: (end - from) as u32,
        })?;
    }
    Ok(())
}
