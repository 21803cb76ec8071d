//! Grids in place of a design's files: the numbers of their reports, and one placement for each number of seats.

use book_outer::{Files, MemFolder, OpenGate};
use book_text::Memory;
use proud_top::Status;
use run_cases::{End, calls_of, end_of, sink_of};
use std::alloc::Global;
use std::process::Abort;
use std::test::Fail;
use std::thread::Threads;

/// A run by these words for a grid, with the schedule `s` in its folder, in which the call of that number fails.
pub(crate) fn end_on_grid<R: Threads + Abort + Sync>(
    rt: &R,
    alloc: Global,
    words: &[&str],
    schedule: &[u8],
    failing: u64,
) -> Result<End, Memory> {
    let mut files = Files::new(alloc);
    files.push("s", schedule)?;
    let folder = MemFolder::new(files, calls_of(alloc, failing)?);
    let end = end_of(rt, alloc, words, folder, sink_of(alloc, 0)?, &OpenGate)?;
    assert_eq!(rt; end.status, Status::Done);
    Ok(end)
}

/// Asserts that both runs placed the grid, with the same placement and report.
pub(crate) fn assert_same<R: Abort>(rt: &R, one: &End, other: &End) {
    let file = one.folder.file("grid.proud.pl");
    assert!(rt; file.is_some());
    assert!(rt; other.folder.file("grid.proud.pl") == file);
    assert!(rt; other.report.written() == one.report.written());
}

/// Words that ask for a grid, others that ask for the same one, and what its report begins with.
type Grid = (
    &'static [&'static str],
    &'static [&'static [&'static str]],
    &'static [u8],
);

const GRIDS: &[Grid] = &[
    (
        &["proud", "--grid", "1,1,0", "--seats", "1"],
        &[&["proud", "--grid", "1,1,0", "--seats", "2"]],
        b"cells 1 terminals 4 nets 4 pins 8\nlevels 4 gap ",
    ),
    (
        &["proud", "--grid", "2,3,1", "--seats", "1"],
        &[&["proud", "--grid", "2,3,1", "--seats", "4"]],
        b"cells 6 terminals 10 nets 17 pins 34\nlevels 4 gap ",
    ),
    (
        &["proud", "--grid", "12,12,5", "--seats", "1"],
        &[
            &["proud", "--grid", "12,12,5", "--seats", "7"],
            &["proud", "--grid", "12,12,5", "--seats", "64"],
        ],
        b"cells 144 terminals 48 nets 312 pins 624\nlevels 4 gap ",
    ),
    (
        &["proud", "--grid", "30,30,7", "--seats", "1"],
        &[&["proud", "--grid", "30,30,7", "--seats", "64"]],
        b"cells 900 terminals 120 nets 1860 pins 3720\nlevels 4 gap ",
    ),
];

/// The report begins so, and all of these words bring one placement and one report. The third of the folder's calls fails, so each
/// run makes and puts its file, and no more.
fn assert_once<R: Threads + Abort + Sync>(rt: &R, alloc: Global, grid: Grid) -> Result<(), Memory> {
    let (first, others, begin) = grid;
    let one = end_on_grid(rt, alloc, first, b"", 3)?;
    assert!(rt; one.report.written().starts_with(begin));
    for words in others {
        assert_same(rt, &one, &end_on_grid(rt, alloc, words, b"", 3)?);
    }
    Ok(())
}

#[test]
fn grids_are_placed_once_for_all_seats(rt: HostRuntime) -> Result<(), Fail> {
    for grid in GRIDS {
        assert_once(&rt, rt.alloc(), *grid)?;
    }
    Ok(())
}
