//! How often the regions are cut and each level is solved, and where the cells come to stand. All expected texts were worked out by hand.

use run_cases::{
    MIDDLE, MIDDLE_REPORT, NO_CELL, ONE_CELL, Run, THREE_PADS, TWO_CELLS, USUAL, check_runs,
};
use std::test::Fail;

/// Two cells at the places of the first level, and of the next.
const NEAR: &[u8] = b"UCLA pl 1.0\na 2 0 : N\nb 6 0 : N\nl 0 5 : N /FIXED\nr 10 5 : N /FIXED\n";

const APART: &[u8] = b"UCLA pl 1.0\na 2 0 : N\nb 7 0 : N\nl 0 5 : N /FIXED\nr 10 5 : N /FIXED\n";

/// The usual design at each level.
const ROWS: &[u8] = b"UCLA pl 1.0\nu 6 12 : N\nv 14 24 : N\n\
    m 14 0 : N /FIXED\ni -1 18 : N /FIXED\nq 20 30 : N /FIXED\n";

const RUNS: &[Run] = &[
    (
        &["proud", "--levels", "4", "a.aux"],
        ONE_CELL,
        MIDDLE,
        MIDDLE_REPORT,
    ),
    (
        &["proud", "--levels", "0", "a.aux"],
        THREE_PADS,
        b"UCLA pl 1.0\na 2 0 : N\nl 0 5 : N /FIXED\nr 10 5 : N /FIXED\nm 0 5 : N /FIXED\n",
        b"cells 1 terminals 3 nets 3 pins 6\nlevels 0 gap 1\nwire 13\n",
    ),
    (
        &["proud", "--levels", "0", "a.aux"],
        TWO_CELLS,
        NEAR,
        b"cells 2 terminals 2 nets 3 pins 6\nlevels 0 gap 2\nwire 10\n",
    ),
    (
        &["proud", "--levels", "0", "--seats", "7", "a.aux"],
        TWO_CELLS,
        NEAR,
        b"cells 2 terminals 2 nets 3 pins 6\nlevels 0 gap 2\nwire 10\n",
    ),
    // the cells are in two halves of the core, and the gap is that of the level before
    (
        &["proud", "--levels", "1", "a.aux"],
        TWO_CELLS,
        APART,
        b"cells 2 terminals 2 nets 3 pins 6\nlevels 1 gap 2\nwire 10\n",
    ),
    (
        &["proud", "--levels", "1", "--passes", "1", "a.aux"],
        TWO_CELLS,
        APART,
        b"cells 2 terminals 2 nets 3 pins 6\nlevels 1 gap 2\nwire 10\n",
    ),
    (
        &["proud", "--levels", "1", "--passes", "8", "a.aux"],
        TWO_CELLS,
        APART,
        b"cells 2 terminals 2 nets 3 pins 6\nlevels 1 gap 2\nwire 10\n",
    ),
    (
        &["proud", "--levels", "01", "--seats", "7", "a.aux"],
        TWO_CELLS,
        APART,
        b"cells 2 terminals 2 nets 3 pins 6\nlevels 1 gap 2\nwire 10\n",
    ),
    (
        &["proud", "--levels", "12", "a.aux"],
        ONE_CELL,
        MIDDLE,
        b"cells 1 terminals 2 nets 2 pins 4\nlevels 12 gap 0\nwire 10\n",
    ),
    (
        &["proud", "--levels", "12", "--seats", "1", "a.aux"],
        TWO_CELLS,
        APART,
        b"cells 2 terminals 2 nets 3 pins 6\nlevels 12 gap 2\nwire 10\n",
    ),
    (
        &["proud", "--levels", "0", "a.aux"],
        USUAL,
        ROWS,
        b"cells 2 terminals 3 nets 3 pins 7\nlevels 0 gap 1\nwire 37.5\n",
    ),
    (
        &["proud", "--levels", "1", "a.aux"],
        USUAL,
        ROWS,
        b"cells 2 terminals 3 nets 3 pins 7\nlevels 1 gap 1\nwire 37.5\n",
    ),
    (
        &["proud", "--levels", "2", "a.aux"],
        NO_CELL,
        b"UCLA pl 1.0\np 3 4 : N /FIXED\n",
        b"cells 0 terminals 1 nets 0 pins 0\nlevels 2 gap 0\nwire 0\n",
    ),
];

#[test]
fn levels_and_passes_may_be_asked_for(rt: HostRuntime) -> Result<(), Fail> {
    Ok(check_runs(&rt, rt.alloc(), RUNS)?)
}
