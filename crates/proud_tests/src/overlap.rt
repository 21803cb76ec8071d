//! Macros that others may overlap, and macros that forbid it: where a cell stands then, and how their places are written.

use proud_top::{FileKind, Refusal, Status};
use run_cases::{Case, DONE, ONE_CELL, Texts, Unmet, changed, check_all, placed};
use std::alloc::Global;
use std::test::Fail;
use std::thread::Threads;

/// The cell's wish is site 4, and the macro stands over the sites 3 to 5. One that forbids overlap leaves three sites and four.
const OVER: &[u8] =
    b"UCLA pl 1.0\na 4 0 : N\nl 0 5 : N /FIXED\nr 10 5 : N /FIXED\nm 3 0 : N /FIXED_NI\n";

const BESIDE: &[u8] =
    b"UCLA pl 1.0\na 6 0 : N\nl 0 5 : N /FIXED\nr 10 5 : N /FIXED\nm 3 0 : N /FIXED\n";

const REPORT: &[u8] = b"cells 1 terminals 3 nets 2 pins 4\nlevels 4 gap 0\nwire 10\n";

/// A cell of two sites, and a macro that allows overlap.
const MACRO: Texts = Texts {
    nodes: b"UCLA nodes 1.0\nNumNodes : 4\nNumTerminals : 3\n\
        a 2 10\nl 0 0 terminal\nr 0 0 terminal\nm 3 10 terminal_NI\n",
    pl: b"UCLA pl 1.0\na 0 0 : N\nl 0 5 : N /FIXED\nr 10 5 : N /FIXED\nm 3 0 : N /FIXED\n",
    ..ONE_CELL
};

/// A cell of all ten sites, and a macro that forbids overlap.
const WIDE: Texts = Texts {
    nodes: b"UCLA nodes 1.0\nNumNodes : 4\nNumTerminals : 3\n\
        a 10 10\nl 0 0 terminal\nr 0 0 terminal\nm 3 10 terminal\n",
    ..MACRO
};

const NO_SITES: &[Case] = &[
    Case {
        texts: MACRO,
        file: Some(OVER),
        report: REPORT,
        ..DONE
    },
    Case {
        texts: Texts {
            nodes: b"UCLA nodes 1.0\nNumNodes : 4\nNumTerminals : 3\n\
                a 10 10\nl 0 0 terminal\nr 0 0 terminal\nm 3 10 terminal_NI\n",
            ..MACRO
        },
        file: Some(
            b"UCLA pl 1.0\na 0 0 : N\nl 0 5 : N /FIXED\nr 10 5 : N /FIXED\nm 3 0 : N /FIXED_NI\n",
        ),
        report: REPORT,
        ..DONE
    },
    Case {
        texts: WIDE,
        status: Status::Refused(Refusal::NoRoom {
            cell: 0,
            sites: 10,
            largest: 4,
        }),
        file: None,
        report: b"proud: node a: no room for 10 sites, 4 left\n",
        ..DONE
    },
];

/// All ten sites stay in one segment, so that a cell may take them all.
#[test]
fn a_macro_that_allows_overlap_takes_no_sites(rt: HostRuntime) -> Result<(), Fail> {
    Ok(check_all(&rt, rt.alloc(), NO_SITES)?)
}

/// What stands behind the macro's size in `.nodes`, its lines in `.pl`, and where the nodes stand then.
type Mark = (&'static str, &'static str, &'static [u8]);

const MARKS: &[Mark] = &[
    ("terminal_NI", "m 3 0 : N\n", OVER),
    ("Terminal_ni", "m 3 0 : N\n", OVER),
    ("", "m 3 0 : N /FIXED_NI\n", OVER),
    ("", "m 3 0 /fixed_ni\n", OVER),
    ("terminal", "m 3 0 : N /FIXED_NI\n", OVER),
    ("terminal", "m 3 0 : N\n", BESIDE),
    ("", "m 3 0 : N /FIXED\n", BESIDE),
    // the last line counts
    ("", "m 3 0 : N /FIXED\nm 3 0 : N /FIXED_NI\n", OVER),
    (
        "terminal",
        "m 3 0 : N /FIXED_NI\nm 3 0 : N /FIXED\n",
        BESIDE,
    ),
    ("terminal", "m 3 0 : N /FIXED_NI\nm 3 0 : N\n", BESIDE),
    (
        "terminal_NI",
        "m 3 0 : N /FIXED_NI\nm 3 0 : N /FIXED\n",
        OVER,
    ),
];

/// Whether the nodes stand so under this mark.
fn check_mark<R: Threads + Sync>(rt: &R, alloc: Global, mark: Mark) -> Result<(), Unmet> {
    let (node, places, file) = mark;
    let nodes = changed(alloc, MACRO.nodes, b"terminal_NI", node.as_bytes())?;
    let pl = changed(alloc, MACRO.pl, b"m 3 0 : N /FIXED\n", places.as_bytes())?;
    let texts = Texts {
        nodes: nodes.as_slice(),
        pl: pl.as_slice(),
        ..MACRO
    };
    placed(MACRO, file, REPORT).on(texts).check(rt, alloc)
}

#[test]
fn marks_say_whether_a_macro_allows_overlap(rt: HostRuntime) -> Result<(), Fail> {
    for mark in MARKS {
        check_mark(&rt, rt.alloc(), *mark)?;
    }
    Ok(())
}

/// The cell is none then.
#[test]
fn a_cell_marked_as_terminal_ni_stays_where_it_is(rt: HostRuntime) -> Result<(), Fail> {
    let alloc = rt.alloc();
    let nodes = changed(alloc, ONE_CELL.nodes, b"a 2 10", b"a 2 10 terminal_NI")?;
    let texts = ONE_CELL.with(FileKind::Nodes, &nodes);
    let file = b"UCLA pl 1.0\na 0 0 : N /FIXED_NI\nl 0 5 : N /FIXED\nr 10 5 : N /FIXED\n";
    let report = b"cells 0 terminals 3 nets 2 pins 4\nlevels 4 gap 0\nwire 10\n";
    Ok(placed(texts, file, report).check(&rt, alloc)?)
}
