//! How runs end: placed, refused, or with a fault of the outside. All expected texts were worked out by hand.

ghost use Rattle.std.specs.Prelude.{IfOk};
ghost use Rattle.book_outer.specs.Files.{AreNamesDistinct};

use crate::words::USAGE;
use book_outer::{Calls, Files, MemFolder, OpenGate};
use book_text::Memory;
use proud_top::{DesignFault, FileKind, Refusal, Status};
use run_cases::{
    A, Case, DONE, MIDDLE, MIDDLE_REPORT, NO_CELL, ONE_CELL, Run, SPELT_ANEW, THREE_PADS,
    TWO_CELLS, Texts, USUAL, WEIGHTED, check_all, check_runs, end_of, sink_of,
};
use std::alloc::Global;
use std::test::Fail;

const PLACED: &[Run] = &[
    (A, ONE_CELL, MIDDLE, MIDDLE_REPORT),
    (
        A,
        SPELT_ANEW,
        MIDDLE,
        b"cells 1 terminals 2 nets 2 pins 4\nlevels 4 gap 0\nwire 10.5\n",
    ),
    (
        A,
        THREE_PADS,
        b"UCLA pl 1.0\na 2 0 : N\nl 0 5 : N /FIXED\nr 10 5 : N /FIXED\nm 0 5 : N /FIXED\n",
        b"cells 1 terminals 3 nets 3 pins 6\nlevels 4 gap 1\nwire 13\n",
    ),
    (
        A,
        TWO_CELLS,
        b"UCLA pl 1.0\na 2 0 : N\nb 7 0 : N\nl 0 5 : N /FIXED\nr 10 5 : N /FIXED\n",
        b"cells 2 terminals 2 nets 3 pins 6\nlevels 4 gap 2\nwire 10\n",
    ),
    // the macro m leaves 14 sites of the rows at 0 and at 12, so v has its wish in the row at 24
    (
        A,
        USUAL,
        b"UCLA pl 1.0\nu 6 12 : N\nv 14 24 : N\nm 14 0 : N /FIXED\ni -1 18 : N /FIXED\nq 20 30 : N /FIXED\n",
        b"cells 2 terminals 3 nets 3 pins 7\nlevels 4 gap 1\nwire 37.5\n",
    ),
    (
        A,
        NO_CELL,
        b"UCLA pl 1.0\np 3 4 : N /FIXED\n",
        b"cells 0 terminals 1 nets 0 pins 0\nlevels 4 gap 0\nwire 0\n",
    ),
    // the terminal l stands beside the core: it is clamped to the core's left end, and stays where it is
    (
        A,
        Texts {
            pl: b"UCLA pl 1.0\na 0 0 : N\nl -50 5 : N /FIXED\nr 10 5 : N /FIXED\n",
            ..ONE_CELL
        },
        b"UCLA pl 1.0\na 4 0 : N\nl -50 5 : N /FIXED\nr 10 5 : N /FIXED\n",
        b"cells 1 terminals 2 nets 2 pins 4\nlevels 4 gap 0\nwire 60\n",
    ),
    // the wish lies in the middle of two sites, and the cell has an orientation of its own
    (
        A,
        Texts {
            nets: b"UCLA nets 1.0\nNumNets : 2\nNumPins : 4\n\
                NetDegree : 2 n0\nl B : 1 0\na B\nNetDegree : 2 n1\na B\nr B\n",
            pl: b"UCLA pl 1.0\na 0 0 : FS\nl 0 5 : N /FIXED\nr 10 5 : N /FIXED\n",
            ..ONE_CELL
        },
        b"UCLA pl 1.0\na 5 0 : FS\nl 0 5 : N /FIXED\nr 10 5 : N /FIXED\n",
        b"cells 1 terminals 2 nets 2 pins 4\nlevels 4 gap 0\nwire 9\n",
    ),
    (
        A,
        Texts {
            wts: b"UCLA wts 1.0\nn0 65535\n",
            ..WEIGHTED
        },
        b"UCLA pl 1.0\na 0 0 : N\nl 0 5 : N /FIXED\nr 10 5 : N /FIXED\n",
        b"cells 1 terminals 2 nets 2 pins 4\nlevels 4 gap 1\nwire 10\n",
    ),
    // a name of weights that no net has is without effect
    (
        A,
        Texts {
            wts: b"UCLA wts 1.0\nn7 3\n",
            ..WEIGHTED
        },
        MIDDLE,
        MIDDLE_REPORT,
    ),
];

#[test]
fn designs_are_placed(rt: HostRuntime) -> Result<(), Fail> {
    check_runs(&rt, rt.alloc(), PLACED)?;
    assert_eq!(rt; Status::Done.code(), 0);
    Ok(())
}

/// A run without a word behind the program's name.
pub(crate) const NO_WORDS: Case = Case {
    words: &["proud"],
    status: Status::Usage,
    file: None,
    report: USAGE,
    ..DONE
};

/// A run on a cell that is taller than a row.
pub(crate) const TALL_CELL: Case = Case {
    texts: Texts {
        nodes: b"UCLA nodes 1.0\nNumNodes : 3\na 2 11\nl 0 0 terminal\nr 0 0 terminal\n",
        ..ONE_CELL
    },
    status: Status::Refused(Refusal::Design(DesignFault::TallCell { node: 0 })),
    file: None,
    report: b"proud: node a: taller than a row\n",
    ..DONE
};

/// A run in which the file of the nodes can't be begun.
const NO_NODES: Case = Case {
    call: 4,
    status: Status::ReadFault(FileKind::Nodes),
    file: None,
    report: b"proud: cannot read nodes\n",
    ..DONE
};

/// A run in which the report can't be put.
const NO_REPORT: Case = Case {
    put: 1,
    status: Status::WriteFault,
    report: b"",
    ..DONE
};

/// A run that ends with a status, and the exit status.
const OTHERS: &[(Case, u8)] = &[
    (NO_WORDS, 1),
    (
        Case {
            words: &["proud", "a.aux", "a.aux"],
            ..NO_WORDS
        },
        1,
    ),
    (
        Case {
            words: &[],
            ..NO_WORDS
        },
        1,
    ),
    // nothing is read where the words have another form
    (
        Case {
            call: 1,
            ..NO_WORDS
        },
        1,
    ),
    (
        Case {
            put: 1,
            report: b"",
            ..NO_WORDS
        },
        1,
    ),
    (TALL_CELL, 2),
    (
        Case {
            put: 1,
            report: b"",
            ..TALL_CELL
        },
        2,
    ),
    // the folder's calls: begin, read and read of each of five files, and then create and put
    (NO_NODES, 3),
    (
        Case {
            call: 5,
            ..NO_NODES
        },
        3,
    ),
    (
        Case {
            call: 5,
            put: 1,
            report: b"",
            ..NO_NODES
        },
        3,
    ),
    (
        Case {
            call: 12,
            status: Status::ReadFault(FileKind::Pl),
            report: b"proud: cannot read pl\n",
            ..NO_NODES
        },
        3,
    ),
    (
        Case {
            call: 16,
            put: 0,
            file: None,
            ..NO_REPORT
        },
        4,
    ),
    (
        Case {
            call: 17,
            put: 0,
            file: Some(b""),
            ..NO_REPORT
        },
        4,
    ),
    (NO_REPORT, 4),
];

#[test]
fn other_statuses_are_answered(rt: HostRuntime) -> Result<(), Fail> {
    for (case, code) in OTHERS {
        case.check(&rt, rt.alloc())?;
        assert_eq!(rt; case.status.code(), *code);
    }
    Ok(())
}

/// The design's files in a folder below.
fn files_below(alloc: Global, texts: Texts<'_>) -> Result<Files, Memory>
    ensures { IfOk result AreNamesDistinct }
{
    let mut files = Files::new(alloc);
    files.push("d/a.aux", texts.aux)?;
    files.push("d/a.nodes", texts.nodes)?;
    files.push("d/a.nets", texts.nets)?;
    files.push("d/a.pl", texts.pl)?;
    files.push("d/a.scl", texts.scl)?;
    Ok(files)
}

#[test]
fn files_stand_beside_the_aux_file(rt: HostRuntime) -> Result<(), Fail> {
    let alloc = rt.alloc();
    let folder = MemFolder::new(files_below(alloc, ONE_CELL)?, Calls::new(alloc));
    let words = &["proud", "d/a.aux"];
    let end = end_of(&rt, alloc, words, folder, sink_of(alloc, 0)?, &OpenGate)?;
    assert_eq!(rt; end.status, Status::Done);
    assert!(rt; end.report.written() == MIDDLE_REPORT);
    assert!(rt; end.folder.file("d/a.proud.pl") == Some(MIDDLE));
    Ok(())
}

/// Designs whose aux file names a file that isn't there.
const ABSENT: &[Case] = &[
    Case {
        texts: Texts {
            aux: b"RowBasedPlacement : a.nodes a.nets b.pl a.scl\n",
            ..ONE_CELL
        },
        status: Status::ReadFault(FileKind::Pl),
        file: None,
        report: b"proud: cannot read pl\n",
        ..DONE
    },
    Case {
        texts: Texts {
            aux: b"RowBasedPlacement : a.nodes a.nets b.wts a.pl a.scl\n",
            ..USUAL
        },
        status: Status::ReadFault(FileKind::Wts),
        file: None,
        report: b"proud: cannot read wts\n",
        ..DONE
    },
];

#[test]
fn absent_files_are_named(rt: HostRuntime) -> Result<(), Fail> {
    check_all(&rt, rt.alloc(), ABSENT)?;
    assert_eq!(rt; Status::Memory.code(), 5);
    Ok(())
}
