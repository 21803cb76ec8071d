//! Changed files of the design of one cell, each with its line.

use crate::changes::{FaultyDesign, FaultyText, check_designs, check_texts};
use book_outer::{Calls, Files, MemFolder, OpenGate};
use proud_top::{DesignFault, FileKind, Refusal, Status, TextKind};
use run_cases::{A, MIDDLE_REPORT, ONE_CELL, OUTPUT, Texts, end_of, placed, sink_of};
use std::test::Fail;

const BAD_TEXTS: &[FaultyText] = &[
    (
        (
            ONE_CELL,
            FileKind::Aux,
            b"RowBasedPlacement : a.nodes a.nets a.pl a.scl\n",
            b"",
        ),
        1,
        TextKind::BadHeader,
        b"proud: aux:1: bad header\n",
    ),
    (
        (ONE_CELL, FileKind::Aux, b"a.scl", b"a.scl a.route"),
        1,
        TextKind::BadLine,
        b"proud: aux:1: bad line\n",
    ),
    (
        (ONE_CELL, FileKind::Aux, b" a.scl", b""),
        1,
        TextKind::BadLine,
        b"proud: aux:1: bad line\n",
    ),
    // a byte order mark
    (
        (ONE_CELL, FileKind::Nodes, b"UCLA", b"\xef\xbb\xbfUCLA"),
        1,
        TextKind::BadHeader,
        b"proud: nodes:1: bad header\n",
    ),
    (
        (ONE_CELL, FileKind::Nodes, b"3\n", b"99999999999999999999\n"),
        2,
        TextKind::BadNumber,
        b"proud: nodes:2: bad number\n",
    ),
    (
        (ONE_CELL, FileKind::Nodes, b"a 2 10", b"a -2 10"),
        4,
        TextKind::BadNumber,
        b"proud: nodes:4: bad number\n",
    ),
    (
        (ONE_CELL, FileKind::Nets, b"2 n0", b"3 n0"),
        7,
        TextKind::CountMismatch { told: 3, found: 2 },
        b"proud: nets:7: count 3 but 2\n",
    ),
    (
        (ONE_CELL, FileKind::Nets, b"2 n0", b"1 n0"),
        6,
        TextKind::CountMismatch { told: 1, found: 2 },
        b"proud: nets:6: count 1 but 2\n",
    ),
    (
        (ONE_CELL, FileKind::Pl, b"/FIXED\n", b"/FIXED x\n"),
        3,
        TextKind::BadLine,
        b"proud: pl:3: bad line\n",
    ),
    (
        (ONE_CELL, FileKind::Pl, b"r 10 5", b"r 1e7 5"),
        4,
        TextKind::BadNumber,
        b"proud: pl:4: bad number\n",
    ),
    (
        (ONE_CELL, FileKind::Scl, b"Height : 10", b"Height : 0"),
        5,
        TextKind::BadNumber,
        b"proud: scl:5: bad number\n",
    ),
    // the last block has no end
    (
        (ONE_CELL, FileKind::Scl, b"End\n", b""),
        9,
        TextKind::BadLine,
        b"proud: scl:9: bad line\n",
    ),
];

const BAD_ROWS: &[FaultyDesign] = &[
    (
        (ONE_CELL, FileKind::Scl, b"Sites : 10", b"Sites : 0"),
        DesignFault::NoRows,
        b"proud: no rows\n",
    ),
    // the row ends past 1,000,000 units
    (
        (ONE_CELL, FileKind::Scl, b"Sites : 10", b"Sites : 2000000"),
        DesignFault::Limit { kind: 6, number: 0 },
        b"proud: limit 6 0\n",
    ),
    (
        (ONE_CELL, FileKind::Scl, b"Sites : 10", b"Sites : 20000000"),
        DesignFault::Limit {
            kind: 4,
            number: 20_000_000,
        },
        b"proud: limit 4 20000000\n",
    ),
];

#[test]
fn bad_files_are_refused_with_their_line(rt: HostRuntime) -> Result<(), Fail> {
    check_texts(&rt, rt.alloc(), BAD_TEXTS)?;
    check_designs(&rt, rt.alloc(), BAD_ROWS)?;
    Ok(())
}

/// The cell's name is one byte that no text in UTF-8 has.
const ONE_BYTE: Texts = Texts {
    nodes: b"UCLA nodes 1.0\nNumNodes : 3\nNumTerminals : 2\n\
        \xff 2 10\nl 0 0 terminal\nr 0 0 terminal\n",
    nets: b"UCLA nets 1.0\nNumNets : 2\nNumPins : 4\n\
        NetDegree : 2 n0\nl B\n\xff B\nNetDegree : 2 n1\n\xff B\nr B\n",
    pl: b"UCLA pl 1.0\n\xff 0 0 : N\nl 0 5 : N /FIXED\nr 10 5 : N /FIXED\n",
    ..ONE_CELL
};

#[test]
fn names_may_be_any_bytes(rt: HostRuntime) -> Result<(), Fail> {
    let file: &'static [u8] = b"UCLA pl 1.0\n\xff 4 0 : N\nl 0 5 : N /FIXED\nr 10 5 : N /FIXED\n";
    Ok(placed(ONE_BYTE, file, MIDDLE_REPORT).check(&rt, rt.alloc())?)
}

/// The aux file has one blank more than a file may have bytes.
#[test]
fn a_file_may_be_too_long(rt: HostRuntime) -> Result<(), Fail> {
    let alloc = rt.alloc();
    let mut files = Files::new(alloc);
    files.push("a.aux", &vec![in alloc; 32; 268_435_457]?)?;
    let folder = MemFolder::new(files, Calls::new(alloc));
    let end = end_of(&rt, alloc, A, folder, sink_of(alloc, 0)?, &OpenGate)?;
    assert_eq!(rt;
        end.status,
        Status::Refused(Refusal::TooLong(FileKind::Aux))
    );
    assert!(rt; end.report.written() == b"proud: aux: longer than 268435456 bytes\n".as_slice());
    assert!(rt; end.folder.file(OUTPUT).is_none());
    Ok(())
}
