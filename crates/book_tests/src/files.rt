//! Tests of the readers of files: texts with what they read as, and texts with their first faults.

mod nets;
mod rows;

use book_files::{
    Event, FileKind, NodeLine, Orient, PlaceLine, ReadError, TextFault, TextKind, WeightLine,
    read_aux, read_nets, read_nodes, read_pl, read_schedule, read_scl, read_wts,
};
use book_text::Micro;
use std::alloc::{AllocError, Global};
use std::test::Fail;

/// Why nothing was read, if it is a fault of the text.
fn fault_of<T: Drop>(read: Result<T, ReadError>) -> Option<TextFault> {
    match read {
        Err(ReadError::Fault(fault)) => Some(fault),
        _ => None,
    }
}

/// The first fault of a text of that kind, if it has one.
fn fault_in(alloc: Global, kind: FileKind, text: &[u8]) -> Option<TextFault> {
    match kind {
        FileKind::Aux => fault_of(read_aux(alloc, text)),
        FileKind::Nodes => fault_of(read_nodes(alloc, text)),
        FileKind::Nets => fault_of(read_nets(alloc, text)),
        FileKind::Wts => fault_of(read_wts(alloc, text)),
        FileKind::Pl => fault_of(read_pl(alloc, text)),
        FileKind::Scl => fault_of(read_scl(alloc, text)),
        FileKind::Schedule => fault_of(read_schedule(alloc, text)),
    }
}

fn is_same(found: &[u8], expected: &[u8]) -> bool {
    found == expected
}

/// A text, and the line and the kind of its first fault.
type Faulty = (&'static [u8], u64, TextKind);

/// Whether a node is fixed, and whether it allows overlap.
type Marked = (bool, bool);

const MOVABLE: Marked = (false, false);

const FIXED: Marked = (true, false);

const FIXED_NI: Marked = (true, true);

/// A node's line, name, width, height, and how it is marked.
type NodeRow = (u64, &'static [u8], i64, i64, Marked);

const NODES: &[(&[u8], &[NodeRow])] = &[
    (
        b"UCLA nodes 1.0\nNumNodes : 3\nNumTerminals : 2\na 2 10\nl 0 0 terminal\nr 0 0 terminal\n",
        &[
            (4, b"a", 2_000_000, 10_000_000, MOVABLE),
            (5, b"l", 0, 0, FIXED),
            (6, b"r", 0, 0, FIXED),
        ],
    ),
    (
        b"UCLA nodes 1.0\n# design B\n\nNumNodes : 5\nNumTerminals : 3\n\tu\t3\t12\n\tv\t5\t12\n\
            \tm\t6\t24\tterminal\n\ti\t1\t1\tterminal\n\tq\t1\t1\tterminal\n",
        &[
            (6, b"u", 3_000_000, 12_000_000, MOVABLE),
            (7, b"v", 5_000_000, 12_000_000, MOVABLE),
            (8, b"m", 6_000_000, 24_000_000, FIXED),
            (9, b"i", 1_000_000, 1_000_000, FIXED),
            (10, b"q", 1_000_000, 1_000_000, FIXED),
        ],
    ),
    (
        b"\r\n# by hand\r\nucla NODES 1.0 : on a Monday\r\n\r\n\ta  -0.0000001 1e1\r\n\
            NUMNODES: 4\r\nNumNodes 1 2\r\n : +.5 5. TERMINAL\r\n  # no node\r\n\
            b#1\t 1000000 2.5E-1",
        &[
            (5, b"a", 0, 10_000_000, MOVABLE),
            (7, b"NumNodes", 1_000_000, 2_000_000, MOVABLE),
            (8, b":", 500_000, 5_000_000, FIXED),
            (10, b"b#1", 1_000_000_000_000, 250_000, MOVABLE),
        ],
    ),
    (
        b"UCLA nodes 1.0\nNumNodes : 4\nl 0 0 terminal_NI\nm 6 24 terminal\n\
            n 6 24 TERMINAL_ni\nterminal_NI 2 10\n",
        &[
            (3, b"l", 0, 0, FIXED_NI),
            (4, b"m", 6_000_000, 24_000_000, FIXED),
            (5, b"n", 6_000_000, 24_000_000, FIXED_NI),
            (6, b"terminal_NI", 2_000_000, 10_000_000, MOVABLE),
        ],
    ),
    (b"UCLA nodes 1.0\nNumNodes : 0", &[]),
];

fn are_nodes(lines: &[NodeLine<'_>], rows: &[NodeRow]) -> bool {
    for (line, (number, name, width, height, marked)) in lines.iter().zip(rows) {
        let is_sized = (line.width, line.height) == (Micro(*width), Micro(*height));
        let is_marked = (line.fixed, line.overlap) == *marked && line.line == *number;
        if !(is_sized && is_marked && is_same(line.name.0, name)) {
            return false;
        }
    }
    lines.len() == rows.len()
}

#[test]
fn nodes_files_are_read(rt: HostRuntime) {
    for (text, nodes) in NODES {
        let file = read_nodes(rt.alloc(), text).expect(&rt, "a nodes file");
        assert!(rt; are_nodes(file.as_slice(), nodes), "{text:?}");
    }
}

const FAULTY_NODES: [Faulty; 32] = [
    (b"", 1, TextKind::BadHeader),
    (b"\n\r\n# nothing\n", 4, TextKind::BadHeader),
    (b"\nUCLA nets 1.0\n", 2, TextKind::BadHeader),
    (b"UCLA nodes 1.00\n", 1, TextKind::BadHeader),
    (b"UCLA nodes\n", 1, TextKind::BadHeader),
    (
        b"\xef\xbb\xbfUCLA nodes 1.0\nNumNodes : 0\n",
        1,
        TextKind::BadHeader,
    ),
    (b"NumNodes : 0\nUCLA nodes 1.0\n", 1, TextKind::BadHeader),
    (b"UCLA nodes 1.0\n", 2, TextKind::BadLine),
    (b"UCLA nodes 1.0\na 2 10\n\n# end\n", 5, TextKind::BadLine),
    (
        b"UCLA nodes 1.0\nNumNodes : 4\na 1 1\nb 1 1\nc 1 1\n",
        6,
        TextKind::CountMismatch { told: 4, found: 3 },
    ),
    (
        b"UCLA nodes 1.0\nNumNodes : 0\na 1 1\n\n\n",
        6,
        TextKind::CountMismatch { told: 0, found: 1 },
    ),
    (
        b"UCLA nodes 1.0\nNumNodes : 99999999999999999999\n",
        2,
        TextKind::BadNumber,
    ),
    (b"UCLA nodes 1.0\nNumNodes : 1.0\n", 2, TextKind::BadNumber),
    (b"UCLA nodes 1.0\nNumNodes :\n", 2, TextKind::BadLine),
    (b"UCLA nodes 1.0\nNumNodes : 1 2\n", 2, TextKind::BadLine),
    (
        b"UCLA nodes 1.0\nNumNodes : 1\nnumnodes : x\n",
        3,
        TextKind::BadLine,
    ),
    (
        b"UCLA nodes 1.0\nNumTerminals : x\n",
        2,
        TextKind::BadNumber,
    ),
    (
        b"UCLA nodes 1.0\nNumTerminals : 1\nNumTerminals : 1\n",
        3,
        TextKind::BadLine,
    ),
    (b"UCLA nodes 1.0\na\n", 2, TextKind::BadLine),
    (b"UCLA nodes 1.0\na 2\n", 2, TextKind::BadLine),
    (b"UCLA nodes 1.0\na 2 10 fixed\n", 2, TextKind::BadLine),
    (b"UCLA nodes 1.0\na 2 10 terminal_N\n", 2, TextKind::BadLine),
    (b"UCLA nodes 1.0\na 2 10 /FIXED_NI\n", 2, TextKind::BadLine),
    (b"UCLA nodes 1.0\na 2 10 terminal x\n", 2, TextKind::BadLine),
    (b"UCLA nodes 1.0\na x y terminal_N\n", 2, TextKind::BadLine),
    (
        b"UCLA nodes 1.0\na x y terminal_NI\n",
        2,
        TextKind::BadNumber,
    ),
    (b"UCLA nodes 1.0\na -2 10\n", 2, TextKind::BadNumber),
    (b"UCLA nodes 1.0\na 2 -0.000001\n", 2, TextKind::BadNumber),
    (b"UCLA nodes 1.0\na : 10\n", 2, TextKind::BadNumber),
    (
        b"UCLA nodes 1.0\na 2 1000000.000001\n",
        2,
        TextKind::BadNumber,
    ),
    (b"UCLA nodes 1.0\n\na 2 1O\na\n", 3, TextKind::BadNumber),
    (b"UCLA nodes 1.0\nUCLA nodes 1.0\n", 2, TextKind::BadNumber),
];

/// A weight's name and millionths.
type WeightRow = (&'static [u8], i64);

const WEIGHTS: &[(&[u8], &[WeightRow])] = &[
    (b"UCLA wts 1.0\nn0 2 7\n", &[(b"n0", 2_000_000)]),
    (b"UCLA wts 1.0\nn2 2\n", &[(b"n2", 2_000_000)]),
    (b"UCLA wts 1.0", &[]),
    (
        b"# weights\r\n\r\n\tUcla\tWts\t1.0\tof nets\r\n n1\t-1.5 # heavy\r\n\
            \t: .000001 : 3\r\n#n2\r\nn1 +2e0",
        &[(b"n1", -1_500_000), (b":", 1), (b"n1", 2_000_000)],
    ),
];

fn are_weights(lines: &[WeightLine<'_>], rows: &[WeightRow]) -> bool {
    for (line, (name, weight)) in lines.iter().zip(rows) {
        if !(line.weight == Micro(*weight) && is_same(line.name.0, name)) {
            return false;
        }
    }
    lines.len() == rows.len()
}

#[test]
fn weights_files_are_read(rt: HostRuntime) {
    for (text, weights) in WEIGHTS {
        let file = read_wts(rt.alloc(), text).expect(&rt, "a weights file");
        assert!(rt; are_weights(file.as_slice(), weights), "{text:?}");
    }
}

const FAULTY_WEIGHTS: [Faulty; 9] = [
    (b"", 1, TextKind::BadHeader),
    (b"# only\n\n", 3, TextKind::BadHeader),
    (b"UCLA nodes 1.0\n", 1, TextKind::BadHeader),
    (b"n0 2\nUCLA wts 1.0\n", 1, TextKind::BadHeader),
    (b"UCLA wts 1.0\nn0\n", 2, TextKind::BadLine),
    (b"UCLA wts 1.0\nn0 2\n\n#\nn1\nn2 x", 5, TextKind::BadLine),
    (b"UCLA wts 1.0\nn0 x 2\n", 2, TextKind::BadNumber),
    (
        b"UCLA wts 1.0\nn0 -1000000.000001\n",
        2,
        TextKind::BadNumber,
    ),
    (b"UCLA wts 1.0\nn0: 2\n", 2, TextKind::BadNumber),
];

/// A place's line, name, coordinates, orientation, and how it is marked.
type PlaceRow = (u64, &'static [u8], i64, i64, Orient, Marked);

const PLACES: &[(&[u8], &[PlaceRow])] = &[
    (
        b"UCLA pl 1.0\na 0 0 : N\nl 0 5 : N /FIXED\nr 10 5 : N /FIXED\n",
        &[
            (2, b"a", 0, 0, Orient::N, MOVABLE),
            (3, b"l", 0, 5_000_000, Orient::N, FIXED),
            (4, b"r", 10_000_000, 5_000_000, Orient::N, FIXED),
        ],
    ),
    (
        b"UCLA pl 1.0\nu\t0\t0\t: N\nv\t0\t0\t: N\nm\t14\t0\t: N /FIXED\n\
            i\t-1\t18\t: N /FIXED\nq\t20\t30\t: N /FIXED\n",
        &[
            (2, b"u", 0, 0, Orient::N, MOVABLE),
            (3, b"v", 0, 0, Orient::N, MOVABLE),
            (4, b"m", 14_000_000, 0, Orient::N, FIXED),
            (5, b"i", -1_000_000, 18_000_000, Orient::N, FIXED),
            (6, b"q", 20_000_000, 30_000_000, Orient::N, FIXED),
        ],
    ),
    (
        b"UCLA PL 1.0 by hand\r\n\r\na\t1.5\t-2\r\nb 3 4 /Fixed\r\n# a row\r\n\
            r 1e+01 5.000000 : n /fixed\r\nc 1 1: fs\r\n: 1 2 :W\r\nd 1 1 : e\nd 1 1 : S\n\
            d 1 1 : FN\nd 1 1 : Fe\nd 1 1 : fW",
        &[
            (3, b"a", 1_500_000, -2_000_000, Orient::N, MOVABLE),
            (4, b"b", 3_000_000, 4_000_000, Orient::N, FIXED),
            (6, b"r", 10_000_000, 5_000_000, Orient::N, FIXED),
            (7, b"c", 1_000_000, 1_000_000, Orient::FS, MOVABLE),
            (8, b":", 1_000_000, 2_000_000, Orient::W, MOVABLE),
            (9, b"d", 1_000_000, 1_000_000, Orient::E, MOVABLE),
            (10, b"d", 1_000_000, 1_000_000, Orient::S, MOVABLE),
            (11, b"d", 1_000_000, 1_000_000, Orient::FN, MOVABLE),
            (12, b"d", 1_000_000, 1_000_000, Orient::FE, MOVABLE),
            (13, b"d", 1_000_000, 1_000_000, Orient::FW, MOVABLE),
        ],
    ),
    (
        b"UCLA pl 1.0\nl 0 5 /FIXED_NI\nm 14 0 : FS /fixed_Ni\nn 6 0 /FIXED\n",
        &[
            (2, b"l", 0, 5_000_000, Orient::N, FIXED_NI),
            (3, b"m", 14_000_000, 0, Orient::FS, FIXED_NI),
            (4, b"n", 6_000_000, 0, Orient::N, FIXED),
        ],
    ),
];

fn are_places(lines: &[PlaceLine<'_>], rows: &[PlaceRow]) -> bool {
    for (line, (number, name, x, y, orient, marked)) in lines.iter().zip(rows) {
        let is_placed = (line.x, line.y, line.orient) == (Micro(*x), Micro(*y), *orient);
        let is_marked = (line.fixed, line.overlap) == *marked && line.line == *number;
        if !(is_placed && is_marked && is_same(line.name.0, name)) {
            return false;
        }
    }
    lines.len() == rows.len()
}

#[test]
fn placement_files_are_read(rt: HostRuntime) {
    for (text, places) in PLACES {
        let file = read_pl(rt.alloc(), text).expect(&rt, "a placement file");
        assert!(rt; are_places(file.as_slice(), places), "{text:?}");
    }
}

const FAULTY_PLACES: [Faulty; 22] = [
    (b"", 1, TextKind::BadHeader),
    (b"\n", 2, TextKind::BadHeader),
    (b"UCLA scl 1.0\n", 1, TextKind::BadHeader),
    (b"UCLA pl\n1.0\n", 1, TextKind::BadHeader),
    (b"UCLA pl 1.0\nl 0\n", 2, TextKind::BadLine),
    (b"UCLA pl 1.0\nl 0 5 : N /FIXED x\n", 2, TextKind::BadLine),
    (b"UCLA pl 1.0\nl 0 5 : N /FIXED_N\n", 2, TextKind::BadLine),
    (b"UCLA pl 1.0\nl 0 5 terminal_NI\n", 2, TextKind::BadLine),
    (b"UCLA pl 1.0\nl 0 5 :\n", 2, TextKind::BadLine),
    (b"UCLA pl 1.0\nl 0 5 N\n", 2, TextKind::BadLine),
    (b"UCLA pl 1.0\nl 0 5 N :\n", 2, TextKind::BadLine),
    (b"UCLA pl 1.0\nl 0 5 : X\n", 2, TextKind::BadLine),
    (b"UCLA pl 1.0\nl 0 5 : /FIXED\n", 2, TextKind::BadLine),
    (b"UCLA pl 1.0\nl 0 5 : /FIXED N\n", 2, TextKind::BadLine),
    (b"UCLA pl 1.0\nl 0 5 ; N /FIXED\n", 2, TextKind::BadLine),
    (b"UCLA pl 1.0\nl x y : X\n", 2, TextKind::BadLine),
    (b"UCLA pl 1.0\nl x y : N /FIXED_N\n", 2, TextKind::BadLine),
    (
        b"UCLA pl 1.0\nl x y : N /FIXED_NI\n",
        2,
        TextKind::BadNumber,
    ),
    (b"UCLA pl 1.0\nr 1e7 5 : N /FIXED\n", 2, TextKind::BadNumber),
    (b"UCLA pl 1.0\nl 0 : : N\n", 2, TextKind::BadNumber),
    (
        b"UCLA pl 1.0\n#\n\nl 0 5\nr 0 5. 5\nq\n",
        5,
        TextKind::BadLine,
    ),
    (
        b"UCLA pl 1.0\nl 0 5 : N\nr 0 -0x5 /fixed\n",
        3,
        TextKind::BadNumber,
    ),
];

/// The names of the nodes, nets, placement and rows files, and of the weights file.
type Names = ([&'static str; 4], Option<&'static str>);

const AUX: &[(&[u8], Names)] = &[
    (
        b"RowBasedPlacement : a.nodes a.nets a.pl a.scl\n",
        (["a.nodes", "a.nets", "a.pl", "a.scl"], None),
    ),
    (
        b"RowBasedPlacement : b.nodes b.nets b.wts b.pl b.scl\n",
        (["b.nodes", "b.nets", "b.pl", "b.scl"], Some("b.wts")),
    ),
    (
        b"\r\n# the files\r\nrowbasedPLACEMENT:\tchips/X.NODES .scl\tx.Wts b:x.pl \xc3\xa4.nEts\r\n\
            \r\n#",
        (
            ["chips/X.NODES", "\u{e4}.nEts", "b:x.pl", ".scl"],
            Some("x.Wts"),
        ),
    ),
];

#[test]
fn aux_files_are_read(rt: HostRuntime) {
    for (text, (names, wts)) in AUX {
        let file = read_aux(rt.alloc(), text).expect(&rt, "an aux file");
        let is_read = [file.nodes, file.nets, file.pl, file.scl] == *names && file.wts == *wts;
        assert!(rt; is_read, "{text:?}");
    }
}

const FAULTY_AUX: [Faulty; 16] = [
    (b"", 1, TextKind::BadHeader),
    (b"# nothing\n", 2, TextKind::BadHeader),
    (b"RowBasedPlacement\n", 1, TextKind::BadHeader),
    (
        b"RowBasedPlacement a.nodes a.nets a.pl a.scl\n",
        1,
        TextKind::BadHeader,
    ),
    (
        b"\nRowPlacement : a.nodes a.nets a.pl a.scl\n",
        2,
        TextKind::BadHeader,
    ),
    (b"RowBasedPlacement :\n", 1, TextKind::BadLine),
    (
        b"RowBasedPlacement : a.nodes a.nets a.pl a.scl a.route\n",
        1,
        TextKind::BadLine,
    ),
    (
        b"RowBasedPlacement : a.nodes a.nets a.pl\n",
        1,
        TextKind::BadLine,
    ),
    (
        b"RowBasedPlacement : a.nodes a.nets a.scl a.wts\n",
        1,
        TextKind::BadLine,
    ),
    (
        b"RowBasedPlacement : a.nodes a.pl a.scl a.wts\n",
        1,
        TextKind::BadLine,
    ),
    (
        b"RowBasedPlacement : a.nets a.pl a.scl a.wts\n",
        1,
        TextKind::BadLine,
    ),
    (
        b"RowBasedPlacement : a.nodes a.nets a.pl a.scl b.PL\n",
        1,
        TextKind::BadLine,
    ),
    (
        b"RowBasedPlacement : a.nodes a.nets a.wts a.pl a.scl a.wts\n",
        1,
        TextKind::BadLine,
    ),
    (
        b"RowBasedPlacement : a.nodes a.nets a.pl a.scl:\n",
        1,
        TextKind::BadLine,
    ),
    (
        b"RowBasedPlacement : \xe4.nodes a.nets a.pl a.scl\n",
        1,
        TextKind::BadLine,
    ),
    (
        b"RowBasedPlacement : a.nodes a.nets a.pl a.scl\n\n: a.wts\n",
        3,
        TextKind::BadLine,
    ),
];

const SCHEDULES: &[(&[u8], &[Event])] = &[
    (
        b"load 1 1\nrenew 0 1\n",
        &[
            Event::Load { seat: 1, point: 1 },
            Event::Renew { seat: 0, point: 1 },
        ],
    ),
    (
        b"\r\n# by hand\r\nLOAD 4294967295 0\r\n\r\n\tReNew\t7  4294967295\r\n  #renew 1 1\r\nload 007 00",
        &[
            Event::Load {
                seat: 4_294_967_295,
                point: 0,
            },
            Event::Renew {
                seat: 7,
                point: 4_294_967_295,
            },
            Event::Load { seat: 7, point: 0 },
        ],
    ),
    (b"", &[]),
    (b"\n# nothing\n", &[]),
];

#[test]
fn schedules_are_read(rt: HostRuntime) {
    for (text, events) in SCHEDULES {
        let found = read_schedule(rt.alloc(), text).expect(&rt, "a schedule");
        assert!(rt; found.as_slice() == *events, "{text:?}");
    }
}

const FAULTY_SCHEDULE: [Faulty; 15] = [
    (b"load 1", 1, TextKind::BadLine),
    (b"load 1 2 3", 1, TextKind::BadLine),
    (b"load x 1", 1, TextKind::BadLine),
    (b"load 1 x", 1, TextKind::BadLine),
    (b"load 1 4294967296", 1, TextKind::BadLine),
    (b"renew 4294967296 1", 1, TextKind::BadLine),
    (b"renew 1 18446744073709551616", 1, TextKind::BadLine),
    (b"store 1 1", 1, TextKind::BadLine),
    (b"loads 1 1", 1, TextKind::BadLine),
    (b"load -1 0", 1, TextKind::BadLine),
    (b"load 1.0 0", 1, TextKind::BadLine),
    (b"load : 1 0", 1, TextKind::BadLine),
    (b"UCLA schedule 1.0\n", 1, TextKind::BadLine),
    (b"load 1 1\nrenew 0\nload\n", 2, TextKind::BadLine),
    (b"# by hand\n\nrenew 0 1 # twice\n", 3, TextKind::BadLine),
];

/// The texts of each kind of file that have a fault.
const FAULTY: [(FileKind, &[Faulty]); 9] = [
    (FileKind::Aux, &FAULTY_AUX),
    (FileKind::Nodes, &FAULTY_NODES),
    (FileKind::Nets, &nets::FAULTY_STARTS),
    (FileKind::Nets, &nets::FAULTY_PINS),
    (FileKind::Nets, &nets::FAULTY_ENDS),
    (FileKind::Wts, &FAULTY_WEIGHTS),
    (FileKind::Pl, &FAULTY_PLACES),
    (FileKind::Scl, &rows::FAULTY_ROWS),
    (FileKind::Schedule, &FAULTY_SCHEDULE),
];

#[test]
fn faulty_files_have_first_faults(rt: HostRuntime) {
    for (file, texts) in FAULTY {
        for (text, line, kind) in texts {
            let (line, kind) = (*line, *kind);
            let fault = fault_in(rt.alloc(), file, text);
            assert!(rt;
                fault == Some(TextFault { line, kind }),
                "{file:?}: {text:?}"
            );
        }
    }
}

fn push_words(text: &mut Vec<u8>, word: &[u8]) -> Result<(), AllocError> {
    for _ in 0..97 {
        text.extend_from_slice(word)?;
    }
    Ok(())
}

#[test]
fn a_line_may_have_many_words(rt: HostRuntime) -> Result<(), Fail> {
    let mut text = b"UCLA wts 1.0".to_vec(rt.alloc())?;
    push_words(&mut text, b" word")?;
    text.extend_from_slice(b"\nn 2")?;
    push_words(&mut text, b" 1")?;
    let file = read_wts(rt.alloc(), &text).expect(&rt, "a weights file");
    assert!(rt; file.as_slice().len() == 1);
    Ok(())
}
