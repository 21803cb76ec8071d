use super::{Faulty, is_same};
use book_files::{Name, NetBlock, PinLine, TextKind, read_nets};
use book_text::Micro;

/// A pin's line, node and offset.
type PinRow = (u64, &'static [u8], i64, i64);

/// A net's name and pins.
type NetRow = (Option<&'static [u8]>, &'static [PinRow]);

const NETS: &[(&[u8], &[NetRow])] = &[
    (
        b"UCLA nets 1.0\nNumNets : 2\nNumPins : 4\nNetDegree : 2 n0\nl B\na B\n\
            NetDegree : 2 n1\na B\nr B\n",
        &[
            (Some(b"n0"), &[(5, b"l", 0, 0), (6, b"a", 0, 0)]),
            (Some(b"n1"), &[(8, b"a", 0, 0), (9, b"r", 0, 0)]),
        ],
    ),
    (
        b"UCLA nets 1.0\n\nNumNets : 3\nNumPins : 7\nNetDegree : 2 n0\n\
            \ti\tO : 0.500000\t0.000000\n\tu\tI : -1.500000\t0.000000\nNetDegree : 3 n1\n\
            \tu\tO : 0.000000\t0.000000\n\tv\tI : 0.000000\t0.000000\n\
            \tm\tI : -3.000000\t0.000000\nNetDegree : 2 n2\n\tv\tO : 0.000000\t0.000000\n\
            \tq\tI : -0.500000\t0.000000\n",
        &[
            (
                Some(b"n0"),
                &[(6, b"i", 500_000, 0), (7, b"u", -1_500_000, 0)],
            ),
            (
                Some(b"n1"),
                &[(9, b"u", 0, 0), (10, b"v", 0, 0), (11, b"m", -3_000_000, 0)],
            ),
            (Some(b"n2"), &[(13, b"v", 0, 0), (14, b"q", -500_000, 0)]),
        ],
    ),
    (
        b"\r\n# by hand\r\n\tucla NETS 1.0 of late\r\nNUMPINS:\t5\r\n\r\nnetdegree : 0\r\n\
            NetDegree: 3 #odd\r\n\tl B : -0.500000 0.0\r\n  # no pin\r\n NetDegree \r\n\
            NumNets :3\r\n\tNumNets\to\r\nNETDEGREE\t:\t2\t:\r\n a i: 1e-6 -1000000\r\n\
            a\tI\r\n#",
        &[
            (None, &[]),
            (
                Some(b"#odd"),
                &[
                    (8, b"l", -500_000, 0),
                    (10, b"NetDegree", 0, 0),
                    (12, b"NumNets", 0, 0),
                ],
            ),
            (
                Some(b":"),
                &[(14, b"a", 1, -1_000_000_000_000), (15, b"a", 0, 0)],
            ),
        ],
    ),
    (b"UCLA nets 1.0\nNumNets : 0\nNumPins : 0", &[]),
    (
        b"UCLA nets 1.0\nNetDegree : 1\na\nNetDegree : 0 n\nNumPins : 1\nNumNets : 2\n",
        &[(None, &[(3, b"a", 0, 0)]), (Some(b"n"), &[])],
    ),
];

fn are_pins(lines: &[PinLine<'_>], rows: &[PinRow]) -> bool {
    for (line, (number, node, dx, dy)) in lines.iter().zip(rows) {
        let is_placed = (line.line, line.dx, line.dy) == (*number, Micro(*dx), Micro(*dy));
        if !(is_placed && is_same(line.node.0, node)) {
            return false;
        }
    }
    lines.len() == rows.len()
}

fn is_named(found: Option<Name<'_>>, expected: Option<&[u8]>) -> bool {
    match (found, expected) {
        (Some(found), Some(expected)) => is_same(found.0, expected),
        (found, expected) => found.is_none() && expected.is_none(),
    }
}

fn are_nets(blocks: &[NetBlock<'_>], rows: &[NetRow]) -> bool {
    for (block, (name, pins)) in blocks.iter().zip(rows) {
        if !(is_named(block.name, *name) && are_pins(block.pins.as_slice(), pins)) {
            return false;
        }
    }
    blocks.len() == rows.len()
}

#[test]
fn nets_files_are_read(rt: HostRuntime) {
    for (text, nets) in NETS {
        let file = read_nets(rt.alloc(), text).expect(&rt, "a nets file");
        assert!(rt; are_nets(file.as_slice(), nets), "{text:?}");
    }
}

/// Faults of the header, of the count lines and of the lines that start a net.
pub const FAULTY_STARTS: [Faulty; 27] = [
    (b"", 1, TextKind::BadHeader),
    (b"# nothing\n\n", 3, TextKind::BadHeader),
    (b"UCLA nodes 1.0\n", 1, TextKind::BadHeader),
    (b"\nUCLA nets 2.0\n", 2, TextKind::BadHeader),
    (b"NumNets : 0\nUCLA nets 1.0\n", 1, TextKind::BadHeader),
    (b"UCLA nets 1.0\nUCLA nets 1.0\n", 2, TextKind::BadLine),
    (b"UCLA nets 1.0\nNumNets :\n", 2, TextKind::BadLine),
    (b"UCLA nets 1.0\nNumNets : 1 2\n", 2, TextKind::BadLine),
    (b"UCLA nets 1.0\nNumNets 1\n", 2, TextKind::BadLine),
    (b"UCLA nets 1.0\nNumNets : x\n", 2, TextKind::BadNumber),
    (b"UCLA nets 1.0\nNumNets : 1.0\n", 2, TextKind::BadNumber),
    (
        b"UCLA nets 1.0\nNumNets : 1\n\nnumnets : x\n",
        4,
        TextKind::BadLine,
    ),
    (b"UCLA nets 1.0\nNumPins:\n", 2, TextKind::BadLine),
    (b"UCLA nets 1.0\nNumPins : 1 x\n", 2, TextKind::BadLine),
    (b"UCLA nets 1.0\nNumPins : -1\n", 2, TextKind::BadNumber),
    (
        b"UCLA nets 1.0\nNumPins : 1099511627777\n",
        2,
        TextKind::BadNumber,
    ),
    (
        b"UCLA nets 1.0\nNumPins : 0\nNumNets : 0\nNumPins : 0\n",
        4,
        TextKind::BadLine,
    ),
    (b"UCLA nets 1.0\nNetDegree :\n", 2, TextKind::BadLine),
    (b"UCLA nets 1.0\nNetDegree 2 n\n", 2, TextKind::BadLine),
    (b"UCLA nets 1.0\nNetDegree : 2 n 0\n", 2, TextKind::BadLine),
    (b"UCLA nets 1.0\nNetDegree : x n 0\n", 2, TextKind::BadLine),
    (b"UCLA nets 1.0\nNetDegree : x n\n", 2, TextKind::BadNumber),
    (
        b"UCLA nets 1.0\nNetDegree : 1099511627777\n",
        2,
        TextKind::BadNumber,
    ),
    (
        b"UCLA nets 1.0\nNetDegree : 1\na\nNetDegree : -1\n",
        4,
        TextKind::BadNumber,
    ),
    (
        b"UCLA nets 1.0\nNetDegree : 2\na\nNetDegree : 1\nb\n",
        4,
        TextKind::CountMismatch { told: 2, found: 1 },
    ),
    (
        b"UCLA nets 1.0\nNetDegree : 2\n\nNetDegree :\n",
        4,
        TextKind::CountMismatch { told: 2, found: 0 },
    ),
    (
        b"UCLA nets 1.0\nNetDegree : 2\na\nNumNets : 1\nNetDegree : x\n",
        5,
        TextKind::CountMismatch { told: 2, found: 1 },
    ),
];

/// Faults of the lines of pins.
pub const FAULTY_PINS: [Faulty; 18] = [
    (b"UCLA nets 1.0\na B\n", 2, TextKind::BadLine),
    (b"UCLA nets 1.0\na B : x y\n", 2, TextKind::BadLine),
    (b"UCLA nets 1.0\nNetDegree : 2\na N\n", 3, TextKind::BadLine),
    (
        b"UCLA nets 1.0\nNetDegree : 2\na IO\n",
        3,
        TextKind::BadLine,
    ),
    (
        b"UCLA nets 1.0\nNetDegree : 2\na B :\n",
        3,
        TextKind::BadLine,
    ),
    (
        b"UCLA nets 1.0\nNetDegree : 2\nNumNets 1 2\n",
        3,
        TextKind::BadLine,
    ),
    (
        b"UCLA nets 1.0\nNetDegree : 2\na B : 0\n",
        3,
        TextKind::BadLine,
    ),
    (
        b"UCLA nets 1.0\nNetDegree : 2\na B 0 0 0\n",
        3,
        TextKind::BadLine,
    ),
    (
        b"UCLA nets 1.0\nNetDegree : 2\na X : x y\n",
        3,
        TextKind::BadLine,
    ),
    (
        b"UCLA nets 1.0\nNetDegree : 2\na B : 0 0 0\n",
        3,
        TextKind::BadLine,
    ),
    (
        b"UCLA nets 1.0\nNetDegree : 2\na B : x 0\n",
        3,
        TextKind::BadNumber,
    ),
    (
        b"UCLA nets 1.0\nNetDegree : 2\na B : 0 0x1\n",
        3,
        TextKind::BadNumber,
    ),
    (
        b"UCLA nets 1.0\nNetDegree : 2\na B : 0 -1000000.000001\n",
        3,
        TextKind::BadNumber,
    ),
    (
        b"UCLA nets 1.0\nNetDegree : 1\na\n# b\nb\nc N\n",
        5,
        TextKind::CountMismatch { told: 1, found: 2 },
    ),
    (
        b"UCLA nets 1.0\nNetDegree : 0 n\nb B : 1 1\n",
        3,
        TextKind::CountMismatch { told: 0, found: 1 },
    ),
    (
        b"UCLA nets 1.0\nNetDegree : 1\na\nb N\n",
        4,
        TextKind::BadLine,
    ),
    (
        b"UCLA nets 1.0\nNetDegree : 1\na\nb B : 0 x\n",
        4,
        TextKind::BadNumber,
    ),
    (
        b"UCLA nets 1.0\nNetDegree : 1\na\nNumPins : 2\nb\n",
        5,
        TextKind::CountMismatch { told: 1, found: 2 },
    ),
];

/// Faults that are seen at the end.
pub const FAULTY_ENDS: [Faulty; 11] = [
    (
        b"UCLA nets 1.0\nNumNets : 2\nNumPins : 4\nNetDegree : 2 n0\nl B\na B\n\
            NetDegree : 2 n1\na B\n",
        9,
        TextKind::CountMismatch { told: 2, found: 1 },
    ),
    (
        b"UCLA nets 1.0\nNumNets : 2\nNumPins : 5\nNetDegree : 2 n0\nl B\na B\n\
            NetDegree : 2 n1\na B\nr B\n",
        10,
        TextKind::CountMismatch { told: 5, found: 4 },
    ),
    (
        b"UCLA nets 1.0\nNumPins : 4\nNetDegree : 2 n0\nl B\na B\nNetDegree : 2 n1\na B\nr B\n",
        9,
        TextKind::BadLine,
    ),
    (b"UCLA nets 1.0\n", 2, TextKind::BadLine),
    (b"UCLA nets 1.0\nNumNets : 1", 3, TextKind::BadLine),
    (
        b"UCLA nets 1.0\nNetDegree : 1099511627776\n\n# end\n",
        5,
        TextKind::CountMismatch {
            told: 1_099_511_627_776,
            found: 0,
        },
    ),
    (
        b"UCLA nets 1.0\nNumNets : 9\nNumPins : 9\nNetDegree : 1",
        5,
        TextKind::CountMismatch { told: 1, found: 0 },
    ),
    (
        b"UCLA nets 1.0\nNumNets : 0\nNumPins : 9\nNetDegree : 1\na\n",
        6,
        TextKind::CountMismatch { told: 0, found: 1 },
    ),
    (
        b"UCLA nets 1.0\nNumNets : 2\nNumPins : 0\nNetDegree : 0\n",
        5,
        TextKind::CountMismatch { told: 2, found: 1 },
    ),
    (
        b"UCLA nets 1.0\nNumNets : 1\nNumPins : 0\nNetDegree : 1\na\n",
        6,
        TextKind::CountMismatch { told: 0, found: 1 },
    ),
    (
        b"UCLA nets 1.0\nNumNets : 0\nNumPins : 1\n",
        4,
        TextKind::CountMismatch { told: 1, found: 0 },
    ),
];
