//! Wire lengths of small designs, worked by hand, and the text of a report.

ghost use Rattle.std.specs.Prelude.{All, IsTrue};
ghost use Rattle.book_text.specs.Coordinates.{IsMicro};
ghost use Rattle.wire_report.specs.Wire.{IsNearCorner};

use book_design::{Design, JoinError, join_design};
use book_files::{read_nets, read_nodes, read_pl, read_scl, read_wts};
use book_text::MOST_MICRO;
use std::alloc::Global;
use std::process::Abort;
use wire_report::{Corner, hpwl, report_text};

/// Two cells, a macro and a pad, on one row.
const NODES: &[u8] = b"UCLA nodes 1.0\nNumNodes : 4\nNumTerminals : 1\n\
    a 3 10\nb 2.000001 9.999999\nm 4 20\np 0 0 terminal\n";

const PL: &[u8] = b"UCLA pl 1.0\nm 10 0 : N /FIXED\np 0 30 : N\n";

const SCL: &[u8] = b"UCLA scl 1.0\nNumRows : 1\nCoreRow Horizontal\nCoordinate : 0\nHeight : 10\n\
    Sitewidth : 1\nSubrowOrigin : 0 NumSites : 10\nEnd\n";

/// More bytes than any of these texts has.
const TOO_LONG: usize = 268_435_456;

/// The farthest that a corner may lie from 0 on an axis.
const FAR: i64 = MOST_MICRO as i64;

/// With these the nodes' centres lie at (2.5, 7), (-6, 5.499999), (12, 10) and (0, 30): halves are rounded down.
const CORNERS: &[Corner] = &[
    Corner {
        x: 1_000_000,
        y: 2_000_000,
    },
    Corner {
        x: -7_000_000,
        y: 500_000,
    },
    Corner {
        x: 10_000_000,
        y: 0,
    },
    Corner {
        x: 0,
        y: 30_000_000,
    },
];

const ALL_NETS: &[u8] = b"UCLA nets 1.0\nNumNets : 5\nNumPins : 11\n\
    NetDegree : 1 one\na I : 5 5\n\
    NetDegree : 2 same\na I : -1 0.5\na I : 1 -0.25\n\
    NetDegree : 2 cells\na I : 0 0\nb I : 0 0\n\
    NetDegree : 2 fixed\nm I : 0 0\np I : 0 0\n\
    NetDegree : 4 all\na I : 0 0\nb I : 1 0\nm I : -20 0\np I : 0 1\n";

/// Nets, and their wire length in millionths with the corners.
#[derive(Clone, Copy)]
struct Case {
    nets: &'static [u8],
    wts: &'static [u8],
    corners: &'static [Corner],
    wire: u128,
}

/// One pin.
const ONE_PIN: Case = Case {
    nets: b"UCLA nets 1.0\nNumNets : 1\nNumPins : 1\nNetDegree : 1 one\na I : 5 5\n",
    wts: b"UCLA wts 1.0\n",
    corners: CORNERS,
    wire: 0,
};

const CASES: [Case; 8] = [
    ONE_PIN,
    // none at all
    Case {
        nets: b"UCLA nets 1.0\nNumNets : 0\nNumPins : 0\n",
        ..ONE_PIN
    },
    // two pins of one node: 2 wide, 0.75 high
    Case {
        nets: b"UCLA nets 1.0\nNumNets : 1\nNumPins : 2\nNetDegree : 2 same\na I : -1 0.5\na I : 1 -0.25\n",
        wire: 2_750_000,
        ..ONE_PIN
    },
    // 8.5 wide, 1.500001 high
    Case {
        nets: b"UCLA nets 1.0\nNumNets : 1\nNumPins : 2\nNetDegree : 2 cells\na I : 0 0\nb I : 0 0\n",
        wire: 10_000_001,
        ..ONE_PIN
    },
    // fixed nodes: 12 wide, 20 high
    Case {
        nets: b"UCLA nets 1.0\nNumNets : 1\nNumPins : 2\nNetDegree : 2 fixed\nm I : 0 0\np I : 0 0\n",
        wire: 32_000_000,
        ..ONE_PIN
    },
    // 10.5 wide, 25.500001 high
    Case {
        nets: b"UCLA nets 1.0\nNumNets : 1\nNumPins : 4\nNetDegree : 4 all\na I : 0 0\nb I : 1 0\nm I : -20 0\np I : 0 1\n",
        wire: 36_000_001,
        ..ONE_PIN
    },
    // all of these, with a weight and without one
    Case {
        nets: ALL_NETS,
        wts: b"UCLA wts 1.0\nall 7\ncells 0\n",
        wire: 80_750_002,
        ..ONE_PIN
    },
    // as far apart as can be, but for the nodes' sizes: 4,000,001.5 wide, 4,000,005 high
    Case {
        nets: b"UCLA nets 1.0\nNumNets : 1\nNumPins : 2\nNetDegree : 2 far\na I : 1000000 1000000\np I : -1000000 -1000000\n",
        corners: &[
            Corner { x: FAR, y: FAR },
            Corner { x: 0, y: 0 },
            Corner { x: 0, y: 0 },
            Corner { x: -FAR, y: -FAR },
        ],
        wire: 8_000_006_500_000,
        ..ONE_PIN
    },
];

/// Wire lengths in millionths, and their line.
const LINES: [(u128, &[u8]); 6] = [
    (0, b"wire 0\n"),
    (1, b"wire 0.000001\n"),
    (2_500_000, b"wire 2.5\n"),
    (7_000_000, b"wire 7\n"),
    (80_750_002, b"wire 80.750002\n"),
    (
        u128::MAX,
        b"wire 340282366920938463463374607431768.211455\n",
    ),
];

/// What the texts of a case make together.
fn join(rt: &impl Abort, alloc: Global, case: &Case) -> Result<Design<'static>, JoinError> {
    assert!(rt; NODES.len() < TOO_LONG);
    assert!(rt; case.nets.len() < TOO_LONG);
    assert!(rt; SCL.len() < TOO_LONG);
    let Ok(nodes) = read_nodes(alloc, NODES) else {
        panic!(rt; "the nodes are not read");
    };
    let Ok(nets) = read_nets(alloc, case.nets) else {
        panic!(rt; "the nets are not read");
    };
    let Ok(wts) = read_wts(alloc, case.wts) else {
        panic!(rt; "the weights are not read");
    };
    let Ok(pl) = read_pl(alloc, PL) else {
        panic!(rt; "the places are not read");
    };
    let Ok(scl) = read_scl(alloc, SCL) else {
        panic!(rt; "the rows are not read");
    };
    join_design(alloc, &nodes, &nets, Some(&wts), &pl, &scl)
}

/// Whether each corner lies within 1,000,000 units.
fn are_near(corners: &[Corner]) -> bool
    ensures { IsTrue result → All IsNearCorner corners.now }
{
    corners.iter().all(is_near)
}

fn is_near(corner: &Corner) -> bool
    ensures { IsTrue result → IsNearCorner corner.now }
{
    is_within(corner.x) && is_within(corner.y)
}

fn is_within(z: i64) -> bool
    ensures { IsTrue result → IsMicro z }
{
    -FAR <= z && z <= FAR
}

#[test]
fn nets_have_lengths(rt: HostRuntime) {
    for (number, case) in CASES.iter().enumerate() {
        let design = join(&rt, rt.alloc(), case).expect(&rt, "the texts are joined");
        assert!(rt; are_near(case.corners));
        assert!(rt; case.corners.len() == design.nodes().len());
        let wire = hpwl(&rt, rt.alloc(), &design, case.corners).expect(&rt, "memory");
        assert_eq!(rt; wire, case.wire, "in case {number}");
    }
}

#[test]
fn reports_have_three_lines(rt: HostRuntime) {
    let case = Case {
        nets: ALL_NETS,
        ..ONE_PIN
    };
    let design = join(&rt, rt.alloc(), &case).expect(&rt, "the texts are joined");
    let front = b"cells 2 terminals 2 nets 5 pins 11\nlevels 3 gap 17\n";
    for (wire, line) in LINES {
        let text = report_text(rt.alloc(), &design, 3, 17, wire).expect(&rt, "memory");
        assert_eq!(rt; text.as_slice().strip_prefix(front), Some(line));
    }
}
