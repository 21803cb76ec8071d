//! Segments of small designs.

use book_design::{Design, JoinError, join_design};
use book_files::{read_nets, read_nodes, read_pl, read_scl};
use row_space::{Segment, Segments, segments};
use std::alloc::Global;
use std::process::Abort;

/// A design without nets, by the texts of its files, and what it has to give: the pitch, and of each segment x, y and how
/// many sites.
#[derive(Clone, Copy)]
struct Case {
    nodes: &'static [u8],
    pl: &'static [u8],
    scl: &'static [u8],
    pitch: i64,
    segments: &'static [(i64, i64, u32)],
}

/// More bytes than any of these texts has.
const TOO_LONG: usize = 268_435_456;

const NO_NETS: &[u8] = b"UCLA nets 1.0\nNumNets : 0\nNumPins : 0\n";

/// Ten sites of width 1 from (0, 0) on, 10 high.
const ONE_ROW: &[u8] =
    b"UCLA scl 1.0\nNumRows : 1\nCoreRow Horizontal\nCoordinate : 0\nHeight : 10\n\
    Sitewidth : 1\nSubrowOrigin : 0 NumSites : 10\nEnd\n";

/// Sites of width 2: in the upper row twice four, in the lower one ten.
const TWO_ROWS: &[u8] = b"UCLA scl 1.0\nNumRows : 2\n\
    CoreRow Horizontal\nCoordinate : 10\nHeight : 10\nSitewidth : 2\n\
    SubrowOrigin : 0 NumSites : 4\nSubrowOrigin : 12 NumSites : 4\nEnd\n\
    CoreRow Horizontal\nCoordinate : 0\nHeight : 10\nSitewidth : 2\n\
    SubrowOrigin : 0 NumSites : 10\nEnd\n";

/// Sites of width 2, and many subrows of one y, in two rows and not from left to right: those of 0 from 0 to 6, 6 to 12, 12 to
/// 18, 20 to 30, 30 to 38, 40 to 50, 50 to 60 and 62 to 64, those of 10 from 3 to 23, 24 to 32, 33 to 41 and 41 to 45. Two
/// have no site, one of which lies within another.
const MANY_SUBROWS: &[u8] = b"UCLA scl 1.0\nNumRows : 3\n\
    CoreRow Horizontal\nCoordinate : 0\nHeight : 10\nSitewidth : 2\n\
    SubrowOrigin : 30 NumSites : 4\nSubrowOrigin : 0 NumSites : 3\n\
    SubrowOrigin : 12 NumSites : 3\nSubrowOrigin : 14 NumSites : 0\nEnd\n\
    CoreRow Horizontal\nCoordinate : 0\nHeight : 10\nSitewidth : 2\n\
    SubrowOrigin : 50 NumSites : 5\nSubrowOrigin : 20 NumSites : 5\n\
    SubrowOrigin : 6 NumSites : 3\nSubrowOrigin : 62 NumSites : 1\n\
    SubrowOrigin : 40 NumSites : 5\nEnd\n\
    CoreRow Horizontal\nCoordinate : 10\nHeight : 10\nSitewidth : 2\n\
    SubrowOrigin : 33 NumSites : 4\nSubrowOrigin : 3 NumSites : 10\n\
    SubrowOrigin : 41 NumSites : 2\nSubrowOrigin : 70 NumSites : 0\n\
    SubrowOrigin : 24 NumSites : 4\nEnd\n";

/// A macro over three sites.
const THREE_SITES: Case = Case {
    nodes: b"UCLA nodes 1.0\nNumNodes : 1\nNumTerminals : 0\nm 3 10\n",
    pl: b"UCLA pl 1.0\nm 3 0 : N /FIXED\n",
    scl: ONE_ROW,
    pitch: 1_000_000,
    segments: &[(0, 0, 3), (6_000_000, 0, 4)],
};

/// All sites of the one row.
const WHOLE: &[(i64, i64, u32)] = &[(0, 0, 10)];

const CASES: [Case; 16] = [
    THREE_SITES,
    // a movable node takes none
    Case {
        pl: b"UCLA pl 1.0\nm 3 0 : N\n",
        segments: WHOLE,
        ..THREE_SITES
    },
    // nor does a fixed one that allows overlap, by its place
    Case {
        pl: b"UCLA pl 1.0\nm 3 0 : N /FIXED_NI\n",
        segments: WHOLE,
        ..THREE_SITES
    },
    // nor by its node's line, where one that forbids overlap stands on it
    Case {
        nodes: b"UCLA nodes 1.0\nNumNodes : 2\nNumTerminals : 0\nm 3 10 terminal_NI\nn 1 10\n",
        pl: b"UCLA pl 1.0\nm 3 0 : N /FIXED\nn 4 0 : N /FIXED\n",
        segments: &[(0, 0, 4), (5_000_000, 0, 5)],
        ..THREE_SITES
    },
    // the row's upper edge and the macro's lower one only touch
    Case {
        pl: b"UCLA pl 1.0\nm 3 10 : N /FIXED\n",
        segments: WHOLE,
        ..THREE_SITES
    },
    // and so do the row's lower edge and the macro's upper one
    Case {
        pl: b"UCLA pl 1.0\nm 3 -10 : N /FIXED\n",
        segments: WHOLE,
        ..THREE_SITES
    },
    // a millionth of the row's height
    Case {
        pl: b"UCLA pl 1.0\nm 3 9.999999 : N /FIXED\n",
        ..THREE_SITES
    },
    // a millionth of site 2
    Case {
        pl: b"UCLA pl 1.0\nm 2.999999 0 : N /FIXED\n",
        segments: &[(0, 0, 2), (6_000_000, 0, 4)],
        ..THREE_SITES
    },
    // a millionth of site 6
    Case {
        pl: b"UCLA pl 1.0\nm 3.000001 0 : N /FIXED\n",
        segments: &[(0, 0, 3), (7_000_000, 0, 3)],
        ..THREE_SITES
    },
    // no width, no height
    Case {
        nodes: b"UCLA nodes 1.0\nNumNodes : 2\nNumTerminals : 0\nm 0 10\nn 3 0\n",
        pl: b"UCLA pl 1.0\nm 3.5 0 : N /FIXED\nn 3 5 : N /FIXED\n",
        segments: WHOLE,
        ..THREE_SITES
    },
    // higher than the row
    Case {
        nodes: b"UCLA nodes 1.0\nNumNodes : 1\nNumTerminals : 1\nm 3 24 terminal\n",
        pl: b"UCLA pl 1.0\nm 3 -7 : N\n",
        ..THREE_SITES
    },
    // two that meet, at the row's end
    Case {
        nodes: b"UCLA nodes 1.0\nNumNodes : 2\nNumTerminals : 0\nm 3 10\nn 9 10\n",
        pl: b"UCLA pl 1.0\nm 3 0 : N /FIXED\nn 6 0 : N /FIXED\n",
        segments: &[(0, 0, 3)],
        ..THREE_SITES
    },
    // one within the other, the shorter one later
    Case {
        nodes: b"UCLA nodes 1.0\nNumNodes : 2\nNumTerminals : 0\nm 6 10\nn 1 10\n",
        pl: b"UCLA pl 1.0\nm 1 0 : N /FIXED\nn 2 0 : N /FIXED\n",
        segments: &[(0, 0, 1), (7_000_000, 0, 3)],
        ..THREE_SITES
    },
    // nothing is left
    Case {
        nodes: b"UCLA nodes 1.0\nNumNodes : 1\nNumTerminals : 0\nm 20 20\n",
        pl: b"UCLA pl 1.0\nm -5 -5 : N /FIXED\n",
        segments: &[],
        ..THREE_SITES
    },
    // part of two sites in each of two rows
    Case {
        nodes: b"UCLA nodes 1.0\nNumNodes : 1\nNumTerminals : 0\nm 2 20\n",
        pl: b"UCLA pl 1.0\nm 3 0 : N /FIXED\n",
        scl: TWO_ROWS,
        pitch: 2_000_000,
        segments: &[
            (0, 10_000_000, 1),
            (6_000_000, 10_000_000, 1),
            (12_000_000, 10_000_000, 4),
            (0, 0, 1),
            (6_000_000, 0, 7),
        ],
    },
    // several over several subrows of one y, from 3 to 11, 9 to 39, 58 to 62, 44 to 45, 64 to 70 and 32 to 34; and one that
    // touches the uppermost row
    Case {
        nodes: b"UCLA nodes 1.0\nNumNodes : 7\nNumTerminals : 0\n\
            a 8 10\nb 30 3\nc 4 20\nd 1 30\ne 6 5\nf 100 5\ng 2 2\n",
        pl: b"UCLA pl 1.0\na 3 -2 : N /FIXED\nb 9 4 : N /FIXED\nc 58 0 : N /FIXED\n\
            d 44 -5 : N /FIXED\ne 64 0 : N /FIXED\nf -20 20 : N /FIXED\ng 32 9 : N /FIXED\n",
        scl: MANY_SUBROWS,
        pitch: 2_000_000,
        segments: &[
            (0, 0, 1),
            (50_000_000, 0, 4),
            (62_000_000, 0, 1),
            (40_000_000, 0, 2),
            (46_000_000, 0, 2),
            (35_000_000, 10_000_000, 3),
            (3_000_000, 10_000_000, 10),
            (41_000_000, 10_000_000, 1),
            (24_000_000, 10_000_000, 4),
        ],
    },
];

/// What the texts of a case make together.
fn join(rt: &impl Abort, alloc: Global, case: &Case) -> Result<Design<'static>, JoinError> {
    assert!(rt; case.nodes.len() < TOO_LONG);
    assert!(rt; NO_NETS.len() < TOO_LONG);
    assert!(rt; case.scl.len() < TOO_LONG);
    let Ok(nodes) = read_nodes(alloc, case.nodes) else {
        panic!(rt; "the nodes are not read");
    };
    let Ok(nets) = read_nets(alloc, NO_NETS) else {
        panic!(rt; "the nets are not read");
    };
    let Ok(pl) = read_pl(alloc, case.pl) else {
        panic!(rt; "the places are not read");
    };
    let Ok(scl) = read_scl(alloc, case.scl) else {
        panic!(rt; "the rows are not read");
    };
    join_design(alloc, &nodes, &nets, None, &pl, &scl)
}

#[test]
fn fixed_nodes_take_sites(rt: HostRuntime) {
    for (number, case) in CASES.iter().enumerate() {
        let design = join(&rt, rt.alloc(), case).expect(&rt, "the texts are joined");
        let found = segments(rt.alloc(), &design).expect(&rt, "memory");
        assert_eq!(rt; found.pitch(), case.pitch);
        assert_eq!(rt;
            found.as_slice().len(),
            case.segments.len(),
            "in case {number}"
        );
        for (segment, (x, y, sites)) in found.as_slice().iter().zip(case.segments) {
            let expected = Segment {
                x: *x,
                y: *y,
                sites: *sites,
            };
            assert_eq!(rt; *segment, expected, "in case {number}");
        }
    }
}

#[test]
fn segments_are_kept_in_order(rt: HostRuntime) {
    let (first, second) = (
        Segment {
            x: 0,
            y: 0,
            sites: 3,
        },
        Segment {
            x: 6,
            y: 0,
            sites: 4,
        },
    );
    let mut list = Segments::new(rt.alloc(), 1);
    list.push(first).expect(&rt, "memory");
    list.push(second).expect(&rt, "memory");
    assert_eq!(rt; list.as_slice(), [first, second].as_slice());
    assert_eq!(rt; list.pitch(), 1);
}
