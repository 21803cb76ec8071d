//! Joins of small designs, which are read from their texts.

use book_design::{
    Core, Design, DesignFault, JoinError, Net, Node, Pin, Subrow, join_design, joined_nodes,
};
use book_files::{FileKind, Orient, read_nets, read_nodes, read_pl, read_scl, read_wts};
use std::alloc::{AllocError, Global};
use std::test::Fail;

/// The texts of a design's files.
#[derive(Clone, Copy)]
struct Texts<'a> {
    nodes: &'a [u8],
    nets: &'a [u8],
    wts: Option<&'a [u8]>,
    pl: &'a [u8],
    scl: &'a [u8],
}

/// More bytes than any of these texts has.
const TOO_LONG: usize = 268_435_456;

/// A cell between two pads, in one row.
const A: Texts = Texts {
    nodes: b"UCLA nodes 1.0\nNumNodes : 3\nNumTerminals : 2\na 2 10\nl 0 0 terminal\n\
        r 0 0 terminal\n",
    nets: b"UCLA nets 1.0\nNumNets : 2\nNumPins : 4\nNetDegree : 2 n0\nl B\na B\n\
        NetDegree : 2 n1\na B\nr B\n",
    wts: None,
    pl: b"UCLA pl 1.0\na 0 0 : N\nl 0 5 : N /FIXED\nr 10 5 : N /FIXED\n",
    scl: b"UCLA scl 1.0\nNumRows : 1\nCoreRow Horizontal\n Coordinate : 0\n Height : 10\n\
        Sitewidth : 1\n Sitespacing : 1\n SubrowOrigin : 0 NumSites : 10\nEnd\n",
};

/// The same with other spellings, an offset, and a second row without sites.
const A_SPELT_ANEW: Texts = Texts {
    nodes: b"UCLA nodes 1.0\r\n# a comment\r\nnumnodes: 3\r\nNumTerminals : 2\r\na 2 10\r\n\
        l 0 0 terminal\r\nr 0 0 terminal\r\n",
    nets: b"UCLA nets 1.0\r\n# a comment\r\nNumNets : 2\r\nNumPins : 4\r\nNetDegree : 2 n0\r\n\
        l B : -0.500000 0.0\r\na B\r\nNetDegree : 2 n1\r\na B\r\nr B\r\n",
    wts: None,
    pl: b"UCLA pl 1.0\r\n# a comment\r\na 0 0 : N\r\nl 0 5 : N /FIXED\r\n\
        r 1e+01 5.000000 : n /fixed\r\n",
    scl: b"UCLA scl 1.0\r\n# a comment\r\nNumRows : 2\r\nCoreRow Horizontal\r\n Coordinate : 0\r\n\
        Height : 10\r\n Sitewidth : 1\r\n Sitespacing : 1\r\n\
        SubrowOrigin : 0 NumSites : 10\r\nEnd\r\ncorerow horizontal\r\ncoordinate: 10\r\n\
        height: 10\r\nsitewidth: 1\r\nsubroworigin: 0 numsites: 0\r\nend\r\n",
};

/// Two cells, a macro over two rows and pads beside the core.
const B: Texts = Texts {
    nodes: b"UCLA nodes 1.0\n# design B\n\nNumNodes : 5\nNumTerminals : 3\n\tu\t3\t12\n\tv\t5\t12\n\
        \tm\t6\t24\tterminal\n\ti\t1\t1\tterminal\n\tq\t1\t1\tterminal\n",
    nets: b"UCLA nets 1.0\n\nNumNets : 3\nNumPins : 7\nNetDegree : 2 n0\n\
        \ti\tO : 0.500000\t0.000000\n\tu\tI : -1.500000\t0.000000\nNetDegree : 3 n1\n\
        \tu\tO : 0.000000\t0.000000\n\tv\tI : 0.000000\t0.000000\n\
        \tm\tI : -3.000000\t0.000000\nNetDegree : 2 n2\n\tv\tO : 0.000000\t0.000000\n\
        \tq\tI : -0.500000\t0.000000\n",
    wts: Some(b"UCLA wts 1.0\nn2 2\n"),
    pl: b"UCLA pl 1.0\nu\t0\t0\t: N\nv\t0\t0\t: N\nm\t14\t0\t: N /FIXED\n\
        i\t-1\t18\t: N /FIXED\nq\t20\t30\t: N /FIXED\n",
    scl: b"UCLA scl 1.0\nNumRows : 3\n\
        CoreRow Horizontal\n Coordinate : 0\n Height : 12\n Sitewidth : 1\n Sitespacing : 1\n\
        Siteorient : 1\n Sitesymmetry : 1\n SubrowOrigin : 0\tNumSites : 20\nEnd\n\
        CoreRow Horizontal\n Coordinate : 12\n Height : 12\n Sitewidth : 1\n Sitespacing : 1\n\
        SubrowOrigin : 0\tNumSites : 20\nEnd\n\
        CoreRow Horizontal\n Coordinate : 24\n Height : 12\n Sitewidth : 1\n Sitespacing : 1\n\
        SubrowOrigin : 0\tNumSites : 20\nEnd\n",
};

/// What the files of these texts make together, where each of them is read.
fn join<'a>(alloc: Global, texts: &Texts<'a>) -> Option<Result<Design<'a>, JoinError>> {
    if texts.nodes.len() >= TOO_LONG
        || texts.nets.len() >= TOO_LONG
        || texts.scl.len() >= TOO_LONG
    {
        return None;
    }
    let Ok(nodes) = read_nodes(alloc, texts.nodes) else {
        return None;
    };
    let Ok(nets) = read_nets(alloc, texts.nets) else {
        return None;
    };
    let Ok(pl) = read_pl(alloc, texts.pl) else {
        return None;
    };
    let Ok(scl) = read_scl(alloc, texts.scl) else {
        return None;
    };
    match texts.wts {
        Some(text) => {
            let Ok(wts) = read_wts(alloc, text) else {
                return None;
            };
            Some(join_design(alloc, &nodes, &nets, Some(&wts), &pl, &scl))
        }
        None => Some(join_design(alloc, &nodes, &nets, None, &pl, &scl)),
    }
}

/// Whether these files make a design, or have this as their first fault.
fn is_answered(alloc: Global, texts: &Texts<'_>, fault: Option<DesignFault>) -> bool {
    match join(alloc, texts) {
        Some(Ok(_)) => fault.is_none(),
        Some(Err(JoinError::Fault(found))) => fault == Some(found),
        _ => false,
    }
}

fn is_same(found: &[u8], expected: &[u8]) -> bool {
    found == expected
}

/// A node's name, width, height, place, orientation, and whether it is fixed.
type NodeRow = (&'static [u8], i64, i64, i64, i64, Orient, bool);

const B_NODES: &[NodeRow] = &[
    (b"u", 3_000_000, 12_000_000, 0, 0, Orient::N, false),
    (b"v", 5_000_000, 12_000_000, 0, 0, Orient::N, false),
    (b"m", 6_000_000, 24_000_000, 14_000_000, 0, Orient::N, true),
    (
        b"i",
        1_000_000,
        1_000_000,
        -1_000_000,
        18_000_000,
        Orient::N,
        true,
    ),
    (
        b"q",
        1_000_000,
        1_000_000,
        20_000_000,
        30_000_000,
        Orient::N,
        true,
    ),
];

/// A net's weight and its pins.
type NetRow = (u32, &'static [Pin]);

const B_NETS: &[NetRow] = &[
    (
        1,
        &[
            Pin {
                node: 3,
                dx: 500_000,
                dy: 0,
            },
            Pin {
                node: 0,
                dx: -1_500_000,
                dy: 0,
            },
        ],
    ),
    (
        1,
        &[
            Pin {
                node: 0,
                dx: 0,
                dy: 0,
            },
            Pin {
                node: 1,
                dx: 0,
                dy: 0,
            },
            Pin {
                node: 2,
                dx: -3_000_000,
                dy: 0,
            },
        ],
    ),
    (
        2,
        &[
            Pin {
                node: 1,
                dx: 0,
                dy: 0,
            },
            Pin {
                node: 4,
                dx: -500_000,
                dy: 0,
            },
        ],
    ),
];

const B_SUBROWS: &[Subrow] = &[
    Subrow {
        row: 0,
        x: 0,
        y: 0,
        sites: 20,
    },
    Subrow {
        row: 1,
        x: 0,
        y: 12_000_000,
        sites: 20,
    },
    Subrow {
        row: 2,
        x: 0,
        y: 24_000_000,
        sites: 20,
    },
];

const B_CORE: Core = Core {
    xlo: 0,
    xhi: 20_000_000,
    ylo: 0,
    yhi: 36_000_000,
};

fn are_nodes(nodes: &[Node<'_>], rows: &[NodeRow]) -> bool {
    for (node, (name, width, height, x, y, orient, fixed)) in nodes.iter().zip(rows) {
        let is_sized = (node.width, node.height) == (*width, *height);
        let is_placed = (node.x, node.y, node.orient, node.fixed) == (*x, *y, *orient, *fixed);
        if !(is_sized && is_placed && is_same(node.name.0, name)) {
            return false;
        }
    }
    nodes.len() == rows.len()
}

fn are_nets(nets: &[Net], rows: &[NetRow]) -> bool {
    for (net, (weight, pins)) in nets.iter().zip(rows) {
        if !(net.weight == *weight && net.pins.as_slice() == *pins) {
            return false;
        }
    }
    nets.len() == rows.len()
}

/// Whether nodes 0 and 1 are the points, three and five sites wide.
fn are_points_named(design: &Design<'_>) -> bool {
    if design.points() != 2 || design.nodes().len() != 5 {
        return false;
    }
    let named = (design.node_of(0), design.node_of(1)) == (0, 1);
    let sized = (design.sites_of(0), design.sites_of(1)) == (3, 5);
    let points = (design.point_of(0), design.point_of(1));
    let none = (design.point_of(2), design.point_of(4));
    named && sized && points == (Some(0), Some(1)) && none == (None, None)
}

#[test]
fn a_design_is_joined(rt: HostRuntime) {
    let Some(Ok(design)) = join(rt.alloc(), &B) else {
        panic!(rt; "design B is not joined");
    };
    assert!(rt; are_nodes(design.nodes(), B_NODES));
    assert!(rt; are_nets(design.nets(), B_NETS));
    assert!(rt; design.subrows() == B_SUBROWS && design.core() == B_CORE);
    assert!(rt; (design.pitch(), design.row_height()) == (1_000_000, 12_000_000));
    assert!(rt; are_points_named(&design));
}

#[test]
fn nodes_are_joined_alone(rt: HostRuntime) -> Result<(), Fail> {
    let Ok(nodes) = read_nodes(rt.alloc(), B.nodes) else {
        panic!(rt; "the nodes of design B aren't read");
    };
    let Ok(pl) = read_pl(rt.alloc(), B.pl) else {
        panic!(rt; "the places of design B aren't read");
    };
    assert!(rt; are_nodes(&joined_nodes(rt.alloc(), &nodes, &pl)?, B_NODES));
    Ok(())
}

/// A node's lines in the files of nodes and of places, and whether it is fixed, and allows overlap.
type Marked = (&'static [u8], &'static [u8], (bool, bool));

const MARKED: &[Marked] = &[
    (
        b"UCLA nodes 1.0\nNumNodes : 1\na 2 10\n",
        b"UCLA pl 1.0\na 0 0\n",
        (false, false),
    ),
    (
        b"UCLA nodes 1.0\nNumNodes : 1\na 2 10 terminal_NI\n",
        b"UCLA pl 1.0\na 0 0\n",
        (true, true),
    ),
    (
        b"UCLA nodes 1.0\nNumNodes : 1\na 2 10\n",
        b"UCLA pl 1.0\na 0 0 /FIXED_NI\n",
        (true, true),
    ),
    (
        b"UCLA nodes 1.0\nNumNodes : 1\na 2 10 terminal\n",
        b"UCLA pl 1.0\na 0 0 /FIXED_NI\n",
        (true, true),
    ),
    (
        b"UCLA nodes 1.0\nNumNodes : 1\na 2 10 terminal_NI\n",
        b"UCLA pl 1.0\na 0 0 /FIXED\n",
        (true, true),
    ),
    (
        b"UCLA nodes 1.0\nNumNodes : 1\na 2 10 terminal\n",
        b"UCLA pl 1.0\na 0 0 /FIXED\n",
        (true, false),
    ),
    // the last line of a name counts
    (
        b"UCLA nodes 1.0\nNumNodes : 1\na 2 10\n",
        b"UCLA pl 1.0\na 0 0 /FIXED_NI\na 0 0 /FIXED\n",
        (true, false),
    ),
    (
        b"UCLA nodes 1.0\nNumNodes : 1\na 2 10\n",
        b"UCLA pl 1.0\na 0 0 /FIXED_NI\na 0 0\n",
        (false, false),
    ),
];

fn is_alone_marked(nodes: &[Node<'_>], marked: (bool, bool)) -> bool {
    match nodes {
        [node] => (node.fixed, node.overlap) == marked,
        _ => false,
    }
}

#[test]
fn nodes_are_marked_by_either_line(rt: HostRuntime) -> Result<(), Fail> {
    for (nodes_text, pl_text, marked) in MARKED {
        let Ok(nodes) = read_nodes(rt.alloc(), nodes_text) else {
            panic!(rt; "{nodes_text:?} isn't read");
        };
        let Ok(pl) = read_pl(rt.alloc(), pl_text) else {
            panic!(rt; "{pl_text:?} isn't read");
        };
        let joined = joined_nodes(rt.alloc(), &nodes, &pl)?;
        assert!(rt;
            is_alone_marked(&joined, *marked),
            "{nodes_text:?} {pl_text:?}"
        );
    }
    Ok(())
}

/// Texts without a fault, the weights of the two nets, and where node 0 stands, how, and whether it is fixed.
type Accepted = (Texts<'static>, [u32; 2], i64, i64, Orient, bool);

const ACCEPTED: &[Accepted] = &[
    (A, [1, 1], 0, 0, Orient::N, false),
    (A_SPELT_ANEW, [1, 1], 0, 0, Orient::N, false),
    // the last line of a name counts, in both files
    (
        Texts {
            pl: b"UCLA pl 1.0\na 1 1 : S /FIXED\nl 0 5 : N\na 3 4 : FS\nr 10 5 : N\n",
            wts: Some(b"UCLA wts 1.0\nn1 0.5\nn0 7\nn1 3\n"),
            ..A
        },
        [7, 3],
        3_000_000,
        4_000_000,
        Orient::FS,
        false,
    ),
    // a movable node needs no line
    (
        Texts {
            pl: b"UCLA pl 1.0\nl 0 5 : N\nr 10 5 : N\n",
            ..A
        },
        [1, 1],
        0,
        0,
        Orient::N,
        false,
    ),
    // the weights from 0 to 65,535, and one of no net
    (
        Texts {
            wts: Some(b"UCLA wts 1.0\nn0 65535\nzz 0.5\nn1 0\n"),
            ..A
        },
        [65_535, 0],
        0,
        0,
        Orient::N,
        false,
    ),
    // fixed by its place, and so as high as it likes
    (
        Texts {
            nodes: b"UCLA nodes 1.0\nNumNodes : 3\na 2 11\nl 0 0 terminal\nr 0 0 terminal\n",
            pl: b"UCLA pl 1.0\na 2 0 /FIXED\nl 0 5 : N\nr 10 5 : N\n",
            ..A
        },
        [1, 1],
        2_000_000,
        0,
        Orient::N,
        true,
    ),
    // a terminal that is higher than a row
    (
        Texts {
            nodes: b"UCLA nodes 1.0\nNumNodes : 3\na 2 10\nl 0 25 terminal\nr 0 0 terminal\n",
            ..A
        },
        [1, 1],
        0,
        0,
        Orient::N,
        false,
    ),
    // rows that touch, and subrows that touch
    (
        Texts {
            scl: b"UCLA scl 1.0\nNumRows : 2\nCoreRow Horizontal\nCoordinate : 0\nHeight : 10\n\
                Sitewidth : 1\nSubrowOrigin : 0 NumSites : 4\nSubrowOrigin : 4 NumSites : 6\nEnd\n\
                CoreRow Horizontal\nCoordinate : 10\nHeight : 10\nSitewidth : 1\n\
                SubrowOrigin : 0 NumSites : 10\nEnd\n",
            ..A
        },
        [1, 1],
        0,
        0,
        Orient::N,
        false,
    ),
    // a subrow without sites shares no area
    (
        Texts {
            scl: b"UCLA scl 1.0\nNumRows : 2\nCoreRow Horizontal\nCoordinate : 0\nHeight : 10\n\
                Sitewidth : 1\nSubrowOrigin : 0 NumSites : 10\nEnd\n\
                CoreRow Horizontal\nCoordinate : 5\nHeight : 10\nSitewidth : 1\n\
                SubrowOrigin : 3 NumSites : 0\nEnd\n",
            ..A
        },
        [1, 1],
        0,
        0,
        Orient::N,
        false,
    ),
    // up to 1,000,000 units
    (
        Texts {
            scl: b"UCLA scl 1.0\nNumRows : 1\nCoreRow Horizontal\nCoordinate : 999990\n\
                Height : 10\nSitewidth : 1\nSubrowOrigin : 999990 NumSites : 10\nEnd\n",
            ..A
        },
        [1, 1],
        0,
        0,
        Orient::N,
        false,
    ),
    // as many sites as a subrow may have
    (
        Texts {
            scl: b"UCLA scl 1.0\nNumRows : 1\nCoreRow Horizontal\nCoordinate : 0\nHeight : 10\n\
                Sitewidth : 0.01\nSubrowOrigin : 0 NumSites : 16777216\nEnd\n",
            ..A
        },
        [1, 1],
        0,
        0,
        Orient::N,
        false,
    ),
    // a net without a name weighs 1
    (
        Texts {
            nets: b"UCLA nets 1.0\nNumNets : 2\nNumPins : 4\nNetDegree : 2\nl B\na B\n\
                NetDegree : 2 n1\na B\nr B\n",
            wts: Some(b"UCLA wts 1.0\nn0 9\nn1 8\n"),
            ..A
        },
        [1, 8],
        0,
        0,
        Orient::N,
        false,
    ),
];

fn are_weights(nets: &[Net], weights: &[u32]) -> bool {
    for (net, weight) in nets.iter().zip(weights) {
        if net.weight != *weight {
            return false;
        }
    }
    nets.len() == weights.len()
}

fn is_first(nodes: &[Node<'_>], place: (i64, i64, Orient, bool)) -> bool {
    match nodes {
        [node, ..] => (node.x, node.y, node.orient, node.fixed) == place,
        [] => false,
    }
}

#[test]
fn designs_without_a_fault_are_accepted(rt: HostRuntime) {
    for (texts, weights, x, y, orient, fixed) in ACCEPTED {
        let Some(Ok(design)) = join(rt.alloc(), texts) else {
            panic!(rt; "refused: {:?} {:?} {:?}", texts.wts, texts.pl, texts.scl);
        };
        assert!(rt; are_weights(design.nets(), weights), "with {:?}", texts.wts);
        let place = (*x, *y, *orient, *fixed);
        assert!(rt; is_first(design.nodes(), place), "with {:?}", texts.pl);
    }
}

const FAULTY: &[(Texts, DesignFault)] = &[
    // the first of two names that are given twice
    (
        Texts {
            nodes: b"UCLA nodes 1.0\nNumNodes : 5\na 2 10\nl 0 0 terminal\nl 0 0 terminal\n\
                r 0 0 terminal\na 2 10\n",
            ..A
        },
        DesignFault::DuplicateName { line: 5 },
    ),
    // a name given twice goes before an unknown one
    (
        Texts {
            nodes: b"UCLA nodes 1.0\nNumNodes : 3\na 2 10\nl 0 0 terminal\nl 0 0 terminal\n",
            ..A
        },
        DesignFault::DuplicateName { line: 5 },
    ),
    // unknown names of pins go before those of places
    (
        Texts {
            nets: b"UCLA nets 1.0\nNumNets : 2\nNumPins : 4\nNetDegree : 2 n0\nl B\nx B\n\
                NetDegree : 2 n1\ny B\nr B\n",
            pl: b"UCLA pl 1.0\nz 0 0 : N\nl 0 5 : N\nr 10 5 : N\n",
            ..A
        },
        DesignFault::UnknownName {
            file: FileKind::Nets,
            line: 6,
        },
    ),
    (
        Texts {
            nets: b"UCLA nets 1.0\nNumNets : 2\nNumPins : 4\nNetDegree : 2 n0\nl B\na B\n\
                NetDegree : 2 n1\na B\nA B\n",
            ..A
        },
        DesignFault::UnknownName {
            file: FileKind::Nets,
            line: 9,
        },
    ),
    // an unknown name of a place goes before a terminal without one
    (
        Texts {
            pl: b"UCLA pl 1.0\na 0 0 : N\nz 0 5 : N\ny 10 5 : N\n",
            ..A
        },
        DesignFault::UnknownName {
            file: FileKind::Pl,
            line: 3,
        },
    ),
    (
        Texts {
            pl: b"UCLA pl 1.0\na 0 0 : N\n",
            ..A
        },
        DesignFault::NoPosition { node: 1 },
    ),
    (
        Texts {
            pl: b"UCLA pl 1.0\nl 0 0 : N\n",
            scl: b"UCLA scl 1.0\nNumRows : 0\n",
            ..A
        },
        DesignFault::NoPosition { node: 2 },
    ),
    (
        Texts {
            scl: b"UCLA scl 1.0\nNumRows : 0\n",
            ..A
        },
        DesignFault::NoRows,
    ),
    // no sites, and rows that aren't alike
    (
        Texts {
            scl: b"UCLA scl 1.0\nNumRows : 2\nCoreRow Horizontal\nCoordinate : 0\nHeight : 10\n\
                Sitewidth : 1\nSubrowOrigin : 0 NumSites : 0\nEnd\n\
                CoreRow Horizontal\nCoordinate : 10\nHeight : 12\nSitewidth : 1\nEnd\n",
            ..A
        },
        DesignFault::NoRows,
    ),
    // rows that aren't alike go before those that share area
    (
        Texts {
            scl: b"UCLA scl 1.0\nNumRows : 3\nCoreRow Horizontal\nCoordinate : 0\nHeight : 10\n\
                Sitewidth : 1\nSubrowOrigin : 0 NumSites : 10\nEnd\n\
                CoreRow Horizontal\nCoordinate : 0\nHeight : 10\nSitewidth : 1\n\
                SubrowOrigin : 0 NumSites : 10\nEnd\n\
                CoreRow Horizontal\nCoordinate : 10\nHeight : 12\nSitewidth : 1\nEnd\n",
            ..A
        },
        DesignFault::MixedRows { row: 2 },
    ),
    (
        Texts {
            scl: b"UCLA scl 1.0\nNumRows : 3\nCoreRow Horizontal\nCoordinate : 0\nHeight : 10\n\
                Sitewidth : 1\nSubrowOrigin : 0 NumSites : 10\nEnd\n\
                CoreRow Horizontal\nCoordinate : 10\nHeight : 10\nSitewidth : 1\n\
                Sitespacing : 2\nEnd\n\
                CoreRow Horizontal\nCoordinate : 20\nHeight : 12\nSitewidth : 1\nEnd\n",
            ..A
        },
        DesignFault::MixedRows { row: 1 },
    ),
    // the second and the third row share area with earlier ones
    (
        Texts {
            nodes: b"UCLA nodes 1.0\nNumNodes : 3\na 2 99\nl 0 0 terminal\nr 0 0 terminal\n",
            scl: b"UCLA scl 1.0\nNumRows : 3\nCoreRow Horizontal\nCoordinate : 0\nHeight : 10\n\
                Sitewidth : 1\nSubrowOrigin : 0 NumSites : 10\nEnd\n\
                CoreRow Horizontal\nCoordinate : 9.999999\nHeight : 10\nSitewidth : 1\n\
                SubrowOrigin : 9.999999 NumSites : 10\nEnd\n\
                CoreRow Horizontal\nCoordinate : 0\nHeight : 10\nSitewidth : 1\n\
                SubrowOrigin : 0 NumSites : 10\nEnd\n",
            ..A
        },
        DesignFault::RowsOverlap { row: 1 },
    ),
    // two subrows of one row
    (
        Texts {
            scl: b"UCLA scl 1.0\nNumRows : 1\nCoreRow Horizontal\nCoordinate : 0\nHeight : 10\n\
                Sitewidth : 1\nSubrowOrigin : 0 NumSites : 5\nSubrowOrigin : 4 NumSites : 5\nEnd\n",
            ..A
        },
        DesignFault::RowsOverlap { row: 0 },
    ),
    // a cell that is too high goes before a limit
    (
        Texts {
            nodes: b"UCLA nodes 1.0\nNumNodes : 3\na 2 10.000001\nl 0 0 terminal\nr 0 0 terminal\n",
            wts: Some(b"UCLA wts 1.0\nn0 65536\n"),
            ..A
        },
        DesignFault::TallCell { node: 0 },
    ),
    (
        Texts {
            wts: Some(b"UCLA wts 1.0\nn0 1\nn1 65536\n"),
            ..A
        },
        DesignFault::Limit { kind: 5, number: 1 },
    ),
    (
        Texts {
            wts: Some(b"UCLA wts 1.0\nn0 0.5\nn1 -1\n"),
            ..A
        },
        DesignFault::Limit { kind: 5, number: 0 },
    ),
    // too many sites go before a weight and before a row's end
    (
        Texts {
            wts: Some(b"UCLA wts 1.0\nn0 0.5\n"),
            scl: b"UCLA scl 1.0\nNumRows : 1\nCoreRow Horizontal\nCoordinate : 0\nHeight : 10\n\
                Sitewidth : 1\nSubrowOrigin : 0 NumSites : 16777217\n\
                SubrowOrigin : 0 NumSites : 0\nEnd\n",
            ..A
        },
        DesignFault::Limit {
            kind: 4,
            number: 16_777_217,
        },
    ),
    // a weight goes before a row's end
    (
        Texts {
            wts: Some(b"UCLA wts 1.0\nn1 0.5\n"),
            scl: b"UCLA scl 1.0\nNumRows : 1\nCoreRow Horizontal\nCoordinate : 999991\n\
                Height : 10\nSitewidth : 1\nSubrowOrigin : 0 NumSites : 10\nEnd\n",
            ..A
        },
        DesignFault::Limit { kind: 5, number: 1 },
    ),
    // the upper edge of row 1, behind the right end of one in row 2
    (
        Texts {
            scl: b"UCLA scl 1.0\nNumRows : 3\nCoreRow Horizontal\nCoordinate : 0\nHeight : 10\n\
                Sitewidth : 1\nSubrowOrigin : 0 NumSites : 10\nEnd\n\
                CoreRow Horizontal\nCoordinate : 999991\nHeight : 10\nSitewidth : 1\nEnd\n\
                CoreRow Horizontal\nCoordinate : 10\nHeight : 10\nSitewidth : 1\n\
                SubrowOrigin : 999991 NumSites : 10\nEnd\n",
            ..A
        },
        DesignFault::Limit { kind: 6, number: 1 },
    ),
    (
        Texts {
            scl: b"UCLA scl 1.0\nNumRows : 2\nCoreRow Horizontal\nCoordinate : 0\nHeight : 10\n\
                Sitewidth : 1\nSubrowOrigin : 0 NumSites : 10\nSubrowOrigin : 999991 NumSites : 10\n\
                End\nCoreRow Horizontal\nCoordinate : 999991\nHeight : 10\nSitewidth : 1\nEnd\n",
            ..A
        },
        DesignFault::Limit { kind: 6, number: 0 },
    ),
];

#[test]
fn the_first_fault_is_named(rt: HostRuntime) {
    for (texts, fault) in FAULTY {
        assert!(rt; is_answered(rt.alloc(), texts, Some(*fault)), "{fault:?}");
    }
}

/// A text with so many lines of one kind between its first and its last ones.
fn repeated(
    alloc: Global,
    first: &[u8],
    line: &[u8],
    count: u32,
    last: &[u8],
) -> Result<Vec<u8>, AllocError> {
    let mut text = first.to_vec(alloc)?;
    for _ in 0..count {
        text.extend_from_slice(line)?;
    }
    text.extend_from_slice(last)?;
    Ok(text)
}

/// A row with one subrow that has sites.
const CROWDED_ROW: &[u8] = b"UCLA scl 1.0\nNumRows : 1\nCoreRow Horizontal\nCoordinate : 0\n\
    Height : 10\nSitewidth : 1\nSubrowOrigin : 0 NumSites : 10\n";

#[test]
fn subrows_without_sites_count(rt: HostRuntime) -> Result<(), Fail> {
    let too_many = DesignFault::Limit {
        kind: 3,
        number: 65_537,
    };
    let empty = b"SubrowOrigin : 0 NumSites : 0\n";
    for (more, fault) in [(65_535, None), (65_536, Some(too_many))] {
        let scl = repeated(rt.alloc(), CROWDED_ROW, empty, more, b"End\n")?;
        assert!(rt; is_answered(rt.alloc(), &Texts { scl: &scl, ..A }, fault));
    }
    Ok(())
}

/// A net of one pin more than a design may have.
const CROWDED_NET: &[u8] =
    b"UCLA nets 1.0\nNumNets : 1\nNumPins : 16777217\nNetDegree : 16777217 n0\n";

#[test]
fn pins_past_their_limit_are_named(rt: HostRuntime) -> Result<(), Fail> {
    let too_many = DesignFault::Limit {
        kind: 2,
        number: 16_777_217,
    };
    let nets = repeated(rt.alloc(), CROWDED_NET, b"a\n", 16_777_217, b"")?;
    assert!(rt; is_answered(rt.alloc(), &Texts { nets: &nets, ..A }, Some(too_many)));
    Ok(())
}
