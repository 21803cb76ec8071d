//! Designs that are refused, and the line of each.

use crate::changes::{FaultyDesign, FaultyText, check_designs, check_texts};
use proud_top::{DesignFault, FileKind, NetFault, Refusal, Status, TextKind};
use run_cases::{
    Case, DONE, ONE_CELL, Texts, Unmet, WEIGHTED, check_all, lines_of, placed, stopped,
};
use std::alloc::Global;
use std::test::Fail;
use std::thread::Threads;

const FAULTY_TEXTS: &[FaultyText] = &[
    (
        (ONE_CELL, FileKind::Aux, b"RowBasedPlacement : ", b""),
        1,
        TextKind::BadHeader,
        b"proud: aux:1: bad header\n",
    ),
    (
        (ONE_CELL, FileKind::Nodes, b"a 2 10", b"a 2"),
        4,
        TextKind::BadLine,
        b"proud: nodes:4: bad line\n",
    ),
    (
        (ONE_CELL, FileKind::Nodes, b"a 2 10", b"a 2 -1"),
        4,
        TextKind::BadNumber,
        b"proud: nodes:4: bad number\n",
    ),
    (
        (ONE_CELL, FileKind::Nets, b"r B\n", b""),
        9,
        TextKind::CountMismatch { told: 2, found: 1 },
        b"proud: nets:9: count 2 but 1\n",
    ),
    (
        (ONE_CELL, FileKind::Nets, b"NumPins : 4", b"NumPins : 5"),
        10,
        TextKind::CountMismatch { told: 5, found: 4 },
        b"proud: nets:10: count 5 but 4\n",
    ),
    (
        (WEIGHTED, FileKind::Wts, b"1.0\n", b"1.0\nn0\n"),
        2,
        TextKind::BadLine,
        b"proud: wts:2: bad line\n",
    ),
    (
        (ONE_CELL, FileKind::Pl, b"a 0 0", b"a x 0"),
        2,
        TextKind::BadNumber,
        b"proud: pl:2: bad number\n",
    ),
    (
        (ONE_CELL, FileKind::Scl, b"NumRows : 1\n", b""),
        9,
        TextKind::BadLine,
        b"proud: scl:9: bad line\n",
    ),
];

#[test]
fn faults_of_texts_are_named(rt: HostRuntime) -> Result<(), Fail> {
    Ok(check_texts(&rt, rt.alloc(), FAULTY_TEXTS)?)
}

const FAULTY_DESIGNS: &[FaultyDesign] = &[
    (
        (
            ONE_CELL,
            FileKind::Nodes,
            b"3\nNumTerminals : 2\n",
            b"4\nNumTerminals : 2\na 2 10\n",
        ),
        DesignFault::DuplicateName { line: 5 },
        b"proud: nodes:5: name given twice\n",
    ),
    (
        (ONE_CELL, FileKind::Nets, b"l B", b"z B"),
        DesignFault::UnknownName {
            file: FileKind::Nets,
            line: 5,
        },
        b"proud: nets:5: unknown name\n",
    ),
    (
        (
            ONE_CELL,
            FileKind::Pl,
            b"r 10 5 : N /FIXED\n",
            b"r 10 5 : N /FIXED\nz 0 0 : N\n",
        ),
        DesignFault::UnknownName {
            file: FileKind::Pl,
            line: 5,
        },
        b"proud: pl:5: unknown name\n",
    ),
    (
        (ONE_CELL, FileKind::Pl, b"l 0 5 : N /FIXED\n", b""),
        DesignFault::NoPosition { node: 1 },
        b"proud: node l: no position\n",
    ),
    // a row above, of another height
    (
        (
            ONE_CELL,
            FileKind::Scl,
            b"1\nCoreRow",
            b"2\nCoreRow Horizontal\n Coordinate : 10\n Height : 12\n \
                Sitewidth : 1\n SubrowOrigin : 0 NumSites : 10\nEnd\nCoreRow",
        ),
        DesignFault::MixedRows { row: 1 },
        b"proud: row 1: mixed rows\n",
    ),
    (
        (
            ONE_CELL,
            FileKind::Scl,
            b"1\nCoreRow",
            b"2\nCoreRow Horizontal\n Coordinate : 5\n Height : 10\n \
                Sitewidth : 1\n SubrowOrigin : 0 NumSites : 10\nEnd\nCoreRow",
        ),
        DesignFault::RowsOverlap { row: 1 },
        b"proud: row 1: overlaps\n",
    ),
    (
        (ONE_CELL, FileKind::Nodes, b"a 2 10", b"a 2 11"),
        DesignFault::TallCell { node: 0 },
        b"proud: node a: taller than a row\n",
    ),
    (
        (WEIGHTED, FileKind::Wts, b"1.0\n", b"1.0\nn0 65536\n"),
        DesignFault::Limit { kind: 5, number: 0 },
        b"proud: limit 5 0\n",
    ),
    (
        (WEIGHTED, FileKind::Wts, b"1.0\n", b"1.0\nn0 0.5\n"),
        DesignFault::Limit { kind: 5, number: 0 },
        b"proud: limit 5 0\n",
    ),
    (
        (ONE_CELL, FileKind::Scl, b"Origin : 0", b"Origin : 999995"),
        DesignFault::Limit { kind: 6, number: 0 },
        b"proud: limit 6 0\n",
    ),
];

#[test]
fn faults_of_designs_are_named(rt: HostRuntime) -> Result<(), Fail> {
    Ok(check_designs(&rt, rt.alloc(), FAULTY_DESIGNS)?)
}

/// A run that is refused since the second cell reaches no pad.
const ALONE: Case = Case {
    texts: Texts {
        nodes: b"UCLA nodes 1.0\nNumNodes : 4\nNumTerminals : 2\n\
            a 2 10\nc 2 10\nl 0 0 terminal\nr 0 0 terminal\n",
        ..ONE_CELL
    },
    status: Status::Refused(Refusal::Unanchored(1)),
    file: None,
    report: b"proud: node c: reaches no pad\n",
    ..DONE
};

/// It is in no net, or in one with another cell alone.
const UNANCHORED: &[Case] = &[
    ALONE,
    Case {
        texts: Texts {
            nodes: b"UCLA nodes 1.0\nNumNodes : 5\nNumTerminals : 2\n\
                a 2 10\nc 2 10\ne 2 10\nl 0 0 terminal\nr 0 0 terminal\n",
            nets: b"UCLA nets 1.0\nNumNets : 3\nNumPins : 6\nNetDegree : 2 n0\nl B\na B\n\
                NetDegree : 2 n1\na B\nr B\nNetDegree : 2 n2\nc B\ne B\n",
            ..ONE_CELL
        },
        ..ALONE
    },
];

#[test]
fn points_that_reach_no_pad_are_named(rt: HostRuntime) -> Result<(), Fail> {
    check_all(&rt, rt.alloc(), UNANCHORED)?;
    assert_eq!(rt; ALONE.status.code(), 2);
    Ok(())
}

/// One cell with so many nets to a pad, each of the greatest weight.
fn check_many_nets<R: Threads + Sync>(
    rt: &R,
    alloc: Global,
    nets: u32,
    due: Case<'static>,
) -> Result<(), Unmet> {
    let pins = u64::from(nets) * 2;
    let head = format!(in alloc; "UCLA nets 1.0\nNumNets : {nets}\nNumPins : {pins}\n")?;
    let net_text = lines_of(alloc, head.as_str(), "NetDegree : 2 n", "\nl B\na B", nets)?;
    let weight_text = lines_of(alloc, "UCLA wts 1.0\n", "n", " 65535", nets)?;
    let texts = Texts {
        nets: net_text.as_slice(),
        wts: weight_text.as_slice(),
        ..WEIGHTED
    };
    due.on(texts).check(rt, alloc)
}

#[test]
fn points_that_are_too_heavy_are_named(rt: HostRuntime) -> Result<(), Fail> {
    let light = Case {
        file: Some(b"UCLA pl 1.0\na 0 0 : N\nl 0 5 : N /FIXED\nr 10 5 : N /FIXED\n"),
        report: b"cells 1 terminals 2 nets 19973 pins 39946\nlevels 4 gap 0\nwire 19973\n",
        ..DONE
    };
    check_many_nets(&rt, rt.alloc(), 19_973, light)?;
    let refused = Status::Refused(Refusal::Net(NetFault::Heavy(0)));
    let heavy = stopped(WEIGHTED, refused, b"proud: node a: too heavy\n");
    check_many_nets(&rt, rt.alloc(), 19_974, heavy)?;
    Ok(())
}

/// So many cells, all of them in each of so many nets, and no pad.
fn check_crowd<R: Threads + Sync>(
    rt: &R,
    alloc: Global,
    cells: u32,
    nets: u32,
    due: Case<'static>,
) -> Result<(), Unmet> {
    let pins = u64::from(cells) * u64::from(nets);
    let head = format!(in alloc; "UCLA nodes 1.0\nNumNodes : {cells}\n")?;
    let node_text = lines_of(alloc, head.as_str(), "c", " 2 10", cells)?;
    let head = format!(in alloc; "NetDegree : {cells}\n")?;
    let net = lines_of(alloc, head.as_str(), "c", " B", cells)?;
    let head = format!(in alloc; "UCLA nets 1.0\nNumNets : {nets}\nNumPins : {pins}\n")?;
    let mut net_text = Vec::from_slice(alloc, head.as_bytes())?;
    for _ in 0..nets {
        net_text.extend_from_slice(&net)?;
    }
    let texts = Texts {
        nodes: node_text.as_slice(),
        nets: net_text.as_slice(),
        pl: b"UCLA pl 1.0\n",
        ..ONE_CELL
    };
    due.on(texts).check(rt, alloc)
}

#[test]
fn nets_with_too_many_edges_are_named(rt: HostRuntime) -> Result<(), Fail> {
    let refused = Status::Refused(Refusal::Net(NetFault::TooManyEdges(16_777_320)));
    let due = stopped(ONE_CELL, refused, b"proud: too many edges: 16777320\n");
    Ok(check_crowd(&rt, rt.alloc(), 16, 139_811, due)?)
}

#[test]
fn a_cell_of_wide_nets_alone_is_named(rt: HostRuntime) -> Result<(), Fail> {
    let refused = Status::Refused(Refusal::Unanchored(0));
    let due = stopped(ONE_CELL, refused, b"proud: node c0: reaches no pad\n");
    Ok(check_crowd(&rt, rt.alloc(), 512, 129, due)?)
}

/// A wide net of the greatest weight behind a net of one pair: it is the second net, and its star point the third point.
#[test]
fn a_net_that_is_too_heavy_is_named(rt: HostRuntime) -> Result<(), Fail> {
    let alloc = rt.alloc();
    let nodes = "UCLA nodes 1.0\nNumNodes : 20000\na 2 10\nb 2 10\n";
    let nets = "UCLA nets 1.0\nNumNets : 2\nNumPins : 20002\n\
        NetDegree : 2\na B\nb B\nNetDegree : 20000 n\na B\nb B\n";
    let node_text = lines_of(alloc, nodes, "p", " 0 0 terminal", 19_998)?;
    let net_text = lines_of(alloc, nets, "p", " B", 19_998)?;
    let place_text = lines_of(alloc, "UCLA pl 1.0\n", "p", " 0 5 : N /FIXED", 19_998)?;
    let texts = Texts {
        nodes: node_text.as_slice(),
        nets: net_text.as_slice(),
        wts: b"UCLA wts 1.0\nn 65535\n",
        pl: place_text.as_slice(),
        ..WEIGHTED
    };
    let refused = Status::Refused(Refusal::Net(NetFault::Heavy(2)));
    stopped(texts, refused, b"proud: net 1: too heavy\n").check(&rt, alloc)?;
    assert_eq!(rt; refused.code(), 2);
    Ok(())
}

/// Six cells of two sites in a row of ten.
#[test]
fn a_cell_without_room_is_named(rt: HostRuntime) -> Result<(), Fail> {
    let texts = Texts {
        nodes: b"UCLA nodes 1.0\nNumNodes : 7\na 2 10\nb 2 10\nc 2 10\nd 2 10\ne 2 10\nf 2 10\nl 0 0 terminal\n",
        nets: b"UCLA nets 1.0\nNumNets : 6\nNumPins : 12\nNetDegree : 2\nl B\na B\n\
            NetDegree : 2\nl B\nb B\nNetDegree : 2\nl B\nc B\nNetDegree : 2\nl B\nd B\n\
            NetDegree : 2\nl B\ne B\nNetDegree : 2\nl B\nf B\n",
        pl: b"UCLA pl 1.0\nl 0 5 : N /FIXED\n",
        ..ONE_CELL
    };
    let refused = Status::Refused(Refusal::NoRoom {
        cell: 5,
        sites: 2,
        largest: 0,
    });
    let line = b"proud: node f: no room for 2 sites, 0 left\n";
    stopped(texts, refused, line)
        .by(&["proud", "--levels", "0", "a.aux"])
        .check(&rt, rt.alloc())?;
    assert_eq!(rt; refused.code(), 2);
    Ok(())
}
