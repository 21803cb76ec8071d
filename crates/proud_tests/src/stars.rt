//! Nets of up to 16 nodes, and wider ones, which have star points.

use book_text::Memory;
use run_cases::{ONE_CELL, Texts, lines_of, placed, with_lines};
use std::alloc::Global;
use std::test::Fail;

/// Cells and pads, so many on the left and on the right of the row, all in one net.
#[derive(Clone, Copy)]
struct Ring {
    cells: u32,
    left: u32,
    right: u32,
    /// The cells' lines in the placement without a cut, and its report.
    placed: &'static str,
    report: &'static [u8],
}

const RINGS: &[Ring] = &[
    Ring {
        cells: 1,
        left: 8,
        right: 7,
        placed: "UCLA pl 1.0\nc0 4 0 : N\n",
        report: b"cells 1 terminals 15 nets 1 pins 16\nlevels 0 gap 1\nwire 10\n",
    },
    Ring {
        cells: 1,
        left: 8,
        right: 8,
        placed: "UCLA pl 1.0\nc0 4 0 : N\n",
        report: b"cells 1 terminals 16 nets 1 pins 17\nlevels 0 gap 2\nwire 10\n",
    },
    Ring {
        cells: 2,
        left: 510,
        right: 0,
        placed: "UCLA pl 1.0\nc0 0 0 : N\nc1 2 0 : N\n",
        report: b"cells 2 terminals 510 nets 1 pins 512\nlevels 0 gap 2\nwire 3\n",
    },
    Ring {
        cells: 2,
        left: 511,
        right: 0,
        placed: "UCLA pl 1.0\nc0 0 0 : N\nc1 2 0 : N\n",
        report: b"cells 2 terminals 511 nets 1 pins 513\nlevels 0 gap 2\nwire 3\n",
    },
];

/// The nodes of a ring.
fn node_text(alloc: Global, ring: Ring) -> Result<Vec<u8>, Memory> {
    let count = u64::from(ring.cells) + u64::from(ring.left) + u64::from(ring.right);
    let head = format!(in alloc; "UCLA nodes 1.0\nNumNodes : {count}\n")?;
    let cells = lines_of(alloc, head.as_str(), "c", " 2 10", ring.cells)?;
    let left = with_lines(alloc, cells, "l", " 0 0 terminal", ring.left)?;
    with_lines(alloc, left, "r", " 0 0 terminal", ring.right)
}

/// The net of a ring.
fn net_text(alloc: Global, ring: Ring) -> Result<Vec<u8>, Memory> {
    let pins = u64::from(ring.cells) + u64::from(ring.left) + u64::from(ring.right);
    let head = format!(in alloc;
        "UCLA nets 1.0\nNumNets : 1\nNumPins : {pins}\nNetDegree : {pins} n0\n"
    )?;
    let cells = lines_of(alloc, head.as_str(), "c", " B", ring.cells)?;
    let left = with_lines(alloc, cells, "l", " B", ring.left)?;
    with_lines(alloc, left, "r", " B", ring.right)
}

/// The pads' places behind some text.
fn places(alloc: Global, ring: Ring, head: &str) -> Result<Vec<u8>, Memory> {
    let left = lines_of(alloc, head, "l", " 0 5 : N /FIXED", ring.left)?;
    with_lines(alloc, left, "r", " 10 5 : N /FIXED", ring.right)
}

#[test]
fn wide_nets_are_placed(rt: HostRuntime) -> Result<(), Fail> {
    let alloc = rt.alloc();
    for ring in RINGS {
        let nodes = node_text(alloc, *ring)?;
        let nets = net_text(alloc, *ring)?;
        let pl = places(alloc, *ring, "UCLA pl 1.0\n")?;
        let texts = Texts {
            nodes: nodes.as_slice(),
            nets: nets.as_slice(),
            pl: pl.as_slice(),
            ..ONE_CELL
        };
        let file = places(alloc, *ring, ring.placed)?;
        let case = placed(texts, file.as_slice(), ring.report);
        case.by(&["proud", "--levels", "0", "a.aux"])
            .check(&rt, alloc)?;
    }
    Ok(())
}
