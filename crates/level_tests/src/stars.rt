//! One net of cells and pads, as a clique and as a star.

use crate::designs::{Texts, made};
use book_outer::OpenGate;
use level_run::{Options, Solve, gap, levels};
use net_model::Network;
use pad_reach::reach;
use std::alloc::{AllocError, Global};
use std::process::Abort;
use std::test::Fail;

/// A row of 10 by 10 units.
const ROW: &[u8] = b"UCLA scl 1.0\nNumRows : 1\nCoreRow Horizontal\n Coordinate : 0\n Height : 10\n\
    Sitewidth : 1\n Sitespacing : 1\n SubrowOrigin : 0 NumSites : 10\nEnd\n";

/// A line for each number from the first to below the second, which stands in the line.
fn push_lines(
    alloc: Global,
    text: &mut String,
    before: &str,
    after: &str,
    numbers: (u16, u16),
) -> Result<(), AllocError> {
    for number in numbers.0..numbers.1 {
        text.push_str(&format!(in alloc; "{before}{number}{after}\n")?)?;
    }
    Ok(())
}

/// So many cells and pads.
fn node_text(alloc: Global, cells: u16, pads: u16) -> Result<String, AllocError> {
    let count = u32::from(cells) + u32::from(pads);
    let mut text = format!(in alloc; "UCLA nodes 1.0\nNumNodes : {count}\n")?;
    push_lines(alloc, &mut text, "c", " 2 10", (0, cells))?;
    push_lines(alloc, &mut text, "p", " 0 0 terminal", (0, pads))?;
    Ok(text)
}

/// One net of them all.
fn net_text(alloc: Global, cells: u16, pads: u16) -> Result<String, AllocError> {
    let count = u32::from(cells) + u32::from(pads);
    let mut text = format!(in alloc;
        "UCLA nets 1.0\nNumNets : 1\nNumPins : {count}\nNetDegree : {count}\n"
    )?;
    push_lines(alloc, &mut text, "c", " B", (0, cells))?;
    push_lines(alloc, &mut text, "p", " B", (0, pads))?;
    Ok(text)
}

/// The first pads on the left side of the row, and the others on the right.
fn place_text(alloc: Global, left: u16, pads: u16) -> Result<String, AllocError> {
    let mut text = format!(in alloc; "UCLA pl 1.0\n")?;
    push_lines(alloc, &mut text, "p", " 0 5 : N /FIXED", (0, left))?;
    push_lines(alloc, &mut text, "p", " 10 5 : N /FIXED", (left, pads))?;
    Ok(text)
}

/// How many cells the net has, how many pads on the left and in all, the weight of the star point's edges, or 0 where there is
/// none; the lower and the upper entry of all points on each axis; and the gap.
type Case = (u16, u16, u16, u64, (u64, u64), (u64, u64), u64);

const CASES: &[Case] = &[
    (
        1,
        8,
        15,
        0,
        (1_000_004_666_666, 1_000_004_666_667),
        (1_000_005_000_000, 1_000_005_000_000),
        1,
    ),
    (
        1,
        8,
        16,
        892,
        (1_000_004_999_999, 1_000_005_000_001),
        (1_000_004_999_999, 1_000_005_000_001),
        2,
    ),
    (
        2,
        510,
        510,
        841,
        (1_000_000_000_000, 1_000_000_000_001),
        (1_000_004_999_999, 1_000_005_000_001),
        2,
    ),
    (
        2,
        511,
        511,
        841,
        (1_000_000_000_000, 1_000_000_000_001),
        (1_000_004_999_999, 1_000_005_000_001),
        2,
    ),
];

/// The network of such a net has the star point, if any, behind the cells.
fn are_points(rt: &impl Abort, network: &Network, case: &Case) {
    let (cells, _, pads, weight, ..) = case;
    let cells = usize::from(*cells);
    let stars = if *weight == 0 { 0 } else { 1 };
    assert_eq!(rt; (network.points(), network.stars()), (cells + stars, stars));
    if stars == 1 {
        let star = cells as u32;
        assert_eq!(rt; (network.net_of(star), network.area(star)), (0, 0));
        assert_eq!(rt;
            (network.near(star).len(), network.pins(star).len()),
            (cells, usize::from(*pads))
        );
        assert!(rt; network.near(star).iter().all(|near| near.weight == *weight));
        assert!(rt; network.pins(star).iter().all(|pin| pin.weight == *weight));
        assert!(rt; network.near(0).iter().all(|near| near.point == star));
        assert!(rt; network.pins(0).is_empty());
    }
}

/// Each point has these two entries.
fn is_solved(rt: &impl Abort, solve: &Solve, points: usize, entries: (u64, u64)) {
    assert_eq!(rt;
        (solve.lo.as_slice().len(), solve.hi.as_slice().len()),
        (points, points)
    );
    assert!(rt; solve.lo.as_slice().iter().all(|lo| *lo == entries.0));
    assert!(rt; solve.hi.as_slice().iter().all(|hi| *hi == entries.1));
}

#[test]
fn a_net_of_17_nodes_is_a_star(rt: HostRuntime) -> Result<(), Fail> {
    for case in CASES {
        let (cells, left, pads, _, x, y, widest) = case;
        let nodes = node_text(rt.alloc(), *cells, *pads)?;
        let nets = net_text(rt.alloc(), *cells, *pads)?;
        let places = place_text(rt.alloc(), *left, *pads)?;
        let texts = Texts {
            nodes: nodes.as_bytes(),
            nets: nets.as_bytes(),
            wts: b"UCLA wts 1.0\n",
            pl: places.as_bytes(),
            scl: ROW,
        };
        let network = made(&rt, rt.alloc(), &texts).expect(&rt, "a network");
        are_points(&rt, &network, case);
        let reach = reach(rt.alloc(), &network)?;
        let options = Options {
            levels: 0,
            passes: 1,
            seats: 2,
        };
        let levels = levels(&rt, rt.alloc(), &network, &reach, options, &OpenGate)?;
        assert_eq!(rt; (levels.as_slice().len(), gap(&levels)), (1, *widest));
        let level = &levels.as_slice()[0];
        is_solved(&rt, &level.x, network.points(), *x);
        is_solved(&rt, &level.y, network.points(), *y);
    }
    Ok(())
}
