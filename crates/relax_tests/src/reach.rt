//! The search for chains, in systems that were worked by hand and in a long line.

use crate::samples::{Row, chain_of, system_of};
use pad_reach::{ReachError, Web, reach};
use relax_system::System;
use std::alloc::Global;
use std::test::Fail;

/// Where each point's chain goes on, and how long it is.
fn steps(alloc: Global, web: &System) -> Result<Vec<(Option<u32>, u32)>, ReachError> {
    let steps = reach(alloc, web)?;
    let mut pairs = Vec::new(alloc);
    for i in 0..web.points() {
        pairs.push((steps.toward(i), steps.distance(i)))?;
    }
    Ok(pairs)
}

/// Systems, and the step of each point.
const REACHED: &[(&[Row], &[(Option<u32>, u32)])] = &[
    // three points in a row, of which the last is anchored
    (
        &[
            (0, 9, &[(1, 1)], 0, 0),
            (0, 9, &[(0, 1), (2, 1)], 0, 0),
            (0, 9, &[(1, 1)], 1, 9),
        ],
        &[(Some(1), 2), (Some(2), 1), (None, 0)],
    ),
    // the neighbours of a point needn't have it as theirs, and may stand there twice
    (
        &[
            (0, 9, &[], 1, 0),
            (0, 9, &[(2, 1), (2, 1)], 0, 0),
            (0, 9, &[(0, 1)], 0, 0),
        ],
        &[(None, 0), (Some(2), 2), (Some(0), 1)],
    ),
    (&[], &[]),
];

/// Systems, and the first point without a chain.
const UNREACHED: &[(&[Row], u32)] = &[
    // a row without an anchored point
    (
        &[
            (0, 9, &[(1, 1), (1, 1)], 0, 0),
            (0, 9, &[(0, 1), (2, 1)], 0, 0),
            (0, 9, &[(1, 1), (1, 1)], 0, 0),
        ],
        0,
    ),
    // the last two have each other alone
    (
        &[
            (0, 9, &[], 1, 0),
            (0, 9, &[(2, 1), (2, 1)], 0, 0),
            (0, 9, &[(1, 1), (1, 1)], 0, 0),
        ],
        1,
    ),
    // the anchored point leads to the last two, which lead nowhere else
    (
        &[
            (0, 9, &[(1, 1), (1, 1)], 0, 0),
            (0, 9, &[(2, 1), (2, 1)], 1, 0),
            (0, 9, &[(3, 1)], 0, 0),
            (0, 9, &[(2, 1)], 0, 0),
        ],
        2,
    ),
];

#[test]
fn chains_lead_to_anchored_points(rt: HostRuntime) -> Result<(), Fail> {
    for (rows, want) in REACHED {
        let web = system_of(&rt, rt.alloc(), rows)?;
        assert_eq!(rt; steps(rt.alloc(), &web)?.as_slice(), *want);
    }
    Ok(())
}

#[test]
fn a_point_without_a_chain_is_named(rt: HostRuntime) -> Result<(), Fail> {
    for (rows, want) in UNREACHED {
        let web = system_of(&rt, rt.alloc(), rows)?;
        assert_eq!(rt;
            reach(rt.alloc(), &web).err(),
            Some(ReachError::Unanchored(*want))
        );
    }
    Ok(())
}

/// A line of 4,000 points that is anchored at both ends, each of which the points nearer to it lead to.
#[test]
fn a_long_line_is_followed_to_its_ends(rt: HostRuntime) -> Result<(), Fail> {
    let line = chain_of(&rt, rt.alloc(), 4000, 9)?;
    let found = steps(rt.alloc(), &line)?;
    assert_eq!(rt; found.len(), 4000);
    for (i, step) in found.iter().enumerate() {
        let want = match i as u32 {
            0 | 3999 => (None, 0),
            i if i < 2000 => (Some(i - 1), i),
            i => (Some(i + 1), 3999 - i),
        };
        assert_eq!(rt; *step, want, "at {i}");
    }
    Ok(())
}
