//! Systems that were worked by hand.

use crate::samples::{PAIR, Row, WIDE, is_boxed, points_of, system_of};
use relax_system::{Values, greatest_plain, is_valid, least_plain};
use std::test::Fail;

/// Two points that no constant holds, with two entries for one pair.
const UNANCHORED: [Row; 2] = [(4, 9, &[(1, 2), (1, 3)], 0, 0), (4, 9, &[(0, 5)], 0, 0)];

/// A point that two constants of the same weight hold, at either end of its box.
const MIDDLE: [Row; 1] = [(0, 10_000_000, &[], 1680, 8_400_000_000)];

/// A point with the greatest box, weight and sum.
const GREATEST: [Row; 1] = [(
    0,
    2_000_000_000_000,
    &[],
    1 << 40,
    (1 << 40) * 2_000_000_000_000,
)];

/// Systems, and their least and greatest vectors.
const SOLVED: &[(&[Row], &[u64], &[u64])] = &[
    (&[], &[], &[]),
    (&PAIR, &[0, 1], &[2, 3]),
    (&MIDDLE, &[5_000_000], &[5_000_000]),
    (
        &[
            (0, 10_000_000, &[(1, 840)], 840, 0),
            (0, 10_000_000, &[(0, 840)], 840, 8_400_000_000),
        ],
        &[3_333_333, 6_666_666],
        &[3_333_334, 6_666_667],
    ),
    // sums past 64 bits
    (
        &WIDE,
        &[666_666_666_666, 1_333_333_333_333],
        &[666_666_666_667, 1_333_333_333_334],
    ),
    // nothing is anchored, and each box's ends are extremal
    (&UNANCHORED, &[4, 4], &[9, 9]),
];

/// Points, and whether they make a valid system.
const JUDGED: &[(&[Row], bool)] = &[
    // no point, a pair, a neighbour in two entries, and the greatest box, weight and sum
    (&[], true),
    (&PAIR, true),
    (&UNANCHORED, true),
    (&GREATEST, true),
    // an empty box, and one past the range
    (&[(1, 0, &[(1, 1)], 0, 0), (1, 0, &[(0, 1)], 0, 0)], false),
    (&[(0, 2_000_000_000_001, &[], 1, 0)], false),
    // a neighbour that isn't there, and a point beside itself
    (&[(0, 3, &[(1, 1)], 1, 0)], false),
    (&[(0, 3, &[(0, 1)], 1, 0)], false),
    // a neighbour with another bottom, and one with another top
    (&[(0, 3, &[(1, 1)], 1, 0), (1, 3, &[], 1, 3)], false),
    (&[(0, 3, &[(1, 1)], 1, 0), (0, 4, &[], 1, 3)], false),
    // a pair without weight, a point without weight, one past the bound, and one past 64 bits
    (&[(0, 3, &[(1, 0)], 1, 0), (0, 3, &[], 1, 3)], false),
    (&[(0, 3, &[], 0, 0)], false),
    (&[(0, 3, &[], (1 << 40) + 1, 0)], false),
    (
        &[(0, 3, &[(1, u64::MAX), (1, 2)], 0, 0), (0, 3, &[], 1, 0)],
        false,
    ),
    // a sum below the box, and one above
    (&[(2, 3, &[], 1, 1)], false),
    (&[(0, 3, &[], 1, 4)], false),
];

/// Vectors of the pair, the means of each point, rounded down and up, and whether they are quiet on either side.
const ROUNDED: &[(&[u64], &[(u64, u64)], (bool, bool))] = &[
    (&[0, 1], &[(0, 1), (1, 2)], (true, true)),
    (&[1, 2], &[(1, 1), (2, 2)], (true, true)),
    (&[2, 3], &[(1, 2), (2, 3)], (true, true)),
    (&[0, 0], &[(0, 0), (1, 2)], (false, true)),
    (&[3, 3], &[(1, 2), (3, 3)], (true, false)),
    (&[1, 3], &[(1, 2), (2, 2)], (true, false)),
];

#[test]
fn solves(rt: HostRuntime) -> Result<(), Fail> {
    for (rows, lo, hi) in SOLVED {
        let system = system_of(&rt, rt.alloc(), rows)?;
        assert_eq!(rt; least_plain(rt.alloc(), &system)?.as_slice(), *lo);
        assert_eq!(rt; greatest_plain(rt.alloc(), &system)?.as_slice(), *hi);
    }
    Ok(())
}

#[test]
fn judges(rt: HostRuntime) -> Result<(), Fail> {
    for (k, (rows, valid)) in JUDGED.iter().enumerate() {
        let points = points_of(rt.alloc(), rows)?;
        assert_eq!(rt; is_valid(points.as_slice()), *valid, "case {k}");
    }
    Ok(())
}

#[test]
fn rounds(rt: HostRuntime) -> Result<(), Fail> {
    let system = system_of(&rt, rt.alloc(), &PAIR)?;
    for (v, means, quiet) in ROUNDED {
        assert!(rt; is_boxed(&system, v));
        for (i, mean) in means.iter().enumerate() {
            assert!(rt; i < system.points());
            assert_eq!(rt; (system.floor_mean(i, v), system.ceil_mean(i, v)), *mean);
        }
        assert_eq!(rt; (system.is_floor_quiet(v), system.is_ceil_quiet(v)), *quiet);
    }
    Ok(())
}

/// Of the pair halved once: the ends of the boxes, and the constants' sums rounded down and up.
const HALVED: [(u64, u64, u128, u128); 2] = [(0, 2, 0, 0), (0, 2, 1, 2)];

#[test]
fn halves(rt: HostRuntime) -> Result<(), Fail> {
    let system = system_of(&rt, rt.alloc(), &PAIR)?;
    let down = system.halved_down(rt.alloc(), 1)?;
    let up = system.halved_up(rt.alloc(), 1)?;
    for (i, (lo, hi, below, above)) in HALVED.iter().enumerate() {
        assert!(rt; i < down.points() && i < up.points());
        let (low, high) = (down.point(i), up.point(i));
        assert_eq!(rt; (low.lo, low.hi, low.anchored), (*lo, *hi, *below));
        assert_eq!(rt; (high.lo, high.hi, high.anchored), (*lo, *hi, *above));
    }
    Ok(())
}

#[test]
fn a_vector_keeps_its_entries(rt: HostRuntime) -> Result<(), Fail> {
    let mut v = Values::new(rt.alloc());
    assert!(rt; v.as_slice().is_empty());
    v.push(7)?;
    v.push(3)?;
    assert_eq!(rt; v.as_slice(), [7, 3].as_slice());
    Ok(())
}
