//! Certificates that were worked by hand.

use crate::samples::{PAIR, Row, WIDE, is_boxed, system_of};
use fix_cert::{Side2, Verdict, check};
use std::test::Fail;

/// A point with the constant 2 before the two of `PAIR`.
const TRIPLE: [Row; 3] = [
    (0, 3, &[], 1, 2),
    (0, 3, &[(2, 1)], 1, 0),
    (0, 3, &[(1, 1)], 1, 3),
];

/// Two points that are joined to each other and to nothing else.
const LOOSE: [Row; 2] = [(0, 9, &[(1, 1)], 0, 0), (0, 9, &[(0, 1)], 0, 0)];

/// Systems with two vectors, and what their certificate says.
const CHECKED: &[(&[Row], &[u64], &[u64], Verdict)] = &[
    (&[], &[], &[], Verdict::Encloses { gap: 0, worst: 0 }),
    (
        &PAIR,
        &[0, 1],
        &[2, 3],
        Verdict::Encloses { gap: 2, worst: 1 },
    ),
    (
        &PAIR,
        &[1, 2],
        &[1, 2],
        Verdict::Encloses { gap: 0, worst: 0 },
    ),
    (
        &TRIPLE,
        &[2, 0, 1],
        &[2, 2, 3],
        Verdict::Encloses { gap: 2, worst: 1 },
    ),
    // the residual of the lower vector is the greater one, and then that of the upper one
    (
        &[(0, 3, &[], 3, 5)],
        &[1],
        &[2],
        Verdict::Encloses { gap: 1, worst: 2 },
    ),
    (
        &[(0, 3, &[], 3, 4)],
        &[1],
        &[2],
        Verdict::Encloses { gap: 1, worst: 2 },
    ),
    // without a chain to an anchor the lower vector may lie above the upper one
    (
        &LOOSE,
        &[5, 5],
        &[2, 2],
        Verdict::Encloses { gap: 0, worst: 0 },
    ),
    (
        &WIDE,
        &[666_666_666_666, 1_333_333_333_333],
        &[666_666_666_667, 1_333_333_333_334],
        Verdict::Encloses {
            gap: 1,
            worst: 1 << 38,
        },
    ),
    (
        &PAIR,
        &[0, 0],
        &[2, 3],
        Verdict::Broken {
            point: 1,
            side: Side2::Lower,
        },
    ),
    (
        &PAIR,
        &[0, 1],
        &[1, 1],
        Verdict::Broken {
            point: 1,
            side: Side2::Upper,
        },
    ),
    // both sides of a point, and the upper side of the point before
    (
        &PAIR,
        &[1, 1],
        &[3, 3],
        Verdict::Broken {
            point: 0,
            side: Side2::Lower,
        },
    ),
    (
        &PAIR,
        &[0, 0],
        &[3, 3],
        Verdict::Broken {
            point: 0,
            side: Side2::Upper,
        },
    ),
    (
        &WIDE,
        &[666_666_666_666, 1_333_333_333_333],
        &[666_666_666_668, 1_333_333_333_334],
        Verdict::Broken {
            point: 0,
            side: Side2::Upper,
        },
    ),
];

#[test]
fn certifies(rt: HostRuntime) -> Result<(), Fail> {
    for (rows, lo, hi, verdict) in CHECKED {
        let system = system_of(&rt, rt.alloc(), rows)?;
        assert!(rt; is_boxed(&system, lo) && is_boxed(&system, hi));
        assert_eq!(rt; check(&rt, rt.alloc(), &system, lo, hi)?, *verdict);
    }
    Ok(())
}
