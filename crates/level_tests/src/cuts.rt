//! Cuts that were worked by hand.

ghost use Rattle.std.specs.Prelude.{◌≡◌, ◌^◌, ◌<◌, ◌≤◌, length, sum, IsTrue};

use area_cut::{Regions, cut, parts_share, whole};
use book_text::Memory;
use std::alloc::Global;
use std::process::Abort;
use std::test::Fail;

/// A region to be: its ends on x and on y, and its points.
pub(crate) type Row = (u64, u64, u64, u64, &'static [u32]);

/// A cut by hand: the ends of the region of all points, areas, mids on x and on y, how often it is cut, and what comes of it.
type Cut = (
    (u64, u64),
    &'static [u64],
    &'static [u64],
    &'static [u64],
    usize,
    &'static [Row],
);

const CUTS: &[Cut] = &[
    // two points with the same mid: the one of the lower number comes first
    (
        (10_000_000, 10_000_000),
        &[2, 2],
        &[5_000_000, 5_000_000],
        &[5_000_000, 5_000_000],
        1,
        &[
            (0, 5_000_000, 0, 10_000_000, &[0]),
            (5_000_000, 10_000_000, 0, 10_000_000, &[1]),
        ],
    ),
    // the front with half of the area is all points, so the last one is left out
    (
        (10, 10),
        &[1, 1, 4],
        &[1, 2, 3],
        &[0, 0, 0],
        1,
        &[(0, 3, 0, 10, &[0, 1]), (3, 10, 0, 10, &[2])],
    ),
    // the first point alone has half of the area, and is the last by number
    (
        (10, 10),
        &[1, 1, 4],
        &[3, 2, 1],
        &[0, 0, 0],
        1,
        &[(0, 6, 0, 10, &[2]), (6, 10, 0, 10, &[0, 1])],
    ),
    // the y side is longer, and its mids count
    (
        (9, 10),
        &[1, 1],
        &[0, 9],
        &[9, 0],
        1,
        &[(0, 9, 0, 5, &[1]), (0, 9, 5, 10, &[0])],
    ),
    // without area the side is halved, rounded down
    (
        (5, 0),
        &[0, 0, 0],
        &[1, 2, 3],
        &[0, 0, 0],
        1,
        &[(0, 2, 0, 0, &[0]), (2, 5, 0, 0, &[1, 2])],
    ),
    // a region without sides stays, and so does one with a single point, or none
    (
        (0, 0),
        &[1, 1],
        &[0, 0],
        &[0, 0],
        2,
        &[(0, 0, 0, 0, &[0, 1])],
    ),
    ((9, 9), &[7], &[1], &[1], 2, &[(0, 9, 0, 9, &[0])]),
    ((9, 9), &[], &[], &[], 2, &[(0, 9, 0, 9, &[])]),
    // the parts of each region stand in its place
    (
        (8, 8),
        &[1, 1, 1, 1],
        &[1, 1, 5, 5],
        &[5, 1, 1, 5],
        2,
        &[
            (0, 4, 0, 4, &[1]),
            (0, 4, 4, 8, &[0]),
            (4, 8, 0, 4, &[2]),
            (4, 8, 4, 8, &[3]),
        ],
    ),
];

/// One region of all points, from 0 to the two ends, cut as often as asked.
fn cut_often(
    alloc: Global,
    ends: (u64, u64),
    areas: &[u64],
    xs: &[u64],
    ys: &[u64],
    times: usize,
) -> Result<Regions, Memory>
    requires few { length areas.now ≤ 2 ^ 32 }
    requires xs { length xs.now ≡ length areas.now }
    requires ys { length ys.now ≡ length areas.now }
    requires fits { sum areas.now < 2 ^ 64 }
{
    parts_share();
    let mut regions = whole(alloc, areas.len(), 0, ends.0, 0, ends.1)?;
    let _regions = regions.as_slice();
    for _ in 0..times {
        regions = cut(alloc, &regions, areas, xs, ys)?;
    }
    Ok(regions)
}

/// Whether the areas add up to less than 2^64.
fn is_light(areas: &[u64]) -> bool
    ensures { IsTrue result → sum areas.now < 2 ^ 64 }
{
    let mut total: u64 = 0;
    for area in areas {
        let Some(more) = total.checked_add(*area) else {
            return false;
        };
        total = more;
    }
    true
}

/// The regions are exactly these.
pub(crate) fn are(rt: &impl Abort, regions: &Regions, rows: &[Row]) {
    let regions = regions.as_slice();
    assert_eq!(rt; regions.len(), rows.len());
    for (region, (xlo, xhi, ylo, yhi, points)) in regions.iter().zip(rows) {
        assert_eq!(rt;
            (region.xlo, region.xhi, region.ylo, region.yhi),
            (*xlo, *xhi, *ylo, *yhi)
        );
        assert!(rt; region.points.as_slice() == *points);
    }
}

#[test]
fn regions_are_cut(rt: HostRuntime) -> Result<(), Fail> {
    for (ends, areas, xs, ys, times, rows) in CUTS {
        assert!(rt; areas.len() <= 4 && xs.len() == areas.len() && ys.len() == areas.len());
        assert!(rt; is_light(areas));
        are(
            &rt,
            &cut_often(rt.alloc(), *ends, areas, xs, ys, *times)?,
            rows,
        );
    }
    Ok(())
}
