//! Systems to be tested on, as rows of numbers.

ghost use Rattle.std.specs.Prelude.{◌≡◌, length, IsTrue, IfOk};
ghost use Rattle.relax_system.specs.Means.{InBoxes};

use book_text::Memory;
use relax_system::{Near, NearList, Point, Points, System, is_valid};
use std::alloc::Global;
use std::process::Abort;

/// A point to be: the ends of its box, its neighbours with weights, its anchor, its anchored sum.
pub(crate) type Row = (u64, u64, &'static [(u32, u64)], u64, u128);

/// Two points in the box from 0 to 3, joined, one with a constant 0 and one with a constant 3.
pub(crate) const PAIR: [Row; 2] = [(0, 3, &[(1, 1)], 1, 0), (0, 3, &[(0, 1)], 1, 3)];

/// Two points whose sums pass 64 bits.
pub(crate) const WIDE: [Row; 2] = [
    (0, 2_000_000_000_000, &[(1, 1 << 38)], 1 << 38, 0),
    (
        0,
        2_000_000_000_000,
        &[(0, 1 << 38)],
        1 << 38,
        (1 << 38) * 2_000_000_000_000,
    ),
];

/// The points of these rows.
pub(crate) fn points_of(alloc: Global, rows: &[Row]) -> Result<Points, Memory> {
    let mut points = Points::with_capacity(alloc, rows.len())?;
    for (lo, hi, entries, anchor, anchored) in rows {
        points.push(Point {
            lo: *lo,
            hi: *hi,
            near: near_of(alloc, entries)?,
            anchor: *anchor,
            anchored: *anchored,
        })?;
    }
    Ok(points)
}

/// Neighbours with weights.
fn near_of(alloc: Global, entries: &[(u32, u64)]) -> Result<NearList, Memory> {
    let mut near = NearList::with_capacity(alloc, entries.len())?;
    for (point, weight) in entries {
        near.push(Near {
            point: *point,
            weight: *weight,
        })?;
    }
    Ok(near)
}

/// The system of these rows, which are valid.
pub(crate) fn system_of(rt: &impl Abort, alloc: Global, rows: &[Row]) -> Result<System, Memory>
    ensures { IfOk result (λ s. length s ≡ length rows.now) }
{
    let points = points_of(alloc, rows)?;
    assert!(rt; is_valid(points.as_slice()));
    assert!(rt; points.as_slice().len() == rows.len());
    Ok(System::new(points))
}

/// A chain of points in the box from 0 to `top`, neighbours joined with weight 1. The first point has a constant 0, and the
/// last one, which is another, a constant `top`.
pub(crate) fn chain_of(
    rt: &impl Abort,
    alloc: Global,
    count: u32,
    top: u64,
) -> Result<System, Memory> {
    let mut points = Points::new(alloc);
    for i in 0..count {
        let last = count - 1;
        points.push(Point {
            lo: 0,
            hi: top,
            near: beside(alloc, i, last)?,
            anchor: u64::from(i == 0 || i == last),
            anchored: if i == last { u128::from(top) } else { 0 },
        })?;
    }
    assert!(rt; is_valid(points.as_slice()));
    Ok(System::new(points))
}

/// The neighbours of a point of a chain.
fn beside(alloc: Global, i: u32, last: u32) -> Result<NearList, Memory> {
    let mut near = NearList::new(alloc);
    if 0 < i {
        near.push(Near {
            point: i - 1,
            weight: 1,
        })?;
    }
    if i < last {
        near.push(Near {
            point: i + 1,
            weight: 1,
        })?;
    }
    Ok(near)
}

/// Whether the vector has an entry per point, each in its box.
pub(crate) fn is_boxed(system: &System, v: &[u64]) -> bool
    ensures { IsTrue result → InBoxes system.now v.now }
{
    v.len() == system.points()
        && (0..v.len()).all(|i| system.point(i).lo <= v[i] && v[i] <= system.point(i).hi)
}
