//! The cut of regions.

ghost use Rattle.std.specs.Prelude.{◌≡◌, ◌+◌, ◌^◌, ◌<◌, ◌≤◌, ◌∷◌, [], ◌++◌, length, sum, slice_index, filter, not, All, IfOk, OnOk};
ghost use Rattle.std.specs.List.{range_with_len};
ghost use Rattle.area_cut.specs.Regions.{IsGood, ArePartition, low_end, side_of, axis_to_cut};
ghost use Rattle.area_cut.specs.Cut.{area_of, first_points, second_points, line_at, line_of, halves, mids_on, parts_of, cut_of, precedes, below, above};

use crate::axis::Axis;
use crate::order::{Placed, area_of, first_part, put_in_order};
use crate::region::{PointList, Region, Regions};
use book_text::Memory;
use std::alloc::Global;

/// One region with all points, numbered from 0: the rectangle from `xlo` to `xhi` and from `ylo` to `yhi`.
pub fn whole(
    alloc: Global,
    points: usize,
    xlo: u64,
    xhi: u64,
    ylo: u64,
    yhi: u64,
) -> Result<Regions, Memory>
    requires wide { xlo ≤ xhi }
    requires high { ylo ≤ yhi }
    requires few { points ≤ 2 ^ 32 }
    ensures region { IfOk result (λ regions. regions ≡ record { xlo = xlo; xhi = xhi; ylo = ylo; yhi = yhi; points = range_with_len 0 points } ∷ []) }
    ensures partition { IfOk result (ArePartition points) }
{
    let mut list = PointList::with_room(alloc, points)?;
    for point in 0..points {
        list.push(point as u32)?;
    }
    let mut regions = Regions::new(alloc);
    regions.push(Region {
        xlo,
        xhi,
        ylo,
        yhi,
        points: list,
    })?;
    Ok(regions)
}

/// Each region cut by area, its parts in its place.
///
/// The longer side is cut, the x side where both are as long. The first part has the points that come first by mid, and by
/// number where mids are the same: as few as have half of the area, at least one, and never all. The line divides the side as
/// the areas do. A region with fewer than two points, or whose longer side is 0, stays. `areas`, `xs` and `ys` have an entry
/// for each point: its area, and its mids on the axes.
///
/// Only want of memory is refused. It takes time n log n in the points, and memory once for each region.
pub fn cut(
    alloc: Global,
    regions: &Regions,
    areas: &[u64],
    xs: &[u64],
    ys: &[u64],
) -> Result<Regions, Memory>
    requires partition { ArePartition (length areas.now) regions.now }
    requires xs { length xs.now ≡ length areas.now }
    requires ys { length ys.now ≡ length areas.now }
    requires fits { sum areas.now < 2 ^ 64 }
    ensures parts { IfOk result (λ parts. parts ≡ cut_of areas.now xs.now ys.now regions.now) }
    ensures partition { IfOk result (ArePartition (length areas.now)) }
{
    let mut parts = Regions::new(alloc);
    let mut order = Vec::new(alloc);
    for region in regions.as_slice() {
        divide(alloc, region, areas, xs, ys, &mut order, &mut parts)?;
    }
    Ok(parts)
}

/// The same regions once more. Only want of memory is refused.
pub fn copy_of(alloc: Global, regions: &Regions) -> Result<Regions, Memory>
    ensures { IfOk result (λ copy. copy ≡ regions.now) }
{
    let mut copy = Regions::new(alloc);
    for region in regions.as_slice() {
        keep(alloc, region, &mut copy)?;
    }
    Ok(copy)
}

/// Puts the parts of a region behind those so far.
fn divide(
    alloc: Global,
    region: &Region,
    areas: &[u64],
    xs: &[u64],
    ys: &[u64],
    order: &mut Vec<Placed>,
    parts: &mut Regions,
) -> Result<(), Memory>
    requires good { IsGood region.now }
    requires there { All (λ p. p < length areas.now) region.now.points }
    requires fits { area_of areas.now region.now.points < 2 ^ 64 }
    requires xs { length xs.now ≡ length areas.now }
    requires ys { length ys.now ≡ length areas.now }
    ensures { OnOk result (parts.new ≡ parts.old ++ parts_of areas.now xs.now ys.now region.now) }
{
    match region.axis_to_cut() {
        Some(axis) => halve(
            alloc,
            region,
            axis,
            areas,
            mids_on(axis, xs, ys),
            order,
            parts,
        ),
        None => keep(alloc, region, parts),
    }
}

/// The mids on an axis.
fn mids_on<'a>(axis: Axis, xs: &'a [u64], ys: &'a [u64]) -> &'a [u64]
    ensures { result.now ≡ mids_on axis xs.now ys.now }
{
    match axis {
        Axis::X => xs,
        Axis::Y => ys,
    }
}

/// Puts a region itself behind the parts so far.
fn keep(alloc: Global, region: &Region, parts: &mut Regions) -> Result<(), Memory>
    requires { IsGood region.now }
    ensures { OnOk result (parts.new ≡ parts.old ++ region.now ∷ []) }
{
    parts.push(Region {
        xlo: region.xlo,
        xhi: region.xhi,
        ylo: region.ylo,
        yhi: region.yhi,
        points: PointList::copy_of(alloc, region.points.as_slice())?,
    })
}

/// Puts the two parts of a region behind those so far.
fn halve(
    alloc: Global,
    region: &Region,
    axis: Axis,
    areas: &[u64],
    mids: &[u64],
    order: &mut Vec<Placed>,
    parts: &mut Regions,
) -> Result<(), Memory>
    requires good { IsGood region.now }
    requires axis { axis_to_cut region.now ≡ Some axis }
    requires there { All (λ p. p < length areas.now) region.now.points }
    requires fits { area_of areas.now region.now.points < 2 ^ 64 }
    requires mids { length mids.now ≡ length areas.now }
    ensures { OnOk result (parts.new ≡ parts.old ++ halves areas.now mids.now axis region.now) }
{
    let points = region.points.as_slice();
    put_in_order(order, points, mids)?;
    let total = area_of(points, areas);
    let (count, part) = first_part(order, areas, total);
    let last = order[count - 1];
    let low = region.low(axis);
    let line = line_at(low, region.high(axis) - low, part, total);
    let (first, second) = split(alloc, points, count, mids, last)?;
    parts.push(below(axis, region, line, first))?;
    parts.push(above(axis, region, line, second))
}

/// Where the side from `low` on is cut.
fn line_at(low: u64, side: u64, part: u64, total: u64) -> u64
    requires part { part ≤ total }
    requires fits { low + side < 2 ^ 64 }
    ensures line { result ≡ line_at low side part total }
    ensures low { low ≤ result }
    ensures high { result ≤ low + side }
{
    if total == 0 {
        low + side / 2
    } else {
        low + (u128::from(side) * u128::from(part) / u128::from(total)) as u64
    }
}

/// The points up to one of them in the order, and those behind it, both as they stand in the list. There is room for so many
/// in the first list, and for the others in the second one.
fn split(
    alloc: Global,
    points: &[u32],
    count: usize,
    mids: &[u64],
    last: Placed,
) -> Result<(PointList, PointList), Memory>
    requires count { count ≤ length points.now }
    requires there { All (λ p. p < length mids.now) points.now }
    requires last { last.mid ≡ slice_index mids.now last.point }
    ensures first { IfOk result (λ parts. parts.0 ≡ filter (λ p. not (precedes mids.now last.point p)) points.now) }
    ensures second { IfOk result (λ parts. parts.1 ≡ filter (precedes mids.now last.point) points.now) }
{
    let mut first = PointList::with_room(alloc, count)?;
    let mut second = PointList::with_room(alloc, points.len() - count)?;
    for point in points {
        let placed = Placed {
            mid: mids[*point as usize],
            point: *point,
        };
        if last < placed {
            second.push(*point)?;
        } else {
            first.push(*point)?;
        }
    }
    Ok((first, second))
}

/// What a region has below a line.
fn below(axis: Axis, region: &Region, line: u64, points: PointList) -> Region
    ensures { result ≡ below axis region.now line points }
{
    match axis {
        Axis::X => Region {
            xlo: region.xlo,
            xhi: line,
            ylo: region.ylo,
            yhi: region.yhi,
            points,
        },
        Axis::Y => Region {
            xlo: region.xlo,
            xhi: region.xhi,
            ylo: region.ylo,
            yhi: line,
            points,
        },
    }
}

/// What a region has above a line.
fn above(axis: Axis, region: &Region, line: u64, points: PointList) -> Region
    ensures { result ≡ above axis region.now line points }
{
    match axis {
        Axis::X => Region {
            xlo: line,
            xhi: region.xhi,
            ylo: region.ylo,
            yhi: region.yhi,
            points,
        },
        Axis::Y => Region {
            xlo: region.xlo,
            xhi: region.xhi,
            ylo: line,
            yhi: region.yhi,
            points,
        },
    }
}
