//! The projection: from a network and regions to the system of a level on an axis.

ghost use Rattle.std.specs.Prelude.{◌≡◌, ℕ, ◌+◌, ◌*◌, ◌^◌, ◌<◌, ◌≤◌, ◌==◌, length, vec_len, map, slice_index, sum_by, filter, nat_eq, if◌then◌else◌, pos, neg_ℤ, ◌≤ℤ◌, IfOk, All};
ghost use Rattle.std.specs.List.{range_with_len, list_any};
ghost use Rattle.relax_system.specs.declared.valid.TheConstants.{MOST_COORDINATE};
ghost use Rattle.net_model.specs.declared.limits.TheConstants.{MOST_WEIGHT};
ghost use Rattle.pad_reach.specs.Chain.{HasChain};
ghost use Rattle.area_cut.specs.Regions.{AreWithin, ArePartition, home_of, region_of};
ghost use Rattle.net_model.specs.WellFormed.{IsGoodPin};
ghost use Rattle.net_model.specs.Webs.{joints_of};
ghost use Rattle.relax_system.specs.System.{joints_of as system_joints};
ghost use Rattle.level_run.specs.LevelSystem.{clamped, coordinate, place_of, inside, outside, as_neighbour, near_pull, pin_pull, level_point, level_system};
ghost use Rattle.level_run.specs.Levels.{HasChains};
ghost use Rattle.level_run.specs.Forms.Projection.{AreHomes, IsRange};

use area_cut::{Axis, Region, Regions, points_have_homes};
use book_text::{MOST_MICRO, Memory};
use net_model::{FixedPin, Network};
use relax_system::{Near, NearList, Point, Points, System};
use std::alloc::Global;

/// The system of a network on an axis, where each point has the range of its region as its box.
///
/// Coordinates are millionths shifted by `MOST_MICRO`, so that none is negative. A point's neighbours in its own region
/// are variables. All others are constants, and so are its fixed pins: a neighbour at its mid, clamped to its own region's
/// range and then to the point's, a fixed pin at its place, clamped to the point's range. `mids` has an entry for each point,
/// with those of the star points behind those of the movable nodes.
///
/// Only want of memory is refused. It takes time linear in the network's entries.
pub fn project(
    alloc: Global,
    network: &Network,
    axis: Axis,
    regions: &Regions,
    mids: &[u64],
) -> Result<System, Memory>
    requires partition { ArePartition (length network.now.points) regions.now }
    requires mids { length mids.now ≡ length network.now.points }
    requires ends { AreWithin MOST_COORDINATE regions.now }
    requires chains { HasChains network.now }
    ensures system { IfOk result (λ system. system ≡ level_system axis network.now regions.now mids.now) }
    ensures chains { IfOk result (λ system. (p : ℕ) → p < length system → HasChain (system_joints system) p) }
{
    points_have_homes();
    let homes = homes(alloc, regions.as_slice(), network.points())?;
    let mut points = Points::with_capacity(alloc, network.points())?;
    for p in 0..network.points() {
        points.push(level_point(alloc, network, axis, regions, &homes, mids, p as u32)?)?;
    }
    Ok(System::new(points))
}

/// The number of the region of each point.
fn homes(alloc: Global, regions: &[Region], points: usize) -> Result<Vec<usize>, Memory>
    requires { ArePartition points regions.now }
    ensures { IfOk result (λ homes. AreHomes points regions.now homes.items) }
{
    points_have_homes();
    let mut homes = vec![in alloc; 0; points]?;
    for (number, region) in regions.iter().enumerate() {
        settle(&mut homes, region.points.as_slice(), number);
    }
    Ok(homes)
}

/// Writes the number of a region at each of its points.
fn settle(homes: &mut Vec<usize>, points: &[u32], number: usize)
    requires { All (λ p. p < vec_len homes.old) points.now }
    ensures long { vec_len homes.new ≡ vec_len homes.old }
    ensures settled { (p : ℕ) → slice_index homes.new.items p
        ≡ (if list_any (nat_eq p) points.now then number else slice_index homes.old.items p) }
{
    for point in points {
        homes[*point as usize] = number;
    }
}

/// A coordinate, clamped to a region's range.
fn clamped(axis: Axis, region: &Region, at: u64) -> u64
    ensures { result ≡ clamped axis region.now at }
{
    at.min(region.high(axis)).max(region.low(axis))
}

/// A place in millionths as a coordinate, and 0 where it would be below that.
pub(crate) fn coordinate(at: i64) -> u64
    requires low { neg_ℤ (pos (3 * MOST_MICRO)) ≤ℤ at }
    requires high { at ≤ℤ pos (3 * MOST_MICRO) }
    ensures { result ≡ coordinate at }
{
    let shifted = at + MOST_MICRO as i64;
    if shifted < 0 { 0 } else { shifted as u64 }
}

/// Where a fixed pin stands on the axis.
fn place_of(axis: Axis, pin: &FixedPin) -> i64
    ensures { result ≡ place_of axis pin.now }
{
    match axis {
        Axis::X => pin.x,
        Axis::Y => pin.y,
    }
}

/// The point of that number: its neighbours in its region, and the weights and pulls of all others and of its pins.
fn level_point(
    alloc: Global,
    network: &Network,
    axis: Axis,
    regions: &Regions,
    homes: &[usize],
    mids: &[u64],
    p: u32,
) -> Result<Point, Memory>
    requires there { p < length network.now.points }
    requires homes { AreHomes (length network.now.points) regions.now homes.now }
    requires mids { length mids.now ≡ length network.now.points }
    requires ends { AreWithin MOST_COORDINATE regions.now }
    ensures { IfOk result (λ point. point ≡ level_point axis network.now regions.now mids.now p) }
{
    let regions = regions.as_slice();
    let region = &regions[homes[p as usize]];
    let parts = near_parts(alloc, axis, regions, homes, mids, p, network.near(p))?;
    let (fixed, fixed_pull) = pin_constants(axis, region, network.pins(p));
    Ok(Point {
        lo: region.low(axis),
        hi: region.high(axis),
        near: parts.variables,
        anchor: parts.anchor + fixed,
        anchored: parts.pull + fixed_pull,
    })
}

/// What a point's neighbours give it.
#[derive(Drop)]
struct NearParts {
    /// Those in its own region, as those of a system's point.
    variables: NearList,
    /// The weight of all others.
    anchor: u64,
    /// The sum of weight times place over all others.
    pull: u128,
}

/// What a point's neighbours give it. Those of its own region are counted first, so that their list takes no more than it needs.
fn near_parts(
    alloc: Global,
    axis: Axis,
    regions: &[Region],
    homes: &[usize],
    mids: &[u64],
    p: u32,
    near: &[net_model::Near],
) -> Result<NearParts, Memory>
    requires there { p < length mids.now }
    requires points { All (λ n. n.point < length mids.now) near.now }
    requires homes { AreHomes (length mids.now) regions.now homes.now }
    requires range { IsRange axis (region_of regions.now p) }
    requires light { sum_by (λ n. n.weight) near.now ≤ MOST_WEIGHT }
    ensures variables { IfOk result (λ parts. parts.variables ≡ map as_neighbour (inside regions.now p near.now)) }
    ensures anchor { IfOk result (λ parts. parts.anchor ≡ sum_by (λ n. n.weight) (outside regions.now p near.now)) }
    ensures pull { IfOk result (λ parts. parts.pull ≡ near_pull axis regions.now mids.now (region_of regions.now p) (outside regions.now p near.now)) }
{
    let home = homes[p as usize];
    let region = &regions[home];
    let mut variables = NearList::with_capacity(alloc, count_at(homes, home, near))?;
    let mut anchor = 0;
    let mut pull = 0;
    for entry in near {
        let other = homes[entry.point as usize];
        if other == home {
            variables.push(Near {
                point: entry.point,
                weight: entry.weight,
            })?;
        } else {
            let stand = clamped(axis, &regions[other], mids[entry.point as usize]);
            anchor += entry.weight;
            pull += u128::from(entry.weight) * u128::from(clamped(axis, region, stand));
        }
    }
    Ok(NearParts {
        variables,
        anchor,
        pull,
    })
}

/// How many neighbours have this home.
fn count_at(homes: &[usize], home: usize, near: &[net_model::Near]) -> usize
    requires { All (λ n. n.point < length homes.now) near.now }
    ensures { result ≡ length (filter (λ n. slice_index homes.now n.point == home) near.now) }
{
    let mut count = 0;
    for entry in near {
        if homes[entry.point as usize] == home {
            count += 1;
        }
    }
    count
}

/// The weight of the fixed pins, and the sum of weight times place.
fn pin_constants(axis: Axis, region: &Region, pins: &[FixedPin]) -> (u64, u128)
    requires good { All IsGoodPin pins.now }
    requires range { IsRange axis region.now }
    requires light { sum_by (λ pin. pin.weight) pins.now ≤ MOST_WEIGHT }
    ensures anchor { result.0 ≡ sum_by (λ pin. pin.weight) pins.now }
    ensures pull { result.1 ≡ pin_pull axis region.now pins.now }
{
    let mut anchor = 0;
    let mut pull = 0;
    for pin in pins {
        anchor += pin.weight;
        pull += u128::from(pin.weight)
            * u128::from(clamped(axis, region, coordinate(place_of(axis, pin))));
    }
    (anchor, pull)
}
