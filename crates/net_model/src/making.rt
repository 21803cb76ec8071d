//! From a design to its network.

ghost use Rattle.std.specs.Prelude.{◌≡◌, ℕ, ◌^◌, ◌<◌, ◌≤◌, length, map, slice_index, All, IfOk, MatchOption};
ghost use Rattle.book_design.specs.Faults.{IsFirst};
ghost use Rattle.book_design.specs.WellFormed.{IsDesign};
ghost use Rattle.net_model.specs.Answers.{Answers};
ghost use Rattle.net_model.specs.Network.{network_of, total_weight, terms};
ghost use Rattle.net_model.specs.Star.{star_nets};
ghost use Rattle.net_model.specs.Forms.Steps.{IsUnmarked, Counts, IsUnsummed, summed, IsHeavyPoint};
ghost use Rattle.net_model.specs.Values.{point_entry, point_values};

use crate::clique::Clique;
use crate::counting::{NetCount, count_nets};
use crate::fault::{NetError, NetFault};
use crate::joining::joined_points;
use crate::limits::{MOST_TERMS, MOST_WEIGHT};
use crate::merging::merge;
use crate::model::Network;
use crate::point::NetPoint;
use crate::starring::join_stars;
use book_design::Design;
use std::alloc::{AllocError, Global};

/// The network of a design, or the first fault of its nets.
///
/// It takes time linear in nodes and pins, and t log t in the pair terms t. That they are too many is
/// found before memory is taken for them.
pub fn network(alloc: Global, design: &Design<'_>) -> Result<Network, NetError>
    ensures { Answers design.now result }
{
    let mut clique = Clique::new(alloc, design.nodes().len())?;
    let count = count_nets(alloc, design, &mut clique)?;
    if count.terms > MOST_TERMS {
        return Err(NetError::Fault(NetFault::TooManyEdges(count.terms)));
    }
    network_of_few(alloc, design, &mut clique, count)
}

/// The net of a star point of a design, by the number of star points before it.
///
/// It takes time linear in nodes and pins.
pub fn star_net(alloc: Global, design: &Design<'_>, star: u32) -> Result<u32, AllocError>
    requires { star < length (star_nets design.now) }
    ensures { IfOk result (λ net. net ≡ slice_index (star_nets design.now) star) }
{
    let mut clique = Clique::new(alloc, design.nodes().len())?;
    let count = count_nets(alloc, design, &mut clique)?;
    Ok(count.stars[star as usize])
}

/// The network of a design without too many pair terms, or its first heavy point.
fn network_of_few(
    alloc: Global,
    design: &Design<'_>,
    clique: &mut Clique,
    count: NetCount,
) -> Result<Network, NetError>
    requires unmarked { IsUnmarked (length design.now.nodes) clique.old.seen.items }
    requires few { terms design.now ≤ MOST_TERMS }
    requires counted { Counts design.now count }
    ensures { Answers design.now result }
{
    let core = design.core();
    let points = summed_points(alloc, design, clique, &count)?;
    match first_heavy(&points) {
        Some(point) => Err(NetError::Fault(NetFault::Heavy(point))),
        None => Ok(Network::new(points, count.stars, core)),
    }
}

/// The points of the network of a design, whatever they weigh.
fn summed_points(
    alloc: Global,
    design: &Design<'_>,
    clique: &mut Clique,
    count: &NetCount,
) -> Result<Vec<NetPoint>, AllocError>
    requires valid { IsDesign design.now }
    requires unmarked { IsUnmarked (length design.now.nodes) clique.old.seen.items }
    requires counted { Counts design.now count.now }
    ensures { IfOk result
        (λ points. point_values points.items ≡ (network_of design.now).points) }
{
    let mut points = joined_points(alloc, design, clique, count)?;
    join_stars(alloc, design, clique, &count.stars, &mut points)?;
    merge_entries(&mut points);
    Ok(points)
}

/// Puts the sum of the entries of each pair of points in their place.
fn merge_entries(points: &mut [NetPoint])
    requires { All (IsUnsummed (length points.old)) (point_values points.old) }
    ensures { point_values points.new ≡ map (summed (length points.old)) (point_values points.old) }
{
    for point in points.iter_mut() {
        merge(&mut point.near);
    }
}

/// The first of the points whose total weight is too much.
fn first_heavy(points: &[NetPoint]) -> Option<u32>
    requires few { length points.now < 2 ^ 32 }
    requires light { All (λ point. total_weight point < 2 ^ 64) (point_values points.now) }
    ensures { MatchOption result
        ((p : ℕ) → IsHeavyPoint (point_values points.now) p → ⊥)
        (IsFirst (IsHeavyPoint (point_values points.now))) }
{
    for (p, point) in points.iter().enumerate() {
        if total_weight(point) > MOST_WEIGHT {
            return Some(p as u32);
        }
    }
    None
}

/// What the edges of a point weigh together.
fn total_weight(point: &NetPoint) -> u64
    requires { total_weight (point_entry point.now) < 2 ^ 64 }
    ensures { result ≡ total_weight (point_entry point.now) }
{
    let near: u64 = point.near.iter().map(|near| near.weight).sum();
    let pins: u64 = point.pins.iter().map(|pin| pin.weight).sum();
    near + pins
}
