//! What the cliques of a design give its points, one net after another.

ghost use Rattle.std.specs.Prelude.{◌≡◌, ◌≢◌, ℕ, ◌/◌, ◌<◌, ◌↔◌, IsTrue, true, [], ◌∷◌, length, slice_index};
ghost use Rattle.std.specs.Prelude.{All, IfOk, OnOk, pos, nat_abs, ◌+ℤ◌, ◌≤ℤ◌};
ghost use Rattle.book_files.specs.Ranges.{IsInRange};
ghost use Rattle.book_design.specs.Values.{node_value};
ghost use Rattle.book_design.specs.Points.{is_movable};
ghost use Rattle.book_design.specs.WellFormed.{IsGoodPin};
ghost use Rattle.net_model.specs.Numbered.{node_at, point_nodes};
ghost use Rattle.net_model.specs.Values.{point_entry, point_values};
ghost use Rattle.net_model.specs.Forms.Steps.{IsUnmarked, Counts, AreJoined};
ghost use Rattle.net_model.specs.Forms.Joining.{AreDistinct, fixed_pin, paired_point, ArePaired};

use crate::clique::{Clique, share};
use crate::counting::NetCount;
use crate::parts::{FixedPin, Near};
use crate::point::NetPoint;
use book_design::{Design, Node, Pin};
use std::alloc::{AllocError, Global};

/// The points of the movable nodes with what all cliques give them: each pair of a net is an entry of its own.
pub(crate) fn joined_points(
    alloc: Global,
    design: &Design<'_>,
    clique: &mut Clique,
    count: &NetCount,
) -> Result<Vec<NetPoint>, AllocError>
    requires unmarked { IsUnmarked (length design.now.nodes) clique.old.seen.items }
    requires counted { Counts design.now count.now }
    ensures joined { IfOk result (λ points. AreJoined design.now design.now.nets
        (point_values points.items)) }
    ensures unmarked { OnOk result (IsUnmarked (length design.now.nodes) clique.new.seen.items) }
{
    let mut points = unjoined_points(alloc, design, &count.rooms)?;
    let mut stars = 0;
    for (n, net) in design.nets().iter().enumerate() {
        if is_next(&count.stars, stars, n) {
            // A wide net has no pairs.
            stars += 1;
            continue;
        }
        clique.gather(net.pins.as_slice())?;
        let weight = share(net.weight, clique.pins.len());
        if weight > 0 {
            pair_members(design, &clique.pins, weight, &mut points)?;
        }
    }
    Ok(points)
}

/// Whether a net is that one of these wide nets that comes behind so many of them.
fn is_next(wide: &[u32], passed: usize, net: usize) -> bool
    ensures { IsTrue result ↔ (passed < length wide.now) × (slice_index wide.now passed ≡ net) }
{
    passed < wide.len() && wide[passed] as usize == net
}

/// The points that no net has given anything. Each has room for so many neighbours as stand for its node.
fn unjoined_points(
    alloc: Global,
    design: &Design<'_>,
    rooms: &[usize],
) -> Result<Vec<NetPoint>, AllocError>
    requires { length rooms.now ≡ length design.now.nodes }
    ensures { IfOk result (λ points. AreJoined design.now [] (point_values points.items)) }
{
    let mut points = Vec::new(alloc);
    for (i, node) in design.nodes().iter().enumerate() {
        if !node.fixed {
            let near = Vec::with_capacity(alloc, rooms[i])?;
            let pins = Vec::new(alloc);
            let area = design.sites_of(points.len() as u32);
            points.push(NetPoint { near, pins, area })?;
        }
    }
    Ok(points)
}

/// Gives each point among the members of a net a pair with each other member.
fn pair_members(
    design: &Design<'_>,
    members: &[Pin],
    weight: u64,
    points: &mut [NetPoint],
) -> Result<(), AllocError>
    requires good { All (IsGoodPin (length design.now.nodes)) members.now }
    requires distinct { AreDistinct members.now }
    requires counted { length points.old ≡ length (point_nodes design.now) }
    ensures { OnOk result (ArePaired design.now weight members.now
        (point_values points.old) (point_values points.new)) }
{
    for pin in members {
        if let Some(number) = design.point_of(pin.node) {
            let point = &mut points[number as usize];
            pair_point(design, members, weight, pin.node, point)?;
        }
    }
    Ok(())
}

/// Gives the point of a node a pair with each member of a net that is another node.
fn pair_point(
    design: &Design<'_>,
    members: &[Pin],
    weight: u64,
    node: u32,
    point: &mut NetPoint,
) -> Result<(), AllocError>
    requires good { All (IsGoodPin (length design.now.nodes)) members.now }
    requires movable { is_movable (node_at design.now node) ≡ true }
    ensures { OnOk result (point_entry point.new
        ≡ paired_point design.now weight members.now node (point_entry point.old)) }
{
    for pin in members {
        if pin.node != node {
            pair_with(design, pin, weight, point)?;
        }
    }
    Ok(())
}

/// Gives a point a pair with a pin's node, or a star point a spoke to it: a neighbour where that is
/// movable, else a fixed pin.
pub(crate) fn pair_with(
    design: &Design<'_>,
    pin: &Pin,
    weight: u64,
    point: &mut NetPoint,
) -> Result<(), AllocError>
    requires good { IsGoodPin (length design.now.nodes) pin.now }
    ensures { OnOk result ((i : ℕ) → pin.now.node ≢ i → point_entry point.new
        ≡ paired_point design.now weight (pin.now ∷ []) i (point_entry point.old)) }
{
    match design.point_of(pin.node) {
        Some(other) => {
            let near = Near {
                point: other,
                weight,
            };
            point.near.push(near)?;
        }
        None => {
            let node = &design.nodes()[pin.node as usize];
            point.pins.push(fixed_pin(node, pin, weight))?;
        }
    }
    Ok(())
}

/// Where a pin of a fixed node stands, with the weight of its pairs or of its spoke.
fn fixed_pin(node: &Node<'_>, pin: &Pin, weight: u64) -> FixedPin
    requires x { IsInRange node.now.x }
    requires y { IsInRange node.now.y }
    requires width { IsInRange node.now.width }
    requires height { IsInRange node.now.height }
    requires width_sign { pos 0 ≤ℤ node.now.width }
    requires height_sign { pos 0 ≤ℤ node.now.height }
    requires dx { IsInRange pin.now.dx }
    requires dy { IsInRange pin.now.dy }
    ensures { result ≡ fixed_pin weight (node_value node.now) pin.now }
{
    FixedPin {
        weight,
        x: middle(node.x, node.width) + pin.dx,
        y: middle(node.y, node.height) + pin.dy,
    }
}

/// The middle of a length that begins at a corner, rounded down.
fn middle(corner: i64, size: i64) -> i64
    requires corner { IsInRange corner }
    requires size { IsInRange size }
    requires sign { pos 0 ≤ℤ size }
    ensures { result ≡ (corner +ℤ pos (nat_abs size / 2)) }
{
    corner + (size.unsigned_abs() / 2) as i64
}
