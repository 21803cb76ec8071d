//! The star points of wide nets: each is joined to the nodes of its net by spokes.

ghost use Rattle.std.specs.Prelude.{◌≡◌, ◌≤◌, length, All, IfOk, OnOk};
ghost use Rattle.book_design.specs.WellFormed.{IsGoodPin};
ghost use Rattle.net_model.specs.Numbered.{point_nodes};
ghost use Rattle.net_model.specs.Star.{star_nets};
ghost use Rattle.net_model.specs.Values.{point_entry, point_values};
ghost use Rattle.net_model.specs.Forms.Steps.{IsUnmarked};
ghost use Rattle.net_model.specs.Forms.Joining.{AreDistinct};
ghost use Rattle.net_model.specs.Forms.Stars.{star_point, AreSpoked, AreStarred};

use crate::clique::{Clique, spoke};
use crate::joining::pair_with;
use crate::parts::Near;
use crate::point::NetPoint;
use book_design::{Design, Pin};
use std::alloc::{AllocError, Global};

/// Adds a star point for each wide net to the points, and its spokes to the points of its nodes.
pub(crate) fn join_stars(
    alloc: Global,
    design: &Design<'_>,
    clique: &mut Clique,
    stars: &[u32],
    points: &mut Vec<NetPoint>,
) -> Result<(), AllocError>
    requires unmarked { IsUnmarked (length design.now.nodes) clique.old.seen.items }
    requires stars { stars.now ≡ star_nets design.now }
    requires counted { length points.old.items ≡ length (point_nodes design.now) }
    ensures { OnOk result (AreStarred design.now
        (point_values points.old.items) (point_values points.new.items)) }
{
    for n in stars {
        let net = &design.nets()[*n as usize];
        clique.gather(net.pins.as_slice())?;
        let weight = spoke(net.weight, clique.pins.len());
        let number = points.len() as u32;
        spoke_members(design, &clique.pins, weight, number, points.as_mut_slice())?;
        points.push(star_point(alloc, design, &clique.pins, weight)?)?;
    }
    Ok(())
}

/// Gives each point among the members of a net its spoke to the star point of this number.
fn spoke_members(
    design: &Design<'_>,
    members: &[Pin],
    weight: u64,
    number: u32,
    points: &mut [NetPoint],
) -> Result<(), AllocError>
    requires good { All (IsGoodPin (length design.now.nodes)) members.now }
    requires distinct { AreDistinct members.now }
    requires counted { length (point_nodes design.now) ≤ length points.old }
    ensures { OnOk result (AreSpoked design.now weight number members.now
        (point_values points.old) (point_values points.new)) }
{
    for pin in members {
        if let Some(point) = design.point_of(pin.node) {
            points[point as usize].near.push(Near {
                point: number,
                weight,
            })?;
        }
    }
    Ok(())
}

/// The star point of a net: a neighbour for each movable member, and a fixed pin for each other one.
fn star_point(
    alloc: Global,
    design: &Design<'_>,
    members: &[Pin],
    weight: u64,
) -> Result<NetPoint, AllocError>
    requires { All (IsGoodPin (length design.now.nodes)) members.now }
    ensures { IfOk result (λ point. point_entry point ≡ star_point design.now weight members.now) }
{
    let mut point = NetPoint {
        near: Vec::new(alloc),
        pins: Vec::new(alloc),
        area: 0,
    };
    for pin in members {
        pair_with(design, pin, weight, &mut point)?;
    }
    Ok(point)
}
