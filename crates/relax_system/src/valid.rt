//! The rule of a valid system, and its limits.

ghost use Rattle.std.specs.Prelude.{◌≡◌, ℕ, ◌*◌, ◌<◌, ◌≤◌, ◌↔◌, length, All, IsTrue};
ghost use Rattle.relax_system.specs.System.{IsValid, IsValidPoint, IsValidNear, point_at, total_weight};

use crate::points::{Near, Point};

/// The most points that a system may have.
pub const MOST_POINTS: usize = 2_097_152;

/// The greatest coordinate that a box may reach.
pub const MOST_COORDINATE: u64 = 2_000_000_000_000;

/// The greatest total weight of a point: its neighbours' weights and its constants' together.
pub const MOST_WEIGHT: u64 = 1 << 40;

/// Whether the points make a valid system. It takes no memory.
pub fn is_valid(points: &[Point]) -> bool
    ensures { IsTrue result ↔ IsValid points.now }
{
    points.len() <= MOST_POINTS && are_valid_points(points)
}

/// Whether each of the points may stand among them.
fn are_valid_points(points: &[Point]) -> bool
    ensures { IsTrue result ↔ ((i : ℕ) → i < length points.now → IsValidPoint points.now i (point_at points.now i)) }
{
    for i in 0..points.len() {
        if !is_valid_point(points, i) {
            return false;
        }
    }
    true
}

/// Whether the point of that number may stand among the points.
fn is_valid_point(points: &[Point], i: usize) -> bool
    requires { i < length points.now }
    ensures { IsTrue result ↔ IsValidPoint points.now i (point_at points.now i) }
{
    let point = &points[i];
    let weight = point.total_weight();
    point.lo <= point.hi
        && point.hi <= MOST_COORDINATE
        && 1 <= weight
        && weight <= MOST_WEIGHT
        && is_valid_anchor(point)
        && are_valid_near(points, i, point.near.as_slice())
}

/// Whether the anchored sum is one of constants in the point's box.
fn is_valid_anchor(point: &Point) -> bool
    ensures { IsTrue result
        ↔ ((point.now.anchor * point.now.lo ≤ point.now.anchored) × (point.now.anchored ≤ point.now.anchor * point.now.hi)) }
{
    let anchor = u128::from(point.anchor);
    anchor * u128::from(point.lo) <= point.anchored
        && point.anchored <= anchor * u128::from(point.hi)
}

/// Whether each of the neighbours may be one of the point `i`.
fn are_valid_near(points: &[Point], i: usize, near: &[Near]) -> bool
    requires { i < length points.now }
    ensures { IsTrue result ↔ All (IsValidNear points.now i) near.now }
{
    near.iter().all(|entry| is_valid_near(points, i, entry))
}

/// Whether the neighbour may be one of the point `i`: another point with the same box, and a weight.
fn is_valid_near(points: &[Point], i: usize, near: &Near) -> bool
    requires { i < length points.now }
    ensures { IsTrue result ↔ IsValidNear points.now i near.now }
{
    let other = near.point as usize;
    other < points.len()
        && other != i
        && points[other].lo == points[i].lo
        && points[other].hi == points[i].hi
        && 1 <= near.weight
}
