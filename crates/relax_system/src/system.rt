//! Valid systems, their means, and tests of a vector.

ghost use Rattle.std.specs.Prelude.{◌≡◌, ℕ, ◌<◌, ◌≤◌, ◌↔◌, length, IsTrue};
ghost use Rattle.relax_system.specs.System.{IsValid, IsValidPoint, point_at};
ghost use Rattle.relax_system.specs.Means.{InBoxes, IsPreFixed, IsPostFixed, floor_mean, ceil_mean};
ghost use Rattle.relax_system.specs.Forms.Narrow.{IsNarrow, IsNarrowPoint};
ghost use Rattle.relax_system.specs.Sides.{mean_of, IsQuiet};

use crate::mean::{narrow_pull, quotient_above, wide_pull, wide_quotient};
use crate::points::{Point, Points};
use crate::side::Side;
use std::marker::Model;

/// A valid system of point equations.
#[derive(Drop)]
pub struct System {
    pub(crate) points: Points,
    // whether the sums of all means are known to fit 64 bits
    pub(crate) narrow: bool,
}

impl Model for System {
    ghost use Rattle.std.specs.Prelude.{List};
    ghost use Rattle.relax_system.specs.declared.points.Point.{Point};
    ghost use Rattle.relax_system.specs.Forms.Narrow.{IsSystem};

    ghost Value = { List Point };

    ghost view = { λ s. s.points };

    ghost invariant = { λ s. IsSystem s.points s.narrow };
}

impl System {
    /// A system of valid points. It takes no memory.
    pub fn new(points: Points) -> System
        requires { IsValid points }
        ensures { result ≡ points }
    {
        let narrow = are_narrow(points.as_slice());
        System { points, narrow }
    }

    /// How many points there are.
    pub fn points(&self) -> usize
        ensures count { result ≡ length self.now }
        ensures valid { IsValid self.now }
    {
        self.points.as_slice().len()
    }

    /// The point of that number.
    pub fn point(&self, i: usize) -> &Point
        requires { i < length self.now }
        ensures point { result.now ≡ point_at self.now i }
        ensures valid { IsValid self.now }
    {
        &self.points.as_slice()[i]
    }

    /// Whether the sums of all means are known to fit 64 bits.
    pub(crate) fn is_narrow(&self) -> bool
        ensures { IsTrue result → IsNarrow self.now }
    {
        self.narrow
    }

    /// The rounded-down mean of a point, given the coordinates of all. It lies in the point's box.
    pub fn floor_mean(&self, i: usize, v: &[u64]) -> u64
        requires point { i < length self.now }
        requires boxes { InBoxes self.now v.now }
        ensures mean { result ≡ floor_mean self.now i v.now }
        ensures low { (point_at self.now i).lo ≤ result }
        ensures high { result ≤ (point_at self.now i).hi }
    {
        self.mean(Side::Floor, i, v)
    }

    /// The rounded-up mean of a point, given the coordinates of all. It lies in the point's box.
    pub fn ceil_mean(&self, i: usize, v: &[u64]) -> u64
        requires point { i < length self.now }
        requires boxes { InBoxes self.now v.now }
        ensures mean { result ≡ ceil_mean self.now i v.now }
        ensures low { (point_at self.now i).lo ≤ result }
        ensures high { result ≤ (point_at self.now i).hi }
    {
        self.mean(Side::Ceil, i, v)
    }

    /// A side's rounded mean of a point, given the coordinates of all.
    #[inline(always)]
    fn mean(&self, side: Side, i: usize, v: &[u64]) -> u64
        requires point { i < length self.now }
        requires boxes { InBoxes self.now v.now }
        ensures mean { result ≡ mean_of side self.now i v.now }
        ensures valid { IsValid self.now }
    {
        let point = self.point(i);
        let near = point.near.as_slice();
        let total = point.total_weight();
        if self.is_narrow() {
            let pull = narrow_pull(near, point.anchored as u64, v);
            quotient_above(side, point.lo, pull, total)
        } else {
            wide_quotient(side, wide_pull(near, point.anchored, v), total)
        }
    }

    /// Whether the vector is pre-fixed: no rounded-down mean is above its entry.
    pub fn is_floor_quiet(&self, v: &[u64]) -> bool
        requires { InBoxes self.now v.now }
        ensures { IsTrue result ↔ IsPreFixed self.now v.now }
    {
        (0..self.points()).all(|i| self.floor_mean(i, v) <= v[i])
    }

    /// Whether the vector is post-fixed: no rounded-up mean is below its entry.
    pub fn is_ceil_quiet(&self, v: &[u64]) -> bool
        requires { InBoxes self.now v.now }
        ensures { IsTrue result ↔ IsPostFixed self.now v.now }
    {
        (0..self.points()).all(|i| v[i] <= self.ceil_mean(i, v))
    }
}

/// Whether the sums of all means fit 64 bits.
pub(crate) fn are_narrow(points: &[Point]) -> bool
    requires { IsValid points.now }
    ensures { IsTrue result → IsNarrow points.now }
{
    points.iter().all(is_narrow)
}

/// Whether the sums of the point's mean fit 64 bits.
fn is_narrow(point: &Point) -> bool
    ensures { IsTrue result → IsNarrowPoint point.now }
{
    u128::from(point.total_weight()) * u128::from(point.hi) < u128::from(u64::MAX)
}
