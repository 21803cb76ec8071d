//! Systems with shorter numbers, by which a solve begins with few digits.

ghost use Rattle.std.specs.Prelude.{◌≡◌, ℕ, ◌≤◌, ◌^◌, IfOk};
ghost use Rattle.relax_system.specs.Halved.{halved, halved_point};
ghost use Rattle.relax_system.specs.declared.side.Side.TheVariants.{Floor, Ceil};
ghost use Rattle.relax_system.specs.Rounding.{rounded};

use crate::points::{Point, Points};
use crate::side::Side;
use crate::system::{System, are_narrow};
use book_text::Memory;
use std::alloc::Global;

/// The most halvings of a system.
pub const MOST_SHIFT: u32 = 20;

impl System {
    /// The system with each coordinate over 2 ^ shift, for a solve from below: the same neighbours and weights, boxes widened to
    /// whole numbers, and the sums of the constants rounded down. Only want of memory is refused.
    pub fn halved_down(&self, alloc: Global, shift: u32) -> Result<System, Memory>
        requires { shift ≤ MOST_SHIFT }
        ensures { IfOk result (λ system. system ≡ halved Floor shift self.now) }
    {
        self.halved(alloc, Side::Floor, shift)
    }

    /// The same for a solve from above, with the sums of the constants rounded up.
    pub fn halved_up(&self, alloc: Global, shift: u32) -> Result<System, Memory>
        requires { shift ≤ MOST_SHIFT }
        ensures { IfOk result (λ system. system ≡ halved Ceil shift self.now) }
    {
        self.halved(alloc, Side::Ceil, shift)
    }

    /// The system with each coordinate over 2 ^ shift, and the sums of the constants rounded to the side. Only want of memory is
    /// refused.
    pub fn halved(&self, alloc: Global, side: Side, shift: u32) -> Result<System, Memory>
        requires { shift ≤ MOST_SHIFT }
        ensures { IfOk result (λ system. system ≡ halved side shift self.now) }
    {
        let mut points = Points::with_capacity(alloc, self.points())?;
        for i in 0..self.points() {
            points.push(halved_point(alloc, side, shift, self.point(i))?)?;
        }
        Ok(System::new(points))
    }

    /// Halves `whole` anew, another number of times, where this is `whole` halved already. It takes no memory, since no list of
    /// neighbours is copied.
    pub fn halve_anew(&mut self, whole: &System, side: Side, shift: u32)
        requires shift { shift ≤ MOST_SHIFT }
        requires of { (before : ℕ) × (self.old ≡ halved side before whole.now) }
        ensures { self.new ≡ halved side shift whole.now }
    {
        self.points.halve_anew(whole.points.as_slice(), side, shift);
        self.narrow = are_narrow(self.points.as_slice());
    }
}

impl Points {
    /// Halves each of the points `whole` anew, where these are those points halved already.
    fn halve_anew(&mut self, whole: &[Point], side: Side, shift: u32)
        requires shift { shift ≤ MOST_SHIFT }
        requires of { (before : ℕ) × (self.old ≡ halved side before whole.now) }
        ensures { self.new ≡ halved side shift whole.now }
    {
        let points = self.items.as_mut_slice();
        for i in 0..whole.len() {
            halve_point_anew(&mut points[i], &whole[i], side, shift);
        }
    }
}

/// Halves the point `whole` anew, where `point` has its neighbours and its weights already.
fn halve_point_anew(point: &mut Point, whole: &Point, side: Side, shift: u32)
    requires shift { shift ≤ MOST_SHIFT }
    requires near { point.old.near ≡ whole.now.near }
    requires anchor { point.old.anchor ≡ whole.now.anchor }
    ensures { point.new ≡ halved_point side shift whole.now }
{
    point.lo = whole.lo >> shift;
    point.hi = whole.hi.div_ceil(1 << shift);
    point.anchored = over_power(side, whole.anchored, shift);
}

/// The point with each coordinate over 2 ^ shift.
fn halved_point(alloc: Global, side: Side, shift: u32, point: &Point) -> Result<Point, Memory>
    requires { shift ≤ MOST_SHIFT }
    ensures { IfOk result (λ p. p ≡ halved_point side shift point.now) }
{
    Ok(Point {
        lo: point.lo >> shift,
        hi: point.hi.div_ceil(1 << shift),
        near: point.near.copy(alloc)?,
        anchor: point.anchor,
        anchored: over_power(side, point.anchored, shift),
    })
}

/// A number over 2 ^ shift, rounded to the side.
fn over_power(side: Side, sum: u128, shift: u32) -> u128
    requires { shift ≤ MOST_SHIFT }
    ensures { result ≡ rounded side sum (2 ^ shift) }
{
    match side {
        Side::Floor => sum >> shift,
        Side::Ceil => sum.div_ceil(1 << shift),
    }
}
