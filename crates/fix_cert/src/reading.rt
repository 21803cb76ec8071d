//! What the two equations of one point show.

ghost use Rattle.std.specs.Prelude.{◌≡◌, ◌+◌, ◌-◌, ◌*◌, ◌^◌, ◌<◌, ◌≤◌, length, All, MatchOption};
ghost use Rattle.relax_system.specs.Means.{InBoxes, pull};
ghost use Rattle.relax_system.specs.System.{total_weight};
ghost use Rattle.fix_cert.specs.Forms.Reading.{IsFinding, IsResidual};

use crate::verdict::Side2;
use relax_system::{Point, System};

/// What a point shows where both its equations hold.
#[derive(Clone, Copy)]
pub(crate) struct Reading {
    /// How far the upper entry is above the lower one, 0 where it isn't.
    pub(crate) gap: u64,
    /// The greater of the two residuals, which is less than the total weight.
    pub(crate) residual: u64,
}

/// The reading of a point, or which of its equations fails, the lower one first.
pub(crate) fn read(system: &System, lo: &[u64], hi: &[u64], i: usize) -> Result<Reading, Side2>
    requires point { i < length system.now }
    requires lo_boxed { InBoxes system.now lo.now }
    requires hi_boxed { InBoxes system.now hi.now }
    ensures { IsFinding system.now lo.now hi.now i result }
{
    let point = system.point(i);
    let total = total_weight(point);
    let Some(lower) = residual(pull(point, lo), times(total, lo[i]), total) else {
        return Err(Side2::Lower);
    };
    let Some(upper) = residual(times(total, hi[i]), pull(point, hi), total) else {
        return Err(Side2::Upper);
    };
    Ok(Reading {
        gap: hi[i].saturating_sub(lo[i]),
        residual: lower.max(upper),
    })
}

/// How far the first number is above the second, where that is from 0 to less than the total weight.
fn residual(above: u128, below: u128, total: u64) -> Option<u64>
    ensures { MatchOption result (IsResidual above below total → ⊥) (λ left. IsResidual above below total × (left ≡ above - below)) }
{
    let left = above.checked_sub(below)?;
    if left < u128::from(total) {
        Some(left as u64)
    } else {
        None
    }
}

/// A product of two numbers of 64 bits.
fn times(total: u64, entry: u64) -> u128
    ensures { result ≡ total * entry }
{
    u128::from(total) * u128::from(entry)
}

/// The sum of weight times coordinate over the neighbours and the constants of a point.
fn pull(point: &Point, v: &[u64]) -> u128
    requires there { All (λ n. n.point < length v.now) point.now.near }
    requires fits { pull point.now v.now < 2 ^ 128 }
    ensures { result ≡ pull point.now v.now }
{
    let mut sum = point.anchored;
    for entry in point.near.as_slice() {
        sum += u128::from(entry.weight) * u128::from(v[entry.point as usize]);
    }
    sum
}

/// The weight of a point's neighbours and constants.
fn total_weight(point: &Point) -> u64
    requires { total_weight point.now < 2 ^ 64 }
    ensures { result ≡ total_weight point.now }
{
    let mut sum = point.anchor;
    for entry in point.near.as_slice() {
        sum += entry.weight;
    }
    sum
}
