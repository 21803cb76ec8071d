//! Rounded means, of sums in 64 bits where these fit and in 128 bits elsewhere.

ghost use Rattle.std.specs.Prelude.{◌≡◌, ◌+◌, ◌*◌, ◌^◌, ◌<◌, ◌≤◌, length, All};
ghost use Rattle.relax_system.specs.Means.{weighted_sum};
ghost use Rattle.relax_system.specs.Rounding.{rounded};

use crate::points::Near;
use crate::side::Side;
use crate::valid::MOST_COORDINATE;

/// The sum of weight times coordinate over the neighbours, and `anchored`.
#[inline(always)]
pub(crate) fn narrow_pull(near: &[Near], anchored: u64, v: &[u64]) -> u64
    requires there { All (λ n. n.point < length v.now) near.now }
    requires fits { weighted_sum near.now v.now + anchored < 2 ^ 64 }
    ensures { result ≡ weighted_sum near.now v.now + anchored }
{
    let mut sum = anchored;
    for entry in near {
        sum += entry.weight * v[entry.point as usize];
    }
    sum
}

/// The same in 128 bits.
#[inline(always)]
pub(crate) fn wide_pull(near: &[Near], anchored: u128, v: &[u64]) -> u128
    requires there { All (λ n. n.point < length v.now) near.now }
    requires fits { weighted_sum near.now v.now + anchored < 2 ^ 128 }
    ensures { result ≡ weighted_sum near.now v.now + anchored }
{
    let mut sum = anchored;
    for entry in near {
        sum += u128::from(entry.weight) * u128::from(v[entry.point as usize]);
    }
    sum
}

/// A quotient, rounded to the side.
#[inline(always)]
pub(crate) fn narrow_quotient(side: Side, sum: u64, total: u64) -> u64
    requires { 1 ≤ total }
    ensures { result ≡ rounded side sum total }
{
    match side {
        Side::Floor => sum / total,
        Side::Ceil => sum.div_ceil(total),
    }
}

/// The same of a sum that is at least `low` times the total. Only what it has above that is divided: where boxes stand far from 0
/// that is a short number though the sum is a long one, and a short number takes less time to divide.
#[inline(always)]
pub(crate) fn quotient_above(side: Side, low: u64, sum: u64, total: u64) -> u64
    requires positive { 1 ≤ total }
    requires above { total * low ≤ sum }
    ensures { result ≡ rounded side sum total }
{
    low + narrow_quotient(side, sum - total * low, total)
}

/// The same of a sum in 128 bits.
#[inline(always)]
pub(crate) fn wide_quotient(side: Side, sum: u128, total: u64) -> u64
    requires positive { 1 ≤ total }
    requires fits { sum ≤ total * MOST_COORDINATE }
    ensures { result ≡ rounded side sum total }
{
    let total = u128::from(total);
    match side {
        Side::Floor => (sum / total) as u64,
        Side::Ceil => sum.div_ceil(total) as u64,
    }
}
