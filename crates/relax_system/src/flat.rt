//! A system in flat arrays, for the sweeps: no call in their loop takes memory or looks a point up.

ghost use Rattle.std.specs.Prelude.{◌≡◌, ℕ, ◌+◌, ◌*◌, ◌^◌, ◌<◌, ◌≤◌, ◌≢◌, ◌++◌, length, map, slice_index, slice_range, All, IsTrue, IfOk, OnOk, MatchBool};
ghost use Rattle.relax_system.specs.Forms.Flat.{dot, IsSoundRow};
ghost use Rattle.relax_system.specs.Means.{InBoxes};
ghost use Rattle.relax_system.specs.Forms.Narrow.{IsNarrow};
ghost use Rattle.relax_system.specs.Sides.{mean_of, Before, IsQuiet};
ghost use Rattle.relax_system.specs.Rounding.{rounded};
ghost use Rattle.relax_system.specs.System.{IsValid};
ghost use Rattle.relax_system.specs.Forms.Way.{IsOnWay, room};

use crate::mean::{narrow_quotient, wide_quotient};
use crate::points::Near;
use crate::side::Side;
use crate::system::System;
use book_text::Memory;
use std::alloc::Global;
use std::marker::Model;

/// A system and its points in flat arrays.
#[derive(Drop)]
pub(crate) struct Flat<'a> {
    system: &'a System,
    // where each point's neighbours begin, and after the last one their number
    starts: Vec<usize>,
    numbers: Vec<u32>,
    weights: Vec<u64>,
    totals: Vec<u64>,
    anchored: Vec<u128>,
}

impl<'a> Model for Flat<'a> {
    ghost use Rattle.std.specs.Prelude.{List};
    ghost use Rattle.relax_system.specs.declared.points.Point.{Point};
    ghost use Rattle.relax_system.specs.Forms.Flat.{IsFlat};

    ghost Value = { List Point };

    ghost view = { λ f. f.system.now };

    ghost invariant = { λ f. IsFlat f.system.now f.starts.items f.numbers.items f.weights.items f.totals.items f.anchored.items };
}

impl<'a> Flat<'a> {
    /// The arrays of a system.
    pub(crate) fn new(alloc: Global, system: &'a System) -> Result<Flat<'a>, Memory>
        ensures same { IfOk result (λ flat. flat ≡ system.now) }
        ensures valid { OnOk result (IsValid system.now) }
    {
        let mut starts = Vec::new(alloc);
        let mut numbers = Vec::new(alloc);
        let mut weights = Vec::new(alloc);
        let mut totals = Vec::new(alloc);
        let mut anchored = Vec::new(alloc);
        starts.push(0)?;
        for i in 0..system.points() {
            let point = system.point(i);
            append_near(&mut numbers, &mut weights, point.near.as_slice())?;
            starts.push(numbers.len())?;
            totals.push(point.total_weight())?;
            anchored.push(point.anchored)?;
        }
        Ok(Flat {
            system,
            starts,
            numbers,
            weights,
            totals,
            anchored,
        })
    }

    /// One sweep over all points in ascending order, in place. Whether an entry changed.
    #[inline(always)]
    pub(crate) fn sweep(&self, side: Side, narrow: bool, v: &mut [u64]) -> bool
        requires valid { IsValid self.now }
        requires narrow { IsTrue narrow → IsNarrow self.now }
        requires way { IsOnWay side self.now v.old }
        ensures way { IsOnWay side self.now v.new }
        ensures moved { MatchBool result (room side self.now v.new < room side self.now v.old) (IsQuiet side self.now v.new) }
    {
        let mut moved = false;
        for i in 0..v.len() {
            let mean = self.mean(side, narrow, i, v);
            if is_past(side, v[i], mean) {
                v[i] = mean;
                moved = true;
            }
        }
        moved
    }

    /// A side's rounded mean of a point, given the coordinates of all.
    #[inline(always)]
    fn mean(&self, side: Side, narrow: bool, i: usize, v: &[u64]) -> u64
        requires valid { IsValid self.now }
        requires narrow { IsTrue narrow → IsNarrow self.now }
        requires point { i < length self.now }
        requires boxes { InBoxes self.now v.now }
        ensures { result ≡ mean_of side self.now i v.now }
    {
        let numbers = part(&self.numbers, &self.starts, i);
        let weights = part(&self.weights, &self.starts, i);
        row_mean(
            side,
            narrow,
            numbers,
            weights,
            self.anchored[i],
            self.totals[i],
            v,
        )
    }
}

/// Appends the numbers and the weights of neighbours.
fn append_near(numbers: &mut Vec<u32>, weights: &mut Vec<u64>, near: &[Near]) -> Result<(), Memory>
    ensures numbers { OnOk result (numbers.new.items ≡ numbers.old.items ++ map (λ n. n.point) near.now) }
    ensures weights { OnOk result (weights.new.items ≡ weights.old.items ++ map (λ n. n.weight) near.now) }
{
    for entry in near {
        numbers.push(entry.point)?;
        weights.push(entry.weight)?;
    }
    Ok(())
}

/// The part of the entries that belongs to the point `i`.
#[inline(always)]
fn part<'a, T>(entries: &'a [T], starts: &[usize], i: usize) -> &'a [T]
    requires point { i + 1 < length starts.now }
    requires order { slice_index starts.now i ≤ slice_index starts.now (i + 1) }
    requires within { slice_index starts.now (i + 1) ≤ length entries.now }
    ensures { result.now ≡ slice_range entries.now (slice_index starts.now i) (slice_index starts.now (i + 1)) }
{
    &entries[starts[i]..starts[i + 1]]
}

/// A side's rounded mean: the sum of weight times coordinate and of `anchored`, over the total weight.
#[inline(always)]
fn row_mean(
    side: Side,
    narrow: bool,
    numbers: &[u32],
    weights: &[u64],
    anchored: u128,
    total: u64,
    v: &[u64],
) -> u64
    requires { IsSoundRow narrow numbers.now weights.now anchored total v.now }
    ensures { result ≡ rounded side (dot numbers.now weights.now v.now + anchored) total }
{
    if narrow {
        let pull = narrow_dot(numbers, weights, anchored as u64, v);
        narrow_quotient(side, pull, total)
    } else {
        let pull = wide_dot(numbers, weights, anchored, v);
        wide_quotient(side, pull, total)
    }
}

/// The sum of weight times coordinate, and `anchored`.
#[inline(always)]
fn narrow_dot(numbers: &[u32], weights: &[u64], anchored: u64, v: &[u64]) -> u64
    requires same { length numbers.now ≡ length weights.now }
    requires there { All (λ n. n < length v.now) numbers.now }
    requires fits { dot numbers.now weights.now v.now + anchored < 2 ^ 64 }
    ensures { result ≡ dot numbers.now weights.now v.now + anchored }
{
    let mut sum = anchored;
    for (number, weight) in numbers.iter().zip(weights) {
        sum += *weight * v[*number as usize];
    }
    sum
}

/// The same in 128 bits.
#[inline(always)]
fn wide_dot(numbers: &[u32], weights: &[u64], anchored: u128, v: &[u64]) -> u128
    requires same { length numbers.now ≡ length weights.now }
    requires there { All (λ n. n < length v.now) numbers.now }
    requires fits { dot numbers.now weights.now v.now + anchored < 2 ^ 128 }
    ensures { result ≡ dot numbers.now weights.now v.now + anchored }
{
    let mut sum = anchored;
    for (number, weight) in numbers.iter().zip(weights) {
        sum += u128::from(*weight) * u128::from(v[*number as usize]);
    }
    sum
}

/// Whether the mean stands past the entry.
#[inline(always)]
fn is_past(side: Side, entry: u64, mean: u64) -> bool
    ensures { MatchBool result (Before side entry mean × (entry ≢ mean)) (Before side mean entry) }
{
    match side {
        Side::Floor => entry < mean,
        Side::Ceil => mean < entry,
    }
}
