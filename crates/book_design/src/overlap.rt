//! The first subrow that shares area with an earlier one.
//!
//! The plane is cut into bands as high as a row. Two subrows that share area begin in one band or in neighbouring ones,
//! and two of one band share area where they overlap from left to right. So the earlier subrows, which share none, stand
//! in their band from left to right without overlaps, and a further one is compared with those whose columns it touches.

ghost use Rattle.std.specs.Prelude.{◌≡◌, ◌*◌, ◌≤◌, ◌^◌, ◌↔◌, ℤ, ◌+ℤ◌, pos, neg_ℤ, ◌≤ℤ◌, ◌<ℤ◌, IfOk, OnOk, IsTrue, MatchBool, MatchOption};
ghost use Rattle.std.specs.Int.{int_max, int_min};
ghost use Rattle.std.specs.List.{AllByRecursion};
ghost use Rattle.book_design.specs.Forms.Strips.{strip_values, IsFirstOverlap, IsStripInRange};
ghost use Rattle.book_design.specs.Forms.Overlap.{band, Meet, IsApart, StandAtLeftEdges, IsLastBefore, HasNoneBefore, MeetsOne, MeetsNoneOf, MeetsNone, HasAlso};

use crate::strips::Strip;
use std::alloc::{AllocError, Global};
use std::collections::BTreeMap;

/// Where the first band begins.
const LOWEST: i64 = -1_000_000_000_000;

/// Subrows by their band and left edge.
type Kept = BTreeMap<(u64, i128), Strip>;

/// The first of these subrows, in their order, that shares area with an earlier one. All are so high.
///
/// It takes time n log n.
pub(crate) fn first_overlap(
    alloc: Global,
    strips: &[Strip],
    height: i64,
) -> Result<Option<usize>, AllocError>
    requires positive { pos 0 <ℤ height }
    requires limit { height ≤ℤ pos (10 ^ 12) }
    requires ranges { AllByRecursion IsStripInRange strips.now }
    ensures { IfOk result (IsFirstOverlap (strip_values height strips.now)) }
{
    let mut earlier = BTreeMap::new(alloc);
    for (i, strip) in strips.iter().enumerate() {
        if strip.right <= i128::from(strip.left) {
            continue;
        }
        if meets_any(&earlier, strip, height) {
            return Ok(Some(i));
        }
        keep(&mut earlier, strip, height)?;
    }
    Ok(None)
}

/// The band in which a lower edge lies.
fn band_of(lower: i64, height: i64) -> u64
    requires positive { pos 0 <ℤ height }
    requires low { neg_ℤ (pos (10 ^ 12)) ≤ℤ lower }
    requires high { lower ≤ℤ pos (10 ^ 12) }
    ensures value { result ≡ band height lower }
    ensures bound { result ≤ 2 * 10 ^ 12 }
{
    (lower - LOWEST) as u64 / height as u64
}

/// Whether the columns of two subrows have more than an edge in common.
fn share_columns(a: &Strip, b: &Strip) -> bool
    ensures { IsTrue result ↔ (int_max a.now.left b.now.left <ℤ int_min a.now.right b.now.right) }
{
    i128::from(a.left.max(b.left)) < a.right.min(b.right)
}

/// Whether two rows have more than an edge in common, by their lower edges.
fn share_rows(a: i64, b: i64, height: i64) -> bool
    requires positive { pos 0 <ℤ height }
    requires limit { height ≤ℤ pos (10 ^ 12) }
    requires a_low { neg_ℤ (pos (10 ^ 12)) ≤ℤ a }
    requires a_high { a ≤ℤ pos (10 ^ 12) }
    requires b_low { neg_ℤ (pos (10 ^ 12)) ≤ℤ b }
    requires b_high { b ≤ℤ pos (10 ^ 12) }
    ensures { IsTrue result ↔ (int_max a b <ℤ (int_min a b +ℤ height)) }
{
    a.max(b) < a.min(b) + height
}

fn share_area(a: &Strip, b: &Strip, height: i64) -> bool
    requires positive { pos 0 <ℤ height }
    requires limit { height ≤ℤ pos (10 ^ 12) }
    requires a_range { IsStripInRange a.now }
    requires b_range { IsStripInRange b.now }
    ensures { IsTrue result ↔ Meet height a.now b.now }
{
    share_columns(a, b) && share_rows(a.lower, b.lower, height)
}

/// The subrow of the band that begins last before an end.
fn last_before(kept: &Kept, band: u64, end: i128) -> Option<Strip>
    requires { StandAtLeftEdges kept.now }
    ensures { MatchOption result (HasNoneBefore kept.now band end) (IsLastBefore kept.now band end) }
{
    let (place, strip) = kept.range(..(band, end)).next_back()?;
    if place.0 == band { Some(*strip) } else { None }
}

/// Whether a subrow with sites shares area with one of the band.
fn meets_in(kept: &Kept, band: u64, strip: &Strip, height: i64) -> bool
    requires positive { pos 0 <ℤ height }
    requires limit { height ≤ℤ pos (10 ^ 12) }
    requires range { IsStripInRange strip.now }
    requires apart { IsApart height kept.now }
    ensures { MatchBool result (MeetsOne height kept.now strip.now) (MeetsNoneOf height kept.now band strip.now) }
{
    let mut end = strip.right;
    while let Some(other) = last_before(kept, band, end) {
        if share_area(&other, strip, height) {
            return true;
        }
        if other.right <= i128::from(strip.left) {
            return false;
        }
        end = i128::from(other.left);
    }
    false
}

/// Whether a subrow shares area with one of these.
fn meets_any(kept: &Kept, strip: &Strip, height: i64) -> bool
    requires positive { pos 0 <ℤ height }
    requires limit { height ≤ℤ pos (10 ^ 12) }
    requires range { IsStripInRange strip.now }
    requires apart { IsApart height kept.now }
    ensures { MatchBool result (MeetsOne height kept.now strip.now) (MeetsNone height kept.now strip.now) }
{
    let band = band_of(strip.lower, height);
    for near in band.saturating_sub(1)..band + 2 {
        if meets_in(kept, near, strip, height) {
            return true;
        }
    }
    false
}

/// Adds a subrow that shares area with none of these.
fn keep(kept: &mut Kept, strip: &Strip, height: i64) -> Result<(), AllocError>
    requires positive { pos 0 <ℤ height }
    requires limit { height ≤ℤ pos (10 ^ 12) }
    requires range { IsStripInRange strip.now }
    ensures { OnOk result (HasAlso height kept.old kept.new strip.now) }
{
    let band = band_of(strip.lower, height);
    kept.insert((band, i128::from(strip.left)), *strip)?;
    Ok(())
}
