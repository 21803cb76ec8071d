//! The sites that fixed nodes take. One that allows overlap takes none.

ghost use Rattle.std.specs.Prelude.{◌≡◌, ◌<◌, ◌≤◌, ◌+◌, ◌*◌, ◌↔◌, ℕ, length, IfOk, OnOk, MatchBool, pos, neg_ℤ, ◌≤ℤ◌, ◌<ℤ◌, ◌+ℤ◌, ◌*ℤ◌};
ghost use Rattle.book_text.specs.declared.decimal.TheConstants.{MOST_MICRO};
ghost use Rattle.book_files.specs.Ranges.{IsInRange};
ghost use Rattle.book_design.specs.Values.{node_value};
ghost use Rattle.book_design.specs.WellFormed.{IsGoodNode};
ghost use Rattle.row_space.specs.Forms.Tiers.{AreTiers, AreInOrder, IsPassed, tier_at};
ghost use Rattle.row_space.specs.Forms.Marks.{AreMarks, AreSorted, AddsMarks, AddsSubrow, MeetsRow, IsSolid, with_mark};

use crate::tiers::{Tier, tiers};
use book_design::{Design, Node};
use std::alloc::{AllocError, Global};

/// Sites of a subrow that a fixed node takes: from the first up to the end, without the end. Marks are in the order of
/// subrows, then of first sites.
#[derive(Clone, Copy, Debug, PartialEq, Eq, PartialOrd, Ord)]
pub(crate) struct Mark {
    pub subrow: usize,
    pub first: u64,
    pub end: u64,
}

/// The marks of all fixed nodes, in order.
pub(crate) fn marks(alloc: Global, design: &Design<'_>) -> Result<Vec<Mark>, AllocError>
    ensures marks { IfOk result (λ marks. AreMarks design.now (length design.now.nodes) marks.items) }
    ensures sorted { IfOk result (λ marks. AreSorted marks.items) }
{
    let tiers = tiers(alloc, design)?;
    let mut marks = Vec::new(alloc);
    for node in design.nodes() {
        if is_solid(node) {
            mark_node(design, &tiers, node, &mut marks)?;
        }
    }
    marks.sort_unstable();
    Ok(marks)
}

/// Whether a node can take sites: it is fixed, forbids overlap, and has area.
fn is_solid(node: &Node<'_>) -> bool
    ensures { MatchBool result (IsSolid (node_value node.now)) (IsSolid (node_value node.now) → ⊥) }
{
    node.fixed && !node.overlap && node.width > 0 && node.height > 0
}

/// Adds what a node takes of each subrow that it meets. In each row that its height meets it goes at once to the first
/// subrow that ends right of its left edge, and from the first one right of it to the next row.
fn mark_node(
    design: &Design<'_>,
    tiers: &[Tier],
    node: &Node<'_>,
    marks: &mut Vec<Mark>,
) -> Result<(), AllocError>
    requires tiers { AreTiers design.now tiers.now }
    requires node { IsGoodNode design.now.row_height (node_value node.now) }
    requires solid { IsSolid (node_value node.now) }
    ensures { OnOk result (AddsMarks design.now (node_value node.now) marks.old.items marks.new.items) }
{
    let mut at = first_above(tiers, node.y - design.row_height());
    'tiers: while at < tiers.len() && tiers[at].y < node.y + node.height {
        let tier = tiers[at];
        if tier.right <= node.x {
            at = first_right_of(tiers, tier.y, node.x);
        } else if node.x + node.width <= tier.left {
            at = first_above(tiers, tier.y);
        } else {
            mark_subrow(design, tier.subrow, node, marks)?;
            at += 1;
        }
    }
    Ok(())
}

/// Adds what a node takes of a subrow whose row it meets.
fn mark_subrow(
    design: &Design<'_>,
    number: usize,
    node: &Node<'_>,
    marks: &mut Vec<Mark>,
) -> Result<(), AllocError>
    requires there { number < length design.now.subrows }
    requires node { IsGoodNode design.now.row_height (node_value node.now) }
    requires solid { IsSolid (node_value node.now) }
    requires row { MeetsRow design.now (node_value node.now) number }
    ensures { OnOk result (AddsSubrow design.now (node_value node.now) number marks.old.items marks.new.items) }
{
    let subrow = &design.subrows()[number];
    let first = sites_before(node.x, subrow.x, design.pitch());
    let end = sites_up_to(node.x + node.width, subrow.x, design.pitch());
    add_mark(marks, number, first, end.min(u64::from(subrow.sites)))
}

/// Adds a mark, where it has a site.
fn add_mark(marks: &mut Vec<Mark>, subrow: usize, first: u64, end: u64) -> Result<(), AllocError>
    ensures { OnOk result (marks.new.items ≡ with_mark marks.old.items subrow first end) }
{
    if first < end {
        marks.push(Mark { subrow, first, end })?;
    }
    Ok(())
}

/// The first tier above this y.
fn first_above(tiers: &[Tier], y: i64) -> usize
    requires { AreInOrder tiers.now }
    ensures within { result ≤ length tiers.now }
    ensures below { (i : ℕ) → i < result → (tier_at tiers.now i).y ≤ℤ y }
    ensures above { (i : ℕ) → result ≤ i → i < length tiers.now → y <ℤ (tier_at tiers.now i).y }
{
    tiers.partition_point(|tier| tier.y <= y)
}

/// The first tier above this y, or at it and ending right of x.
fn first_right_of(tiers: &[Tier], y: i64, x: i64) -> usize
    requires { AreInOrder tiers.now }
    ensures within { result ≤ length tiers.now }
    ensures before { (i : ℕ) → i < result → IsPassed y x (tier_at tiers.now i) }
    ensures behind { (i : ℕ) → result ≤ i → i < length tiers.now → IsPassed y x (tier_at tiers.now i) → ⊥ }
{
    tiers.partition_point(|tier| tier.y < y || tier.y == y && tier.right <= x)
}

/// How many whole sites of a subrow lie left of x.
fn sites_before(x: i64, left: i64, pitch: i64) -> u64
    requires pitch { pos 1 ≤ℤ pitch }
    requires x_low { neg_ℤ (pos (2 * MOST_MICRO)) ≤ℤ x }
    requires x_high { x ≤ℤ pos (2 * MOST_MICRO) }
    requires left { IsInRange left }
    ensures { (site : ℕ) → (result ≤ site) ↔ (x <ℤ (left +ℤ pos (site + 1) *ℤ pitch)) }
{
    if x <= left {
        0
    } else {
        (x - left) as u64 / pitch as u64
    }
}

/// How many sites of a subrow begin left of x.
fn sites_up_to(x: i64, left: i64, pitch: i64) -> u64
    requires pitch { pos 1 ≤ℤ pitch }
    requires x_low { neg_ℤ (pos (2 * MOST_MICRO)) ≤ℤ x }
    requires x_high { x ≤ℤ pos (2 * MOST_MICRO) }
    requires left { IsInRange left }
    ensures { (site : ℕ) → (site < result) ↔ ((left +ℤ pos site *ℤ pitch) <ℤ x) }
{
    if x <= left {
        0
    } else {
        ((x - left) as u64).div_ceil(pitch as u64)
    }
}
