//! The heights of movable nodes, and how many nodes, pins and subrows a design has.

ghost use Rattle.std.specs.Prelude.{◌≡◌, ℕ, ◌<◌, ◌^◌, ◌<ℤ◌, false, map, length, IfOk, MatchBool, MatchOption, MatchResult};
ghost use Rattle.book_files.specs.Blocks.{net_entries};
ghost use Rattle.book_files.specs.Ranges.{pin_count};
ghost use Rattle.book_design.specs.Joined.{joined_node};
ghost use Rattle.book_design.specs.Values.{node_values};
ghost use Rattle.book_design.specs.Faults.{IsFirst};
ghost use Rattle.book_design.specs.Forms.Counts.{IsHigher};
ghost use Rattle.book_design.specs.Forms.Steps.{IsFreeFrom, IsFirstFrom};
ghost use Rattle.book_design.specs.Forms.Sources.{records_of};
ghost use Rattle.book_design.specs.Forms.Parts.{outlines, IsShape};

use crate::fault::{DesignFault, past_limit};
use crate::parts::Node;
use crate::rows::RowShape;
use crate::rules::{MOST_NODES, MOST_PINS, MOST_SUBROWS};
use crate::sources::Sources;
use crate::strips::Strip;
use book_files::NetBlock;
use std::alloc::AllocError;

/// Tests that no movable node is higher than a row, and that there are not too many nodes, pins
/// and subrows.
pub(crate) fn test_counts(
    records: &Sources<'_, '_>,
    nodes: &[Node<'_>],
    strips: &[Strip],
    shape: &RowShape,
    pins: u64,
) -> Result<(), DesignFault>
    requires few_nodes { length (records_of records.now).nodes < 2 ^ 32 }
    requires nodes { node_values nodes.now ≡ map (joined_node (records_of records.now)) (records_of records.now).nodes }
    requires strips { strips.now ≡ outlines (records_of records.now) }
    requires shape { IsShape (records_of records.now) shape.now }
    requires pins { pins ≡ pin_count (records_of records.now).nets }
    ensures { MatchResult result (λ _. IsFreeFrom (records_of records.now) 7 11) (IsFirstFrom (records_of records.now) 7) }
{
    if let Some(node) = tall_node(nodes, shape) {
        let node = node as u32;
        return Err(DesignFault::TallCell { node });
    }
    let (nodes, subrows) = (nodes.len() as u64, strips.len() as u64);
    if nodes > MOST_NODES {
        return Err(past_limit(1, nodes));
    }
    if pins > MOST_PINS {
        return Err(past_limit(2, pins));
    }
    if subrows > MOST_SUBROWS {
        return Err(past_limit(3, subrows));
    }
    Ok(())
}

/// The first movable node that is higher than a row of this shape.
fn tall_node(nodes: &[Node<'_>], shape: &RowShape) -> Option<usize>
    ensures { MatchOption result ((i : ℕ) → IsHigher (node_values nodes.now) shape.now.height i → ⊥) (IsFirst (IsHigher (node_values nodes.now) shape.now.height)) }
{
    for (i, node) in nodes.iter().enumerate() {
        if is_higher(node, shape) {
            return Some(i);
        }
    }
    None
}

/// Whether a node is movable and higher than a row of this shape.
fn is_higher(node: &Node<'_>, shape: &RowShape) -> bool
    ensures { MatchBool result ((node.now.fixed ≡ false) × (shape.now.height <ℤ node.now.height)) ((node.now.fixed ≡ false) → shape.now.height <ℤ node.now.height → ⊥) }
{
    !node.fixed && node.height > shape.height
}

/// How many pins the nets have, or want of memory: no memory holds more than 64 bits count.
pub(crate) fn pin_total(nets: &[NetBlock<'_>]) -> Result<u64, AllocError>
    ensures { IfOk result (λ total. total ≡ pin_count (net_entries nets.now)) }
{
    let mut total: u64 = 0;
    for net in nets {
        match total.checked_add(net.pins.as_slice().len() as u64) {
            Some(sum) => total = sum,
            None => return Err(AllocError),
        }
    }
    Ok(total)
}
