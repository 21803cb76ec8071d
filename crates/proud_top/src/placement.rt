//! The text of a placement.

ghost use Rattle.std.specs.Prelude.{◌≡◌, ◌+◌, ◌<◌, ◌^◌, length, IfOk};
ghost use Rattle.book_files.specs.Entries.{place_entry, place_entries};
ghost use Rattle.book_design.specs.Values.{node_value, node_values};
ghost use Rattle.proud_top.specs.Placement.{place_with, places_of, placement_of};

use book_design::{Design, Node};
use book_files::{PlaceLine, write_pl};
use book_text::{Memory, Micro};
use std::alloc::Global;
use wire_report::Corner;

/// The text of the placement with the nodes' corners here.
pub(crate) fn placement_text(
    alloc: Global,
    design: &Design<'_>,
    corners: &[Corner],
) -> Result<Vec<u8>, Memory>
    requires { length corners.now ≡ length design.now.nodes }
    ensures { IfOk result (λ text. text.items ≡ placement_of design.now corners.now) }
{
    let lines = lines(alloc, design.nodes(), corners)?;
    write_pl(alloc, &lines)
}

/// A line for each node.
fn lines<'a>(
    alloc: Global,
    nodes: &[Node<'a>],
    corners: &[Corner],
) -> Result<Vec<PlaceLine<'a>>, Memory>
    requires all { length corners.now ≡ length nodes.now }
    requires few { length nodes.now < 2 ^ 32 }
    ensures { IfOk result (λ lines. place_entries lines.items ≡ places_of (node_values nodes.now) corners.now) }
{
    let mut lines = Vec::new(alloc);
    for i in 0..nodes.len() {
        lines.push(line_of(&nodes[i], corners[i], i as u32))?;
    }
    Ok(lines)
}

/// The line of a node with its corner here, which has this number.
fn line_of<'a>(node: &Node<'a>, corner: Corner, number: u32) -> PlaceLine<'a>
    ensures { place_entry result ≡ place_with (node_value node.now) corner number }
{
    PlaceLine {
        line: u64::from(number) + 2,
        name: node.name,
        x: Micro(corner.x),
        y: Micro(corner.y),
        orient: node.orient,
        fixed: node.fixed,
        overlap: node.overlap,
    }
}
