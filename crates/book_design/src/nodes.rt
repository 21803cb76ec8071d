//! The nodes with their places.

ghost use Rattle.std.specs.Prelude.{◌≡◌, ℕ, ◌<◌, ◌^◌, [], map, length, None, option_map, IfOk, MatchResult};
ghost use Rattle.book_files.specs.Entries.{node_entry, place_entry};
ghost use Rattle.book_design.specs.Records.{last_place};
ghost use Rattle.book_design.specs.Joined.{joined_node, placed};
ghost use Rattle.book_design.specs.Values.{node_value, node_values};
ghost use Rattle.book_design.specs.Faults.{IsWithoutPlace};
ghost use Rattle.book_design.specs.Forms.Steps.{Stops};
ghost use Rattle.book_design.specs.Forms.Numbers.{AreNumbers};
ghost use Rattle.book_design.specs.Forms.Sources.{records_of, place_name};

use crate::fault::{DesignFault, JoinError};
use crate::numbers::{Numbers, number, place_numbers};
use crate::parts::Node;
use crate::sources::Sources;
use book_files::{NodeFile, NodeLine, Orient, PlaceFile, PlaceLine};
use book_text::Memory;
use std::alloc::{AllocError, Global};

/// The nodes with the places that the placement file gives them last, where each terminal has one.
pub(crate) fn join_nodes<'a>(
    alloc: Global,
    records: &Sources<'_, 'a>,
) -> Result<Vec<Node<'a>>, JoinError>
    requires { length (records_of records.now).nodes < 2 ^ 32 }
    ensures { MatchResult result (λ nodes. ((i : ℕ) → IsWithoutPlace (records_of records.now) i → ⊥) × (node_values nodes.items ≡ map (joined_node (records_of records.now)) (records_of records.now).nodes)) (Stops (records_of records.now) 3) }
{
    let numbers = place_numbers(alloc, records)?;
    let mut nodes = Vec::new(alloc);
    for (i, node) in records.nodes.iter().enumerate() {
        let place = place_of(records, &numbers, node.name.0);
        if node.fixed && place.is_none() {
            return Err(JoinError::Fault(DesignFault::NoPosition { node: i as u32 }));
        }
        nodes.push(placed_node(node, place))?;
    }
    Ok(nodes)
}

/// The nodes alone, with the places that the placement file gives them last: those of the design that the files make, where
/// they make one. A node without a line there stands at (0, 0).
///
/// It takes time n log n in the nodes and the lines.
pub fn joined_nodes<'f, 'a>(
    alloc: Global,
    nodes: &'f NodeFile<'a>,
    pl: &'f PlaceFile<'a>,
) -> Result<Vec<Node<'a>>, Memory>
    ensures { IfOk result (λ found. node_values found.items ≡ map (joined_node (record { nodes = nodes.now; nets = []; weights = None; places = pl.now; rows = [] })) nodes.now) }
{
    let records = Sources {
        nodes: nodes.as_slice(),
        nets: &[],
        weights: None,
        places: pl.as_slice(),
        rows: &[],
    };
    Ok(nodes_at_places(alloc, &records)?)
}

/// The nodes with their places, where they have one.
fn nodes_at_places<'a>(
    alloc: Global,
    records: &Sources<'_, 'a>,
) -> Result<Vec<Node<'a>>, AllocError>
    ensures { IfOk result (λ nodes. node_values nodes.items ≡ map (joined_node (records_of records.now)) (records_of records.now).nodes) }
{
    let numbers = place_numbers(alloc, records)?;
    let mut nodes = Vec::new(alloc);
    for node in records.nodes {
        let place = place_of(records, &numbers, node.name.0);
        nodes.push(placed_node(node, place))?;
    }
    Ok(nodes)
}

/// The last line of the placement file with this name.
fn place_of<'a>(
    records: &Sources<'_, 'a>,
    numbers: &Numbers<'a>,
    name: &[u8],
) -> Option<PlaceLine<'a>>
    requires { AreNumbers (place_name (records_of records.now)) (length (records_of records.now).places) numbers.now }
    ensures { option_map place_entry result ≡ last_place (records_of records.now) name.now }
{
    match number(numbers, name) {
        Some(i) => Some(records.places[i]),
        None => None,
    }
}

/// The node with this place, or else at (0, 0) and not turned.
fn placed_node<'a>(line: &NodeLine<'a>, place: Option<PlaceLine<'a>>) -> Node<'a>
    ensures { node_value result ≡ placed (node_entry line.now) (option_map place_entry place.entry) }
{
    let (name, width, height) = (line.name, line.width.0, line.height.0);
    match place {
        Some(place) => Node {
            name,
            width,
            height,
            x: place.x.0,
            y: place.y.0,
            orient: place.orient,
            fixed: line.fixed || place.fixed,
            overlap: line.overlap || place.overlap,
        },
        None => Node {
            name,
            width,
            height,
            x: 0,
            y: 0,
            orient: Orient::N,
            fixed: line.fixed,
            overlap: line.overlap,
        },
    }
}
