//! Where the nodes of a placement stand, and its text.

ghost use Rattle.std.specs.Prelude.{◌≡◌, length, All, IfOk};
ghost use Rattle.std.specs.List.{AllByRecursion};
ghost use Rattle.book_text.specs.Coordinates.{IsMicro};
ghost use Rattle.book_files.specs.Entries.{place_entry, place_entries};
ghost use Rattle.book_files.specs.Ranges.{IsName, IsMarkedWell};
ghost use Rattle.book_design.specs.Values.{node_value};
ghost use Rattle.wire_report.specs.Wire.{IsNearCorner};

use book_design::{Design, Node};
use book_files::{PlaceLine, write_pl};
use book_text::{MOST_MICRO, Memory, Micro};
use row_legal::Place;
use row_space::Segments;
use std::alloc::{AllocError, Global};
use wire_report::Corner;

/// Where each node stands: the cells at their places, and the fixed nodes where they are.
pub fn corners(
    alloc: Global,
    design: &Design<'_>,
    segments: &Segments,
    places: &[Place],
) -> Result<Vec<Corner>, AllocError>
    ensures each { IfOk result (λ corners. length corners.items ≡ length design.now.nodes) }
    ensures near { IfOk result (λ corners. All IsNearCorner corners.items) }
{
    let mut corners = Vec::new(alloc);
    let mut places = places.iter();
    for node in design.nodes() {
        let place = if node.fixed { None } else { places.next() };
        corners.push(corner_of(segments, node, place))?;
    }
    Ok(corners)
}

/// Where a node stands: at its place, and without one where it is.
fn corner_of(segments: &Segments, node: &Node<'_>, place: Option<&Place>) -> Corner
    ensures { IsNearCorner result }
{
    match place {
        Some(place) => spot_of(segments, place),
        None => corner(node.x, node.y),
    }
}

/// Where a place lies, and the origin for one that is in no segment.
fn spot_of(segments: &Segments, place: &Place) -> Corner
    ensures { IsNearCorner result }
{
    match segments.as_slice().get(place.segment) {
        Some(segment) => {
            let offset = i64::from(place.site).saturating_mul(segments.pitch());
            corner(segment.x.saturating_add(offset), segment.y)
        }
        None => corner(0, 0),
    }
}

fn corner(x: i64, y: i64) -> Corner
    ensures { IsNearCorner result }
{
    Corner {
        x: clamped(x),
        y: clamped(y),
    }
}

/// The nearest number that a placement may have.
fn clamped(at: i64) -> i64
    ensures { IsMicro result }
{
    let most = MOST_MICRO as i64;
    at.min(most).max(-most)
}

/// A line for each node at its corner.
pub fn placement_text(
    alloc: Global,
    design: &Design<'_>,
    corners: &[Corner],
) -> Result<Vec<u8>, Memory>
    requires { length corners.now ≡ length design.now.nodes }
{
    let lines = lines(alloc, design, corners)?;
    write_pl(alloc, &lines)
}

fn lines<'a>(
    alloc: Global,
    design: &Design<'a>,
    corners: &[Corner],
) -> Result<Vec<PlaceLine<'a>>, Memory>
    requires { length corners.now ≡ length design.now.nodes }
    ensures names { IfOk result (λ lines. AllByRecursion (λ place. IsName place.name) (place_entries lines.items)) }
    ensures marks { IfOk result (λ lines. AllByRecursion (λ place. IsMarkedWell place.fixed place.overlap) (place_entries lines.items)) }
{
    let nodes = design.nodes();
    let mut lines = Vec::with_capacity(alloc, nodes.len())?;
    for i in 0..nodes.len() {
        lines.push(line_of(&nodes[i], corners[i]))?;
    }
    Ok(lines)
}

fn line_of<'a>(node: &Node<'a>, corner: Corner) -> PlaceLine<'a>
    requires name { IsName (node_value node.now).name }
    requires marks { IsMarkedWell (node_value node.now).fixed (node_value node.now).overlap }
    ensures name { IsName (place_entry result).name }
    ensures marks { IsMarkedWell (place_entry result).fixed (place_entry result).overlap }
{
    PlaceLine {
        line: 0,
        name: node.name,
        x: Micro(corner.x),
        y: Micro(corner.y),
        orient: node.orient,
        fixed: node.fixed,
        overlap: node.overlap,
    }
}
