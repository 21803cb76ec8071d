//! Where the nodes of a design stand.

ghost use Rattle.std.specs.Prelude.{◌≡◌, ◌<◌, ◌^◌, length, All, IfOk};
ghost use Rattle.std.specs.List.{count_by};
ghost use Rattle.book_design.specs.Values.{node_value, node_values};
ghost use Rattle.book_design.specs.Points.{is_movable, node_value_at};
ghost use Rattle.book_design.specs.WellFormed.{IsDesign};
ghost use Rattle.row_space.specs.Ends.{AreGoodSegments};
ghost use Rattle.row_legal.specs.Legal.{IsLegal};
ghost use Rattle.row_legal.specs.Spots.{spot_of, spots_of};
ghost use Rattle.wire_report.specs.Wire.{IsNearCorner};
ghost use Rattle.proud_top.specs.Placement.{corner_from, corner_of, corners_of};
ghost use Rattle.proud_top.specs.Forms.Cells.{ArePlacedIn, AreWithin, IsWithin};

use book_design::{Design, Node};
use book_text::Memory;
use row_legal::{Place, Sites, places_apart, places_legal};
use row_space::Segments;
use std::alloc::Global;
use wire_report::Corner;

/// The corner of each node with the cells at these places in the segments, and the fixed nodes where they are.
pub(crate) fn corners(
    alloc: Global,
    design: &Design<'_>,
    segments: &Segments,
    sites: &Sites,
) -> Result<Vec<Corner>, Memory>
    requires segments { AreGoodSegments segments.now.pitch segments.now.segments }
    requires placed { ArePlacedIn design.now segments.now sites.now }
    ensures corners { IfOk result (λ corners. corners.items ≡ corners_of design.now (spots_of segments.now sites.now)) }
    ensures near { IfOk result (λ corners. All IsNearCorner corners.items) }
    ensures legal { IsLegal design.now (spots_of segments.now sites.now) }
{
    places_apart();
    places_legal();
    let nodes = design.nodes();
    node_corners(alloc, design, nodes, segments, sites.as_slice())
}

/// The corner of each of the nodes.
fn node_corners(
    alloc: Global,
    design: &Design<'_>,
    nodes: &[Node<'_>],
    segments: &Segments,
    places: &[Place],
) -> Result<Vec<Corner>, Memory>
    requires valid { IsDesign design.now }
    requires nodes { node_values nodes.now ≡ design.now.nodes }
    requires few { length nodes.now < 2 ^ 32 }
    requires segments { AreGoodSegments segments.now.pitch segments.now.segments }
    requires places { AreWithin (count_by is_movable design.now.nodes) segments.now places.now }
    ensures corners { IfOk result (λ corners. corners.items ≡ corners_of design.now (spots_of segments.now places.now)) }
    ensures near { IfOk result (λ corners. All IsNearCorner corners.items) }
{
    let mut corners = Vec::new(alloc);
    for i in 0..nodes.len() {
        corners.push(corner_of(design, &nodes[i], i as u32, segments, places))?;
    }
    Ok(corners)
}

/// The corner of a node, which has this number: of a cell at its place, of a fixed node where it is.
fn corner_of(
    design: &Design<'_>,
    node: &Node<'_>,
    number: u32,
    segments: &Segments,
    places: &[Place],
) -> Corner
    requires valid { IsDesign design.now }
    requires there { number < length design.now.nodes }
    requires node { node_value node.now ≡ node_value_at design.now.nodes number }
    requires segments { AreGoodSegments segments.now.pitch segments.now.segments }
    requires places { AreWithin (count_by is_movable design.now.nodes) segments.now places.now }
    ensures corner { result ≡ corner_of design.now.nodes (spots_of segments.now places.now) number }
    ensures near { IsNearCorner result }
{
    match design.point_of(number) {
        Some(point) => spot_of(segments, places[point as usize]),
        None => Corner {
            x: node.x,
            y: node.y,
        },
    }
}

/// Where a place lies: so many sites right of where its segment begins.
fn spot_of(segments: &Segments, place: Place) -> Corner
    requires segments { AreGoodSegments segments.now.pitch segments.now.segments }
    requires place { IsWithin segments.now place }
    ensures spot { result ≡ corner_from (spot_of segments.now place) }
    ensures near { IsNearCorner result }
{
    let segment = segments.as_slice()[place.segment];
    Corner {
        x: segment.x + i64::from(place.site) * segments.pitch(),
        y: segment.y,
    }
}
