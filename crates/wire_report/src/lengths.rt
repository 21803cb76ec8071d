//! The half-perimeter wire length.

ghost use Rattle.std.specs.Prelude.{◌≡◌, ◌<◌, length, pos, ◌≤ℤ◌, ◌+ℤ◌, All, IfOk};
ghost use Rattle.std.specs.List.{AllByRecursion};
ghost use Rattle.std.specs.Thread.{IsSync};
ghost use Rattle.book_design.specs.Nets.{net_value};
ghost use Rattle.book_design.specs.WellFormed.{IsDesign, IsGoodPin};
ghost use Rattle.book_text.specs.Coordinates.{IsMicro};
ghost use Rattle.wire_report.specs.Wire.{IsNearCorner, half, pin_x, pin_y, net_length, wire_length};
ghost use Rattle.wire_report.specs.Forms.Extents.{IsNear};
ghost use Rattle.wire_report.specs.Forms.Sums.{AllGood, IsSumOf};

use crate::corner::Corner;
use crate::extent::Extent;
use book_design::{Design, Net, Pin};
use book_text::Memory;
use rayon::current_num_threads;
use std::alloc::Global;
use std::thread::Threads;

/// How few nets are worth a thread: with no more of them than that, none is started.
const LEAST_PIECE: usize = 4096;

/// Where a pin stands, in millionths.
#[derive(Clone, Copy)]
struct Spot {
    x: i64,
    y: i64,
}

/// The half-perimeter wire length over all nets in millionths, where each node stands at its corner: its weight isn't asked,
/// every pin counts, and fixed nodes count as the others. It takes no memory, and at most as many threads as there are processors,
/// besides its own, which then only starts them and waits.
///
/// There is a corner for each node, in the order of the nodes, from -1,000,000 to 1,000,000 units on each axis.
pub fn hpwl<R: Threads + Sync>(
    rt: &R,
    alloc: Global,
    design: &Design<'_>,
    corners: &[Corner],
) -> Result<u128, Memory>
    requires each { length corners.now ≡ length design.now.nodes }
    requires near { All IsNearCorner corners.now }
    ensures wire { IfOk result (λ wire. wire ≡ wire_length design.now corners.now) }
{
    let nets = design.nets();
    let size = nets
        .len()
        .div_ceil(current_num_threads(rt))
        .max(LEAST_PIECE);
    if nets.len() <= size {
        return Ok(sum_of(design, corners, nets));
    }
    Ok(sum_in_threads(rt, design, corners, nets, size))
}

/// The sum of the nets' lengths, where each piece of so many nets has a thread of its own. The thread of the caller only starts
/// them and waits: where it went on working itself, a scheduler might leave a new thread behind it on its processor.
fn sum_in_threads<R: Threads + Sync>(
    rt: &R,
    design: &Design<'_>,
    corners: &[Corner],
    nets: &[Net],
    size: usize,
) -> u128
    requires some { 0 < size }
    requires each { length corners.now ≡ length design.now.nodes }
    requires near { All IsNearCorner corners.now }
    requires good { AllGood (length design.now.nodes) nets.now }
    ensures { IsSumOf design.now corners.now nets.now result }
{
    if nets.is_empty() {
        return 0;
    }
    let (piece, rest) = nets.split_at(size.min(nets.len()));
    // Of what closures over a design return `join_mut` says what they ensure, and `join` nothing.
    let (sum, others) = rayon::join_mut(
        rt,
        &mut || -> u128
            requires { (length corners.now ≡ length design.now.nodes) × All IsNearCorner corners.now × AllGood (length design.now.nodes) piece.now }
            ensures { IsSumOf design.entry.now corners.entry.now piece.entry.now result }
        { sum_of(design, corners, piece) },
        &mut || -> u128
            requires { IsSync R.row × (0 < size) × (length corners.now ≡ length design.now.nodes) × All IsNearCorner corners.now × AllGood (length design.now.nodes) rest.now }
            ensures { IsSumOf design.entry.now corners.entry.now rest.entry.now result }
        { sum_in_threads(rt, design, corners, rest, size) },
    );
    sum + others
}

/// The sum of the nets' lengths.
fn sum_of(design: &Design<'_>, corners: &[Corner], nets: &[Net]) -> u128
    requires each { length corners.now ≡ length design.now.nodes }
    requires near { All IsNearCorner corners.now }
    requires good { AllGood (length design.now.nodes) nets.now }
    ensures { IsSumOf design.now corners.now nets.now result }
{
    let mut sum = 0;
    for net in nets {
        sum += u128::from(net_length(design, corners, net));
    }
    sum
}

/// The width plus the height of the smallest rectangle around a net's pins.
fn net_length(design: &Design<'_>, corners: &[Corner], net: &Net) -> u64
    requires pins { AllByRecursion (IsGoodPin (length design.now.nodes)) net.now.pins }
    requires each { length corners.now ≡ length design.now.nodes }
    requires near { All IsNearCorner corners.now }
    ensures { result ≡ net_length design.now corners.now (net_value net.now) }
{
    let [first, others @ ..] = net.pins.as_slice() else {
        return 0;
    };
    let spot = spot_of(design, corners, first);
    let mut across = Extent::of(spot.x);
    let mut up = Extent::of(spot.y);
    for pin in others {
        let spot = spot_of(design, corners, pin);
        across = across.with(spot.x);
        up = up.with(spot.y);
    }
    across.spread() + up.spread()
}

/// Where a pin stands.
fn spot_of(design: &Design<'_>, corners: &[Corner], pin: &Pin) -> Spot
    requires pin { IsGoodPin (length design.now.nodes) pin.now }
    requires each { length corners.now ≡ length design.now.nodes }
    requires near { All IsNearCorner corners.now }
    ensures x { result.x ≡ pin_x design.now corners.now pin.now }
    ensures y { result.y ≡ pin_y design.now corners.now pin.now }
    ensures x_near { IsNear result.x }
    ensures y_near { IsNear result.y }
{
    let node = &design.nodes()[pin.node as usize];
    let corner = corners[pin.node as usize];
    Spot {
        x: beside_centre(corner.x, node.width, pin.dx),
        y: beside_centre(corner.y, node.height, pin.dy),
    }
}

/// Where an offset from the centre of a length leads that begins at a corner. Half of the length is rounded down.
fn beside_centre(corner: i64, size: i64, offset: i64) -> i64
    requires corner { IsMicro corner }
    requires size { IsMicro size }
    requires sign { pos 0 ≤ℤ size }
    requires offset { IsMicro offset }
    ensures place { result ≡ corner +ℤ half size +ℤ offset }
    ensures near { IsNear result }
{
    corner + (size.unsigned_abs() / 2) as i64 + offset
}
