//! The points of a region in the order of (mid, number).

ghost use Rattle.std.specs.Prelude.{◌≡◌, ◌^◌, ◌<◌, ◌≤◌, length, take, All, OnOk};
ghost use Rattle.area_cut.specs.Cut.{area_of, precedes};
ghost use Rattle.area_cut.specs.Order.{IsInOrder};
ghost use Rattle.area_cut.specs.Forms.Placed.{IsFirstCount, numbers_of, placed_points, ArePlaced};
ghost use Rattle.std.specs.List.Sorted.{IsStrictlyIncreasing};

use book_text::Memory;

/// A point, and where it stood on the axis that is cut.
#[derive(Clone, Copy, Debug, PartialEq, Eq, PartialOrd, Ord)]
pub(crate) struct Placed {
    pub(crate) mid: u64,
    pub(crate) point: u32,
}

/// Puts points in order, in place of what the list held.
pub(crate) fn put_in_order(
    order: &mut Vec<Placed>,
    points: &[u32],
    mids: &[u64],
) -> Result<(), Memory>
    requires there { All (λ p. p < length mids.now) points.now }
    requires ascending { IsStrictlyIncreasing points.now }
    ensures order { OnOk result (IsInOrder mids.now points.now (numbers_of order.new.items)) }
    ensures placed { OnOk result (ArePlaced mids.now order.new.items) }
{
    place(order, points, mids)?;
    order.sort_unstable();
    Ok(())
}

/// The points with their mids, in place of what the list held.
fn place(order: &mut Vec<Placed>, points: &[u32], mids: &[u64]) -> Result<(), Memory>
    requires { All (λ p. p < length mids.now) points.now }
    ensures { OnOk result (order.new.items ≡ placed_points mids.now points.now) }
{
    order.clear();
    for point in points {
        order.push(Placed {
            mid: mids[*point as usize],
            point: *point,
        })?;
    }
    Ok(())
}

/// The area of some points.
pub(crate) fn area_of(points: &[u32], areas: &[u64]) -> u64
    requires there { All (λ p. p < length areas.now) points.now }
    requires fits { area_of areas.now points.now < 2 ^ 64 }
    ensures { result ≡ area_of areas.now points.now }
{
    let mut sum = 0;
    for point in points {
        sum += areas[*point as usize];
    }
    sum
}

/// How many points the first part has, and their area.
pub(crate) fn first_part(order: &[Placed], areas: &[u64], total: u64) -> (usize, u64)
    requires there { All (λ p. p.point < length areas.now) order.now }
    requires some { 2 ≤ length order.now }
    requires total { total ≡ area_of areas.now (numbers_of order.now) }
    ensures count { IsFirstCount areas.now (numbers_of order.now) total result.0 }
    ensures area { result.1 ≡ area_of areas.now (take result.0 (numbers_of order.now)) }
{
    let mut part = areas[order[0].point as usize];
    for count in 1..order.len() - 1 {
        if total - part <= part {
            return (count, part);
        }
        part += areas[order[count].point as usize];
    }
    (order.len() - 1, part)
}
