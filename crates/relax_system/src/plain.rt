//! The plain solvers, on one thread: Gauss-Seidel sweeps from one end of the boxes until a sweep changes nothing.

ghost use Rattle.std.specs.Prelude.{◌≡◌, IfOk};
ghost use Rattle.relax_system.specs.Extremal.{IsLeast, IsGreatest};
ghost use Rattle.relax_system.specs.Sides.{IsExtremal, starts_of};

use crate::flat::Flat;
use crate::side::Side;
use crate::system::System;
use crate::values::Values;
use book_text::Memory;
use std::alloc::Global;

/// The least vector: the pre-fixed vector that is at most every pre-fixed vector of the boxes. Only want of memory is refused.
pub fn least_plain(alloc: Global, system: &System) -> Result<Values, Memory>
    ensures { IfOk result (IsLeast system.now) }
{
    solve(alloc, Side::Floor, system)
}

/// The greatest vector: the post-fixed vector that is at least every post-fixed vector of the boxes. Only want of memory is
/// refused.
pub fn greatest_plain(alloc: Global, system: &System) -> Result<Values, Memory>
    ensures { IfOk result (IsGreatest system.now) }
{
    solve(alloc, Side::Ceil, system)
}

/// The extremal vector of a side.
#[inline(always)]
fn solve(alloc: Global, side: Side, system: &System) -> Result<Values, Memory>
    ensures { IfOk result (IsExtremal side system.now) }
{
    let flat = Flat::new(alloc, system)?;
    let narrow = system.is_narrow();
    let mut items = starts(alloc, side, system)?;
    'sweeps: while flat.sweep(side, narrow, &mut items) {}
    Ok(Values { items })
}

/// The vector of the ends of the boxes at which a side begins.
fn starts(alloc: Global, side: Side, system: &System) -> Result<Vec<u64>, Memory>
    ensures { IfOk result (λ v. v.items ≡ starts_of side system.now) }
{
    let mut items = Vec::new(alloc);
    for i in 0..system.points() {
        let point = system.point(i);
        items.push(match side {
            Side::Floor => point.lo,
            Side::Ceil => point.hi,
        })?;
    }
    Ok(items)
}
