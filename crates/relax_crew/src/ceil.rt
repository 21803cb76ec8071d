//! The crew of a ceil table.

ghost use Rattle.std.specs.Prelude.{◌≡◌, ◌<◌, ◌≤◌, length, IfOk};
ghost use Rattle.relax_system.specs.declared.side.Side.TheVariants.{Ceil};
ghost use Rattle.relax_system.specs.Sides.{starts_of};
ghost use Rattle.relax_system.specs.Extremal.{IsGreatest};
ghost use Rattle.relax_table.specs.Ceil.{fall};
ghost use Rattle.relax_crew.specs.Crew.{IsCrewSize, IsTwiceGreatest};

use crate::crew::solve;
use book_outer::Gate;
use book_text::Memory;
use relax_system::System;
use relax_table::{CeilSeat, Down};
use std::alloc::Global;
use std::thread::Threads;

/// The seat into which all seats of the last solve were joined, and how many fetches lowered a word in all solves.
#[derive(Drop)]
pub struct CeilAnswer {
    pub seat: CeilSeat,
    pub lowers: u64,
}

/// The greatest vector of a system with a point, by 1 to 64 seats, from the tops of the boxes.
///
/// The system with 20 halvings is solved first, and then those with one halving less each, down to the system itself. The first
/// solve begins at the tops of the boxes, each other one at twice what the one before has found. In each solve a seat relaxes the
/// points of its range once, and the gate is called after each relaxation; then it settles its range, and then all points. The
/// seats of a solve are joined before the next one begins. Each solve makes its table and all its seats first, and only want of
/// memory is refused.
pub fn greatest<R: Threads + Sync, G: Gate>(
    rt: &R,
    alloc: Global,
    system: &System,
    seats: usize,
    gate: &G,
) -> Result<CeilAnswer, Memory>
    requires some { 0 < length system.now }
    requires seats { IsCrewSize seats }
    ensures system { IfOk result (λ a. a.seat.system ≡ system.now) }
    ensures parts { IfOk result (λ a. a.seat.parts ≡ seats) }
    ensures start { IfOk result (λ a. IsTwiceGreatest system.now a.seat.start) }
    ensures greatest { IfOk result (λ a. IsGreatest system.now a.seat.seen) }
    ensures lowers { IfOk result (λ a. a.seat.moves ≤ a.lowers) }
    ensures bound { IfOk result (λ a. a.lowers ≤ fall (starts_of Ceil system.now) a.seat.seen) }
{
    let (seat, lowers) = solve::<Down, R, G>(rt, alloc, system, seats, gate)?;
    Ok(CeilAnswer { seat, lowers })
}
