//! The crew of a floor table.

ghost use Rattle.std.specs.Prelude.{◌≡◌, ◌<◌, ◌≤◌, length, IfOk};
ghost use Rattle.relax_system.specs.declared.side.Side.TheVariants.{Floor};
ghost use Rattle.relax_system.specs.Sides.{starts_of};
ghost use Rattle.relax_system.specs.Extremal.{IsLeast};
ghost use Rattle.relax_table.specs.Floor.{rise};
ghost use Rattle.relax_crew.specs.Crew.{IsCrewSize, IsTwiceLeast};

use crate::crew::solve;
use book_outer::Gate;
use book_text::Memory;
use relax_system::System;
use relax_table::{FloorSeat, Up};
use std::alloc::Global;
use std::thread::Threads;

/// The seat into which all seats of the last solve were joined, and how many fetches raised a word in all solves.
#[derive(Drop)]
pub struct FloorAnswer {
    pub seat: FloorSeat,
    pub raises: u64,
}

/// The least vector of a system with a point, by 1 to 64 seats, from the bottoms of the boxes.
///
/// The system with 20 halvings is solved first, and then those with one halving less each, down to the system itself. The first
/// solve begins at the bottoms of the boxes, each other one at twice what the one before has found. In each solve a seat relaxes the
/// points of its range once, and the gate is called after each relaxation; then it settles its range, and then all points. The
/// seats of a solve are joined before the next one begins. Each solve makes its table and all its seats first, and only want of
/// memory is refused.
pub fn least<R: Threads + Sync, G: Gate>(
    rt: &R,
    alloc: Global,
    system: &System,
    seats: usize,
    gate: &G,
) -> Result<FloorAnswer, Memory>
    requires some { 0 < length system.now }
    requires seats { IsCrewSize seats }
    ensures system { IfOk result (λ a. a.seat.system ≡ system.now) }
    ensures parts { IfOk result (λ a. a.seat.parts ≡ seats) }
    ensures start { IfOk result (λ a. IsTwiceLeast system.now a.seat.start) }
    ensures least { IfOk result (λ a. IsLeast system.now a.seat.seen) }
    ensures raises { IfOk result (λ a. a.seat.moves ≤ a.raises) }
    ensures bound { IfOk result (λ a. a.raises ≤ rise (starts_of Floor system.now) a.seat.seen) }
{
    let (seat, raises) = solve::<Up, R, G>(rt, alloc, system, seats, gate)?;
    Ok(FloorAnswer { seat, raises })
}
