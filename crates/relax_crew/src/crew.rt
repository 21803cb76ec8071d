//! The crew of a table, over its direction.

ghost use Rattle.std.specs.Prelude.{◌≡◌, ◌≢◌, ◌+◌, ◌-◌, ◌<◌, ◌≤◌, ℕ, List, length, vec_len, All, IfOk, IfSome, IsSome};
ghost use Rattle.std.specs.Thread.{IsSync};
ghost use Rattle.relax_system.specs.Means.{InBoxes};
ghost use Rattle.relax_system.specs.Sides.{AllBefore, start_of, starts_of, IsExtremal};
ghost use Rattle.relax_system.specs.Halved.{doubled};
ghost use Rattle.relax_table.specs.Ways.{IsQuietVector};
ghost use Rattle.relax_table.specs.Seats.{IsSeatOf, BeginsWithSweep};
ghost use Rattle.relax_crew.specs.Crew.{IsCrewSize};
ghost use Rattle.relax_table.specs.Forms.Sweep.{SweepsOnce};
ghost use Rattle.relax_crew.specs.Forms.Turns.{AllSeated, AllSingle, HasRun, IsTurnOver, IsTurn};
ghost use Rattle.relax_crew.specs.Forms.Shifts.{IsSettled, IsReached, IsSolved};

use crate::range::{MOST_SEATS, marks_of, range_of};
use book_outer::Gate;
use book_text::Memory;
use relax_system::{MOST_COORDINATE, MOST_POINTS, MOST_SHIFT, Point, Side, System};
use relax_table::{Direction, MOST_PASSES, SideSeat, SideTable, Steps};
use std::alloc::Global;
use std::marker::Brand;
use std::sync::ledger::{Blank, Ledger};
use std::thread;
use std::thread::Threads;

/// A seat that has seen the extremal vector of its side, into which the seats of the last solve were joined, and how many words the
/// seats of all solves moved. Only want of memory is refused.
pub(crate) fn solve<D: Direction, R: Threads + Sync, G: Gate>(
    rt: &R,
    alloc: Global,
    system: &System,
    seats: usize,
    gate: &G,
) -> Result<(SideSeat<D>, u64), Memory>
    requires some { 0 < length system.now }
    requires seats { IsCrewSize seats }
    ensures { IfOk result (λ s. IsSolved D.side system.now seats s.0 s.1) }
{
    let _ = system.points();
    let (mut start, before) = solve_halved::<D, R, G>(rt, alloc, system, seats, gate)?;
    double(D::side(), system, &mut start);
    let seat = settle_from::<D, R, G>(rt, alloc, system, &start, seats, gate)?;
    let moves = before + seat.moves();
    Ok((seat, moves))
}

/// The extremal vector of a side of the system halved once, and how many words were moved on the way: by a solve of the system
/// with the most halvings, and then of those with one halving less each, from twice what the one before has found.
fn solve_halved<D: Direction, R: Threads + Sync, G: Gate>(
    rt: &R,
    alloc: Global,
    system: &System,
    seats: usize,
    gate: &G,
) -> Result<(Vec<u64>, u64), Memory>
    requires some { 0 < length system.now }
    requires seats { IsCrewSize seats }
    ensures { IfOk result (λ s. IsReached D.side system.now 1 s.0.items s.1) }
{
    let _ = system.points();
    let mut halved = system.halved(alloc, D::side(), MOST_SHIFT)?;
    let mut found = starts(alloc, D::side(), &halved)?;
    let seat = settle_from::<D, R, G>(rt, alloc, &halved, &found, seats, gate)?;
    found.copy_from_slice(seat.values());
    let mut moves = seat.moves();
    let mut shift = MOST_SHIFT;
    'shifts: while shift > 1 {
        shift -= 1;
        halved.halve_anew(system, D::side(), shift);
        double(D::side(), &halved, &mut found);
        let seat = settle_from::<D, R, G>(rt, alloc, &halved, &found, seats, gate)?;
        found.copy_from_slice(seat.values());
        moves += seat.moves();
    }
    Ok((found, moves))
}

/// The ends of the boxes at which a side begins.
fn starts(alloc: Global, side: Side, system: &System) -> Result<Vec<u64>, Memory>
    ensures { IfOk result (λ v. v.items ≡ starts_of side system.now) }
{
    let mut start = Vec::with_capacity(alloc, system.points())?;
    for i in 0..system.points() {
        start.push(end_of(side, system.point(i)))?;
    }
    Ok(start)
}

/// Doubles each entry, but no further back than the end of its box at which the side begins.
fn double(side: Side, system: &System, v: &mut Vec<u64>)
    requires all { length v.old.items ≡ length system.now }
    requires low { All (λ x. x ≤ MOST_COORDINATE) v.old.items }
    ensures { v.new.items ≡ doubled side system.now v.old.items }
{
    for i in 0..v.len() {
        let end = end_of(side, system.point(i));
        let twice = 2 * v[i];
        v[i] = match side {
            Side::Floor => end.max(twice),
            Side::Ceil => end.min(twice),
        };
    }
}

/// The end of a point's box at which a side begins.
fn end_of(side: Side, point: &Point) -> u64
    ensures { result ≡ start_of side point.now }
{
    match side {
        Side::Floor => point.lo,
        Side::Ceil => point.hi,
    }
}

/// A seat that has seen the extremal vector, into which the seats of a crew were joined that began with the start.
fn settle_from<D: Direction, R: Threads + Sync, G: Gate>(
    rt: &R,
    alloc: Global,
    system: &System,
    start: &[u64],
    seats: usize,
    gate: &G,
) -> Result<SideSeat<D>, Memory>
    requires some { 0 < length system.now }
    requires seats { IsCrewSize seats }
    requires boxes { InBoxes system.now start.now }
    requires first { (u : List ℕ) → IsQuietVector D.side system.now u → AllBefore D.side start.now u }
    ensures { IfOk result (IsSettled D.side system.now start.now seats) }
{
    let points = system.points();
    let (table, first) = SideTable::<D>::over(alloc, system, start)?;
    let crew = seats_of(alloc, &table, first, seats)?;
    Ok(run(rt, &table, points, crew, gate))
}

/// Seats of the table, of which the first is given.
fn seats_of<D: Direction>(
    alloc: Global,
    table: &SideTable<'_, D>,
    mut first: SideSeat<D>,
    seats: usize,
) -> Result<Vec<SideSeat<D>>, Memory>
    requires own { IsSeatOf table.now first }
    requires single { first.parts ≡ 1 }
    requires some { 1 ≤ seats }
    ensures count { IfOk result (λ crew. vec_len crew ≡ seats) }
    ensures seated { IfOk result (λ crew. AllSeated table.now crew.items) }
    ensures single { IfOk result (λ crew. AllSingle crew.items) }
{
    let mut crew = Vec::with_capacity(alloc, seats)?;
    for _ in 1..seats {
        crew.push(table.split_side(&mut first)?)?;
    }
    crew.push(first)?;
    Ok(crew)
}

/// The seats of a crew joined into one, after each has taken its turn: in a thread of its own where they are several.
fn run<D: Direction, R: Threads + Sync, G: Gate>(
    rt: &R,
    table: &SideTable<'_, D>,
    points: usize,
    mut crew: Vec<SideSeat<D>>,
    gate: &G,
) -> SideSeat<D>
    requires points { points ≡ length table.now.system }
    requires few { points ≤ MOST_POINTS }
    requires some { IsCrewSize (vec_len crew) }
    requires seated { AllSeated table.now crew.items }
    requires single { AllSingle crew.items }
    ensures { HasRun D.side table.now (vec_len crew) result }
{
    let seats = crew.len();
    if seats > 1 {
        let Some(seat) = run_in_threads(rt, table, points, seats, crew, gate) else {
            unreachable!()
        };
        return seat;
    }
    let Some(seat) = crew.pop() else {
        unreachable!()
    };
    take_turn(table, seat, 0, seats, points, gate)
}

/// Runs the seats of a crew, the last one first, each in a thread of its own, and joins them into one. The thread of the caller does
/// nothing but wait: where it went on working itself, a scheduler might leave the first of the new threads behind it on its processor.
fn run_in_threads<D: Direction, R: Threads + Sync, G: Gate>(
    rt: &R,
    table: &SideTable<'_, D>,
    points: usize,
    seats: usize,
    mut crew: Vec<SideSeat<D>>,
    gate: &G,
) -> Option<SideSeat<D>>
    requires points { points ≡ length table.now.system }
    requires few { points ≤ MOST_POINTS }
    requires count { vec_len crew ≤ seats }
    requires seats { seats ≤ MOST_SEATS }
    requires seated { AllSeated table.now crew.items }
    requires single { AllSingle crew.items }
    ensures none { vec_len crew ≢ 0 → IsSome result }
    ensures run { IfSome result (HasRun D.side table.now (vec_len crew)) }
{
    let seat = crew.pop()?;
    let k = crew.len();
    let (seat, others) = thread::join(
        rt,
        move || -> SideSeat<D>
            requires { IsSync G.row × (k < seats) × (seats ≤ MOST_SEATS) × (points ≤ MOST_POINTS) × (points ≡ length table.now.system) × IsSeatOf table.now seat × (seat.parts ≡ 1) }
            ensures { HasRun D.side table.entry.now 1 result }
        { take_turn(table, seat, k, seats, points, gate) },
        move || -> Option<SideSeat<D>>
            requires { IsSync R.row × IsSync G.row × (vec_len crew ≤ seats) × (seats ≤ MOST_SEATS) × (points ≤ MOST_POINTS) × (points ≡ length table.now.system) × AllSeated table.now crew.items × AllSingle crew.items }
            ensures { (vec_len crew ≢ 0 → IsSome result) × IfSome result (HasRun D.side table.entry.now (vec_len crew)) }
        { run_in_threads(rt, table, points, seats, crew, gate) },
    );
    Some(together(table, seat, others, k))
}

/// One seat of a crew and the `k` others, which are joined already.
fn together<D: Direction>(
    table: &SideTable<'_, D>,
    seat: SideSeat<D>,
    others: Option<SideSeat<D>>,
    k: usize,
) -> SideSeat<D>
    requires one { HasRun D.side table.now 1 seat }
    requires others { IfSome others (HasRun D.side table.now k) }
    requires some { k ≢ 0 → IsSome others }
    ensures { HasRun D.side table.now (k + 1) result }
{
    let _ = k;
    match others {
        None => seat,
        Some(others) => table.join_sides(seat, others),
    }
}

/// What the thread of seat `k` does, over its own range first. Its steps aren't counted.
fn take_turn<D: Direction, G: Gate>(
    table: &SideTable<'_, D>,
    mut seat: SideSeat<D>,
    k: usize,
    seats: usize,
    points: usize,
    gate: &G,
) -> SideSeat<D>
    requires own { IsSeatOf table.now seat }
    requires points { points ≡ length table.now.system }
    requires few { points ≤ MOST_POINTS }
    requires seat { k < seats }
    requires seats { seats ≤ MOST_SEATS }
    ensures run { HasRun D.side table.now seat.parts result }
    ensures turn { IsTurn table.now.system k seats seat result }
{
    let range = range_of(k, seats, points);
    work::<D, Brand, G>(table, &mut seat, k, range, gate, Blank::new(1));
    seat
}

/// What one seat does: it relaxes its range once, calling the gate after each point, chases the mark words of its range, settles its
/// range, and settles all points.
fn work<D: Direction, L: Ledger, G: Gate>(
    table: &SideTable<'_, D>,
    seat: &mut SideSeat<D>,
    k: usize,
    range: (usize, usize),
    gate: &G,
    blank: Blank,
)
    requires own { IsSeatOf table.now seat.old }
    requires order { range.0 ≤ range.1 }
    requires within { range.1 ≤ length table.now.system }
    requires few { range.1 ≤ MOST_POINTS }
    requires name { blank.name ≡ L.name }
    requires parts { blank.parts ≡ L.parts }
    requires any { 0 < L.parts }
    ensures own { IsSeatOf table.now seat.new }
    ensures extremal { IsExtremal D.side table.now.system seat.new.seen }
    ensures turn { IsTurnOver table.now.system range.0 range.1 seat.old seat.new }
{
    let mut steps = Steps::<L>::new(blank);
    let (from, to) = range;
    first_sweep(table, seat, k, range, gate, &mut steps);
    let (first, end) = marks_of(from, to);
    table.chase_side(seat, first, end, MOST_PASSES, &mut steps);
    settle(table, seat, range, &mut steps);
}

/// Settles a range, and then all points.
#[tactic(auto, using(crate::proofs::Sweeping::begun_and_more))]
fn settle<D: Direction, L: Ledger>(
    table: &SideTable<'_, D>,
    seat: &mut SideSeat<D>,
    range: (usize, usize),
    steps: &mut Steps<L>,
)
    requires own { IsSeatOf table.now seat.old }
    requires order { range.0 ≤ range.1 }
    requires within { range.1 ≤ length table.now.system }
    ensures own { IsSeatOf table.now seat.new }
    ensures extremal { IsExtremal D.side table.now.system seat.new.seen }
    ensures begins { BeginsWithSweep table.now.system range.0 range.1 seat.old seat.new }
    ensures takes { seat.new.takes ≡ seat.old.takes }
{
    table.settle_side(seat, range.0, range.1, steps);
    table.settle_all(seat, steps);
}

/// Relaxes each point of a range once, and calls the gate after each.
fn first_sweep<D: Direction, L: Ledger, G: Gate>(
    table: &SideTable<'_, D>,
    seat: &mut SideSeat<D>,
    k: usize,
    range: (usize, usize),
    gate: &G,
    steps: &mut Steps<L>,
)
    requires own { IsSeatOf table.now seat.old }
    requires order { range.0 ≤ range.1 }
    requires within { range.1 ≤ length table.now.system }
    ensures own { IsSeatOf table.now seat.new }
    ensures swept { SweepsOnce table.now.system range.0 range.1 seat.old seat.new }
{
    let (from, to) = range;
    for i in from..to {
        table.relax_side(seat, i, steps);
        gate.pass(k, i);
    }
}
