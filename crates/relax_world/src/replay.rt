//! A schedule replayed on a racing table, and settled.

ghost use Rattle.std.specs.Prelude.{◌≡◌, ℕ, ◌<◌, ◌≤◌, List, [], ◌∷◌, length, replicate, sum, vec_len, IfOk};
ghost use Rattle.relax_system.specs.Sides.{distance, starts_of, IsExtremal};
ghost use Rattle.relax_table.specs.Ways.{IsQuietVector};
ghost use Rattle.relax_table.specs.Seats.{IsSeatOf};
ghost use Rattle.relax_world.specs.World.{IsSeatCount};
ghost use Rattle.relax_world.specs.Forms.Table.{AllSeated, EachMakesOwn, moves_of, IsFirstDone, IsPlayed};

use crate::world::{place_of, starts};
use book_files::Event;
use book_text::Memory;
use relax_system::{Side, System, Values};
use relax_table::{Direction, Down, SideSeat, SideTable, Steps, Up};
use std::alloc::Global;
use std::marker::Brand;
use std::sync::ledger::{Blank, Ledger};

/// What a schedule led to.
#[derive(Drop)]
pub struct Played {
    /// What seat 0 has seen once it is settled: a coordinate per point.
    pub values: Values,
    /// How many renewals of each seat changed a word: those of its events, and for seat 0 those of its settling, too.
    pub raises: Values,
}

/// Replays a schedule on a racing table of that side, with that many seats, and settles seat 0.
///
/// The events are made in order, on the calling thread: a load by `SideTable::load`, a renewal by `SideTable::renew`, each by its
/// seat on its point. An event of a seat or a point that isn't there does nothing. An event takes no memory, and time by the entries
/// of its point alone. A system without points has no values, and each of its seats no raise. Only want of memory is refused.
pub fn play(
    alloc: Global,
    system: &System,
    side: Side,
    seats: u32,
    events: &[Event],
) -> Result<Played, Memory>
    requires { IsSeatCount seats }
    ensures values { IfOk result (λ p. IsExtremal side system.now p.values) }
    ensures raises { IfOk result (λ p. length p.raises ≡ seats) }
    ensures bound { IfOk result (λ p. sum p.raises ≤ distance side (starts_of side system.now) p.values) }
{
    match side {
        Side::Floor => play_side::<Up>(alloc, system, seats, events),
        Side::Ceil => play_side::<Down>(alloc, system, seats, events),
    }
}

/// The same for the side of a table's direction.
fn play_side<D: Direction>(
    alloc: Global,
    system: &System,
    seats: u32,
    events: &[Event],
) -> Result<Played, Memory>
    requires { IsSeatCount seats }
    ensures { IfOk result (λ p. IsPlayed D.side system.now seats p.values p.raises) }
{
    if system.points() == 0 {
        return Ok(Played {
            values: Values::new(alloc),
            raises: zeros(alloc, seats)?,
        });
    }
    let start = starts(alloc, D::side(), system)?;
    let (table, first) = SideTable::<D>::over(alloc, system, &start)?;
    let mut crew = seats_of(alloc, &table, first, seats)?;
    run::<D, Brand>(&table, system.points(), &mut crew, events, Blank::new(1));
    answer(alloc, &table, crew)
}

/// So many zeros.
fn zeros(alloc: Global, count: u32) -> Result<Values, Memory>
    ensures { IfOk result (λ v. v ≡ replicate count 0) }
{
    let mut values = Values::new(alloc);
    for _ in 0..count {
        values.push(0)?;
    }
    Ok(values)
}

/// Seats of the table, of which one is given.
fn seats_of<D: Direction>(
    alloc: Global,
    table: &SideTable<'_, D>,
    mut first: SideSeat<D>,
    seats: u32,
) -> Result<Vec<SideSeat<D>>, Memory>
    requires own { IsSeatOf table.now first }
    requires some { 1 ≤ seats }
    ensures count { IfOk result (λ crew. vec_len crew ≡ seats) }
    ensures seated { IfOk result (λ crew. AllSeated table.now crew.items) }
{
    let mut crew = Vec::with_capacity(alloc, seats as usize)?;
    for _ in 1..seats {
        crew.push(table.split_side(&mut first)?)?;
    }
    crew.push(first)?;
    Ok(crew)
}

/// Makes the steps of the events in order, and settles the first seat. The steps aren't counted.
fn run<D: Direction, L: Ledger>(
    table: &SideTable<'_, D>,
    points: usize,
    crew: &mut [SideSeat<D>],
    events: &[Event],
    blank: Blank,
)
    requires points { points ≡ length table.now.system }
    requires seated { AllSeated table.now crew.old }
    requires some { 0 < length crew.old }
    requires name { blank.name ≡ L.name }
    requires parts { blank.parts ≡ L.parts }
    requires any { 0 < L.parts }
    ensures count { length crew.new ≡ length crew.old }
    ensures seated { AllSeated table.now crew.new }
    ensures done { IsFirstDone D.side table.now crew.new }
{
    let mut steps = Steps::<L>::new(blank);
    make_steps(table, points, crew, events, &mut steps);
    table.settle_all(&mut crew[0], &mut steps);
}

/// Makes the steps of the events, in order.
fn make_steps<D: Direction, L: Ledger>(
    table: &SideTable<'_, D>,
    points: usize,
    crew: &mut [SideSeat<D>],
    events: &[Event],
    steps: &mut Steps<L>,
)
    requires points { points ≡ length table.now.system }
    requires seated { AllSeated table.now crew.old }
    ensures count { length crew.new ≡ length crew.old }
    ensures seated { AllSeated table.now crew.new }
    ensures own { EachMakesOwn points events.now crew.old crew.new }
{
    for event in events {
        make_step(table, points, crew, *event, steps);
    }
}

/// Makes the step of an event, where its seat and its point are there.
fn make_step<D: Direction, L: Ledger>(
    table: &SideTable<'_, D>,
    points: usize,
    crew: &mut [SideSeat<D>],
    event: Event,
    steps: &mut Steps<L>,
)
    requires points { points ≡ length table.now.system }
    requires seated { AllSeated table.now crew.old }
    ensures count { length crew.new ≡ length crew.old }
    ensures seated { AllSeated table.now crew.new }
    ensures own { EachMakesOwn points (event ∷ []) crew.old crew.new }
{
    let (seat, point) = place_of(event);
    if seat < crew.len() && point < points {
        let seat = &mut crew[seat];
        match event {
            Event::Load { .. } => {
                table.load(seat, point, steps);
            }
            Event::Renew { .. } => {
                table.renew(seat, point, steps);
            }
        }
    }
}

/// What the first seat has seen, and the raises of each.
fn answer<D: Direction>(
    alloc: Global,
    table: &SideTable<'_, D>,
    crew: Vec<SideSeat<D>>,
) -> Result<Played, Memory>
    requires seated { AllSeated table.now crew.items }
    requires some { 0 < vec_len crew }
    requires done { IsFirstDone D.side table.now crew.items }
    requires start { table.now.start ≡ starts_of D.side table.now.system }
    ensures { IfOk result (λ p. IsPlayed D.side table.now.system (vec_len crew) p.values p.raises) }
{
    let values = copy_of(alloc, crew[0].values())?;
    let raises = raises_of(alloc, &crew)?;
    all_moves(table, crew);
    Ok(Played { values, raises })
}

/// The same numbers once more.
fn copy_of(alloc: Global, numbers: &[u64]) -> Result<Values, Memory>
    ensures { IfOk result (λ v. v ≡ numbers.now) }
{
    let mut values = Values::new(alloc);
    for number in numbers {
        values.push(*number)?;
    }
    Ok(values)
}

/// How many words each seat has moved.
fn raises_of<D: Direction>(alloc: Global, crew: &[SideSeat<D>]) -> Result<Values, Memory>
    ensures { IfOk result (λ v. v ≡ moves_of crew.now) }
{
    let mut raises = Values::new(alloc);
    for seat in crew {
        raises.push(seat.moves())?;
    }
    Ok(raises)
}

/// How many words all seats have moved, by one seat that they are joined to: at most what any quiet vector went from the start.
fn all_moves<D: Direction>(table: &SideTable<'_, D>, mut crew: Vec<SideSeat<D>>) -> u64
    requires { AllSeated table.now crew.items }
    ensures total { result ≡ sum (moves_of crew.items) }
    ensures bound { (u : List ℕ) → IsQuietVector D.side table.now.system u → result ≤ distance D.side table.now.start u }
{
    let Some(mut joined) = crew.pop() else {
        return 0;
    };
    while let Some(seat) = crew.pop() {
        joined = table.join_sides(joined, seat);
    }
    joined.moves()
}
