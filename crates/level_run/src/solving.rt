//! Who solves the systems of levels.

ghost use Rattle.std.specs.Prelude.{◌≡◌, ℕ, ◌+◌, ◌/◌, ◌^◌, ◌<◌, ◌≤◌, [], length, slice_index, IfOk};
ghost use Rattle.relax_system.specs.Extremal.{IsLeast, IsGreatest};
ghost use Rattle.relax_crew.specs.Crew.{IsCrewSize};
ghost use Rattle.level_run.specs.Levels.{IsSolve, IsFirst, IsNext, IsLevels, HasChains, areas_of, halfway};
ghost use Rattle.level_run.specs.Rounds.{IsInLimits};
ghost use Rattle.level_run.specs.Forms.Solved.{IsSane, Solves};

use crate::hierarchy::{areas, first_systems, next_systems};
use crate::level::{Level, Levels, Solve};
use crate::rounds::{MOST_ROUNDS, Rounds};
use area_cut::{Regions, parts_share};
use book_files::Event;
use book_outer::Gate;
use book_text::Memory;
use net_model::Network;
use relax_crew::{greatest, least};
use relax_system::{Side, System, Values};
use relax_world::play;
use std::alloc::Global;
use std::thread::Threads;

/// A round that isn't solved yet: its regions, and their systems on both axes.
#[derive(Drop)]
pub(crate) struct Unsolved {
    pub(crate) regions: Regions,
    pub(crate) x: System,
    pub(crate) y: System,
}

/// Who solves: the seats of a crew, what starts their threads, and the gate that is called.
#[derive(Drop)]
pub(crate) struct Crew<'a, R, G> {
    rt: &'a R,
    gate: &'a G,
    seats: usize,
    ghost size: { IsCrewSize seats },
}

impl<'a, R: Threads + Sync, G: Gate> Crew<'a, R, G> {
    /// A crew of so many seats.
    pub(crate) fn new(rt: &'a R, gate: &'a G, seats: usize) -> Self
        requires { IsCrewSize seats }
        ensures { result.seats ≡ seats }
    {
        Crew { rt, gate, seats }
    }

    /// The rounds of all levels.
    pub(crate) fn levels(
        &self,
        alloc: Global,
        network: &Network,
        rounds: Rounds,
    ) -> Result<Levels, Memory>
        requires chains { HasChains network.now }
        requires limits { IsInLimits rounds }
        ensures { IfOk result (IsLevels network.now rounds) }
    {
        parts_share();
        let _points = network.points();
        let areas = areas(alloc, network)?;
        let mut levels = Levels::new(alloc);
        levels.push(self.first_round(alloc, network)?)?;
        for r in 0..rounds.count() - 1 {
            let last = &levels.as_slice()[r as usize];
            let next = self.next_round(alloc, network, &areas, rounds.passes, r, last)?;
            levels.push(next)?;
        }
        Ok(levels)
    }

    /// The first round: all points share the core.
    fn first_round(&self, alloc: Global, network: &Network) -> Result<Level, Memory>
        requires { HasChains network.now }
        ensures { IfOk result (IsFirst network.now) }
    {
        self.round(alloc, first_systems(alloc, network)?)
    }

    /// The round after this one, which is round r.
    fn next_round(
        &self,
        alloc: Global,
        network: &Network,
        areas: &[u64],
        passes: u32,
        r: u32,
        round: &Level,
    ) -> Result<Level, Memory>
        requires chains { HasChains network.now }
        requires areas { areas.now ≡ areas_of network.now }
        requires some { 1 ≤ passes }
        requires few { r < MOST_ROUNDS }
        requires sane { IsSane network.now round.now }
        ensures { IfOk result (IsNext network.now passes r round.now) }
    {
        self.round(
            alloc,
            next_systems(alloc, network, areas, passes, r, round)?,
        )
    }

    /// The round of these systems.
    fn round(&self, alloc: Global, unsolved: Unsolved) -> Result<Level, Memory>
        ensures { IfOk result (Solves unsolved) }
    {
        let x = self.solve(alloc, &unsolved.x)?;
        let y = self.solve(alloc, &unsolved.y)?;
        Ok(Level {
            regions: unsolved.regions,
            x,
            y,
        })
    }

    /// The least and the greatest vector of a system, and what lies halfway.
    fn solve(&self, alloc: Global, system: &System) -> Result<Solve, Memory>
        ensures { IfOk result (IsSolve system.now) }
    {
        if system.points() == 0 {
            return Ok(empty(alloc));
        }
        let lo = least(self.rt, alloc, system, self.seats, self.gate)?;
        let hi = greatest(self.rt, alloc, system, self.seats, self.gate)?;
        solve_of(alloc, system, lo.seat.seen(), hi.seat.seen())
    }
}

/// Who solves by a schedule: its events, and the seats that make them.
#[derive(Drop)]
pub(crate) struct Player<'a> {
    events: &'a [Event],
    seats: usize,
    ghost size: { IsCrewSize seats },
}

impl<'a> Player<'a> {
    /// The player of these events, by so many seats.
    pub(crate) fn new(events: &'a [Event], seats: usize) -> Self
        requires { IsCrewSize seats }
        ensures { result.seats ≡ seats }
    {
        Player { events, seats }
    }

    /// The rounds of all levels.
    pub(crate) fn levels(
        &self,
        alloc: Global,
        network: &Network,
        rounds: Rounds,
    ) -> Result<Levels, Memory>
        requires chains { HasChains network.now }
        requires limits { IsInLimits rounds }
        ensures { IfOk result (IsLevels network.now rounds) }
    {
        parts_share();
        let _points = network.points();
        let areas = areas(alloc, network)?;
        let mut levels = Levels::new(alloc);
        levels.push(self.first_round(alloc, network)?)?;
        for r in 0..rounds.count() - 1 {
            let last = &levels.as_slice()[r as usize];
            let next = self.next_round(alloc, network, &areas, rounds.passes, r, last)?;
            levels.push(next)?;
        }
        Ok(levels)
    }

    /// The first round: all points share the core.
    fn first_round(&self, alloc: Global, network: &Network) -> Result<Level, Memory>
        requires { HasChains network.now }
        ensures { IfOk result (IsFirst network.now) }
    {
        self.round(alloc, first_systems(alloc, network)?)
    }

    /// The round after this one, which is round r.
    fn next_round(
        &self,
        alloc: Global,
        network: &Network,
        areas: &[u64],
        passes: u32,
        r: u32,
        round: &Level,
    ) -> Result<Level, Memory>
        requires chains { HasChains network.now }
        requires areas { areas.now ≡ areas_of network.now }
        requires some { 1 ≤ passes }
        requires few { r < MOST_ROUNDS }
        requires sane { IsSane network.now round.now }
        ensures { IfOk result (IsNext network.now passes r round.now) }
    {
        self.round(
            alloc,
            next_systems(alloc, network, areas, passes, r, round)?,
        )
    }

    /// The round of these systems.
    fn round(&self, alloc: Global, unsolved: Unsolved) -> Result<Level, Memory>
        ensures { IfOk result (Solves unsolved) }
    {
        let x = self.solve(alloc, &unsolved.x)?;
        let y = self.solve(alloc, &unsolved.y)?;
        Ok(Level {
            regions: unsolved.regions,
            x,
            y,
        })
    }

    /// The least and the greatest vector of a system, and what lies halfway.
    fn solve(&self, alloc: Global, system: &System) -> Result<Solve, Memory>
        ensures { IfOk result (IsSolve system.now) }
    {
        if system.points() == 0 {
            return Ok(empty(alloc));
        }
        let lo = play(alloc, system, Side::Floor, self.seats as u32, self.events)?;
        let hi = play(alloc, system, Side::Ceil, self.seats as u32, self.events)?;
        solve_of(alloc, system, lo.values.as_slice(), hi.values.as_slice())
    }
}

/// The solve of a system without points.
fn empty(alloc: Global) -> Solve
    ensures { result ≡ record { lo = []; hi = []; mid = [] } }
{
    Solve {
        lo: Values::new(alloc),
        hi: Values::new(alloc),
        mid: Values::new(alloc),
    }
}

/// The solve of a system with these vectors.
fn solve_of(alloc: Global, system: &System, lo: &[u64], hi: &[u64]) -> Result<Solve, Memory>
    requires lo { IsLeast system.now lo.now }
    requires hi { IsGreatest system.now hi.now }
    ensures { IfOk result (IsSolve system.now) }
{
    let _points = system.points();
    Ok(Solve {
        lo: values(alloc, lo)?,
        hi: values(alloc, hi)?,
        mid: halfway(alloc, lo, hi)?,
    })
}

/// The same vector once more.
fn values(alloc: Global, items: &[u64]) -> Result<Values, Memory>
    ensures { IfOk result (λ values. values ≡ items.now) }
{
    let mut values = Values::new(alloc);
    for item in items {
        values.push(*item)?;
    }
    Ok(values)
}

/// Half of the sum of the two entries of each point, rounded down.
fn halfway(alloc: Global, lo: &[u64], hi: &[u64]) -> Result<Values, Memory>
    requires same { length lo.now ≡ length hi.now }
    requires fit { (i : ℕ) → slice_index lo.now i + slice_index hi.now i < 2 ^ 64 }
    ensures { IfOk result (λ mid. mid ≡ halfway lo.now hi.now) }
{
    let mut mid = Values::new(alloc);
    for i in 0..lo.len() {
        mid.push((lo[i] + hi[i]) / 2)?;
    }
    Ok(mid)
}
