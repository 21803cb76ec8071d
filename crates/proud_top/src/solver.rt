//! Who solves.

ghost use Rattle.std.specs.Prelude.{◌≡◌, ◌≤◌, length, IfOk};
ghost use Rattle.pad_reach.specs.Reaches.{Reaches};
ghost use Rattle.net_model.specs.Webs.{joints_of};
ghost use Rattle.relax_crew.specs.Crew.{IsCrewSize};
ghost use Rattle.level_run.specs.Levels.{IsLevels};
ghost use Rattle.level_run.specs.Rounds.{IsInLimits, last_round};
ghost use Rattle.proud_top.specs.Solve.{AreSolved};
ghost use Rattle.proud_top.specs.Forms.Over.{IsLastOver};

use book_files::Events;
use book_outer::Gate;
use book_text::Memory;
use level_run::{Levels, Options, Rounds, levels, levels_by, levels_enclose};
use net_model::Network;
use pad_reach::{Reach, reach_leads};
use std::alloc::Global;
use std::thread::Threads;

/// The seats that solve: of a crew, with what starts their threads and the gate that is called; or of the events of a schedule.
#[derive(Drop)]
pub(crate) struct Solver<'a, R, G> {
    rt: &'a R,
    gate: &'a G,
    seats: usize,
    events: Option<&'a Events>,
    ghost size: { IsCrewSize seats },
}

impl<'a, R: Threads + Sync, G: Gate> Solver<'a, R, G> {
    /// So many seats, by these events where there are some.
    pub(crate) fn new(rt: &'a R, gate: &'a G, seats: usize, events: Option<&'a Events>) -> Self
        requires { IsCrewSize seats }
        ensures { result.seats ≡ seats }
    {
        Solver {
            rt,
            gate,
            seats,
            events,
        }
    }

    /// What starts threads.
    pub(crate) fn rt(&self) -> &R {
        self.rt
    }

    /// The rounds of a network.
    pub(crate) fn solve(
        &self,
        alloc: Global,
        network: &Network,
        reach: &Reach,
        rounds: Rounds,
    ) -> Result<Levels, Memory>
        requires reach { Reaches (joints_of network.now) reach.now }
        requires limits { IsInLimits rounds }
        ensures solved { IfOk result (AreSolved network.now rounds) }
        ensures over { IfOk result (IsLastOver (length network.now.points) (last_round rounds)) }
    {
        levels_enclose();
        reach_leads();
        let _reach = reach;
        let _points = network.points();
        self.levels(alloc, network, reach, rounds)
    }

    /// The same, of which only is said that they are the rounds.
    fn levels(
        &self,
        alloc: Global,
        network: &Network,
        reach: &Reach,
        rounds: Rounds,
    ) -> Result<Levels, Memory>
        requires reach { Reaches (joints_of network.now) reach.now }
        requires limits { IsInLimits rounds }
        ensures { IfOk result (IsLevels network.now rounds) }
    {
        let options = Options {
            levels: rounds.levels,
            passes: rounds.passes,
            seats: self.seats,
        };
        match self.events {
            Some(events) => levels_by(alloc, network, reach, options, events.as_slice()),
            None => levels(self.rt, alloc, network, reach, options, self.gate),
        }
    }
}
