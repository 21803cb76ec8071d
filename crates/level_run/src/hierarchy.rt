//! The rounds of a network: the chip is cut over and over, and each round is solved against the one before.

ghost use Rattle.std.specs.Prelude.{◌≡◌, ℕ, ◌+◌, ◌^◌, ◌<◌, ◌≤◌, ◌∷◌, [], length, map, replicate, slice_index, sum, IfOk, ◌==◌, if◌then◌else◌};
ghost use Rattle.relax_system.specs.declared.valid.TheConstants.{MOST_COORDINATE};
ghost use Rattle.pad_reach.specs.Reaches.{Reaches};
ghost use Rattle.area_cut.specs.Regions.{ArePartition, AreShares};
ghost use Rattle.area_cut.specs.Cut.{cut_of};
ghost use Rattle.relax_crew.specs.Crew.{IsCrewSize};
ghost use Rattle.net_model.specs.Webs.{joints_of};
ghost use Rattle.net_model.specs.WellFormed.{IsNet};
ghost use Rattle.level_run.specs.Levels.{IsLevels, HasChains, areas_of, no_mids, core_region, regions_after};
ghost use Rattle.level_run.specs.Rounds.{IsInLimits, level_of};
ghost use Rattle.level_run.specs.Asked.{rounds_of};
ghost use Rattle.level_run.specs.Forms.Solved.{IsSane, IsUnsolved};
ghost use Rattle.level_run.specs.LevelSystem.{coordinate};
ghost use Rattle.book_files.specs.Ranges.{IsInRange};

use crate::level::{Level, Levels};
use crate::projection::{coordinate, project};
use crate::rounds::{MOST_ROUNDS, Rounds};
use crate::solving::{Crew, Player, Unsolved};
use area_cut::{Axis, Regions, copy_of, cut, parts_share, whole};
use book_files::Event;
use book_outer::Gate;
use book_text::Memory;
use net_model::Network;
use pad_reach::{Reach, reach_leads};
use std::alloc::Global;
use std::thread::Threads;

/// How many rounds are made, and by how many seats.
#[derive(Clone, Copy, Debug)]
pub struct Options {
    /// How often the regions are cut: at most `MOST_LEVELS`. There is one level more.
    pub levels: u32,
    /// How often each level is solved: from 1 to `MOST_PASSES`. There are at most `MOST_ROUNDS` rounds in all.
    pub passes: u32,
    /// How many seats solve each system side by side: from 1 to `MOST_SEATS` of the crew.
    pub seats: usize,
}

impl Options {
    /// How many rounds are made.
    fn rounds(&self) -> Rounds
        ensures { result ≡ rounds_of self.now }
    {
        Rounds {
            levels: self.levels,
            passes: self.passes,
        }
    }
}

/// The rounds of all levels: the first level has all points in the core, and as many come after it as the options say.
///
/// Each level is solved in as many rounds as there are passes, each with the mids of the round before. Each further level cuts the
/// regions of the one before by the mids of its last round. On each axis `lo` is the least and `hi` the greatest vector of the
/// round's system, and `mid` lies halfway. Neither the seats nor the gate nor the run can change the answer, since there is exactly
/// one list of rounds. `reach` is the network's: it shows that a chain leads
/// from each point to a pad. Only want of memory is refused.
pub fn levels<R: Threads + Sync, G: Gate>(
    rt: &R,
    alloc: Global,
    network: &Network,
    reach: &Reach,
    options: Options,
    gate: &G,
) -> Result<Levels, Memory>
    requires reach { Reaches (joints_of network.now) reach.now }
    requires rounds { IsInLimits (rounds_of options) }
    requires seats { IsCrewSize options.seats }
    ensures { IfOk result (IsLevels network.now (rounds_of options)) }
{
    reach_leads();
    let _reach = reach;
    let _points = network.points();
    Crew::new(rt, gate, options.seats).levels(alloc, network, options.rounds())
}

/// The same rounds, each system solved by a schedule of events in place of a crew: on each axis and from both sides the events
/// are played on a table with `options.seats` seats, and the first seat is settled then (`play` of `relax_world`). No thread is
/// started and no gate called. An event whose seat or point isn't there does nothing. Only want of memory is refused.
pub fn levels_by(
    alloc: Global,
    network: &Network,
    reach: &Reach,
    options: Options,
    events: &[Event],
) -> Result<Levels, Memory>
    requires reach { Reaches (joints_of network.now) reach.now }
    requires rounds { IsInLimits (rounds_of options) }
    requires seats { IsCrewSize options.seats }
    ensures { IfOk result (IsLevels network.now (rounds_of options)) }
{
    reach_leads();
    let _reach = reach;
    let _points = network.points();
    Player::new(events, options.seats).levels(alloc, network, options.rounds())
}

/// The regions of the first round, in which all points share the core, and their systems.
pub(crate) fn first_systems(alloc: Global, network: &Network) -> Result<Unsolved, Memory>
    requires { HasChains network.now }
    ensures { IfOk result (IsUnsolved network.now (core_region network.now ∷ []) (no_mids network.now) (no_mids network.now)) }
{
    let core = network.core();
    let regions = whole(
        alloc,
        network.points(),
        core_end(core.xlo),
        core_end(core.xhi),
        core_end(core.ylo),
        core_end(core.yhi),
    )?;
    let mids = vec![in alloc; 0; network.points()]?;
    systems(alloc, network, regions, &mids, &mids)
}

/// The regions of the round after this one, which is round r, and their systems.
pub(crate) fn next_systems(
    alloc: Global,
    network: &Network,
    areas: &[u64],
    passes: u32,
    r: u32,
    round: &Level,
) -> Result<Unsolved, Memory>
    requires chains { HasChains network.now }
    requires areas { areas.now ≡ areas_of network.now }
    requires some { 1 ≤ passes }
    requires few { r < MOST_ROUNDS }
    requires sane { IsSane network.now round.now }
    ensures { IfOk result (IsUnsolved network.now (regions_after network.now passes r round.now) round.now.x.mid round.now.y.mid) }
{
    parts_share();
    let _points = network.points();
    let regions = regions_after(alloc, areas, passes, r, round)?;
    let xs = round.x.mid.as_slice();
    let ys = round.y.mid.as_slice();
    systems(alloc, network, regions, xs, ys)
}

/// The regions of the round after this one, which is round r.
fn regions_after(
    alloc: Global,
    areas: &[u64],
    passes: u32,
    r: u32,
    round: &Level,
) -> Result<Regions, Memory>
    requires some { 1 ≤ passes }
    requires few { r < MOST_ROUNDS }
    requires partition { ArePartition (length areas.now) round.now.regions }
    requires xs { length round.now.x.mid ≡ length areas.now }
    requires ys { length round.now.y.mid ≡ length areas.now }
    requires fits { sum areas.now < 2 ^ 64 }
    ensures { IfOk result (λ regions. regions ≡ (if level_of passes (r + 1) == level_of passes r then round.now.regions
        else cut_of areas.now round.now.x.mid round.now.y.mid round.now.regions)) }
{
    if (r + 1) / passes == r / passes {
        copy_of(alloc, &round.regions)
    } else {
        cut(
            alloc,
            &round.regions,
            areas,
            round.x.mid.as_slice(),
            round.y.mid.as_slice(),
        )
    }
}

/// These regions and their systems, made with these mids.
fn systems(
    alloc: Global,
    network: &Network,
    regions: Regions,
    xs: &[u64],
    ys: &[u64],
) -> Result<Unsolved, Memory>
    requires chains { HasChains network.now }
    requires shares { AreShares (length network.now.points) MOST_COORDINATE regions }
    requires xs { length xs.now ≡ length network.now.points }
    requires ys { length ys.now ≡ length network.now.points }
    ensures { IfOk result (IsUnsolved network.now regions xs.now ys.now) }
{
    let x = project(alloc, network, Axis::X, &regions, xs)?;
    let y = project(alloc, network, Axis::Y, &regions, ys)?;
    Ok(Unsolved { regions, x, y })
}

/// The areas of the points. They add up to fewer than 2^64 sites.
pub(crate) fn areas(alloc: Global, network: &Network) -> Result<Vec<u64>, Memory>
    ensures areas { IfOk result (λ areas. areas.items ≡ areas_of network.now) }
    ensures fits { IfOk result (λ areas. sum areas.items < 2 ^ 64) }
{
    let mut areas = Vec::with_capacity(alloc, network.points())?;
    for p in 0..network.points() {
        areas.push(network.area(p as u32))?;
    }
    Ok(areas)
}

/// An end of the core as a coordinate.
fn core_end(at: i64) -> u64
    requires { IsInRange at }
    ensures { result ≡ coordinate at }
{
    coordinate(at)
}
