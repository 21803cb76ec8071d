//! From the texts of a design to what is put, a function of values.

ghost use Rattle.std.specs.Prelude.{◌≤◌};
ghost use Rattle.level_run.specs.Rounds.{IsInLimits};
ghost use Rattle.proud_top.specs.Forms.Stops.{Places};

use crate::cells::point_cells;
use crate::corners::corners;
use crate::inputs::Inputs;
use crate::placement::placement_text;
use crate::solver::Solver;
use crate::stop::Stop;
use book_outer::Gate;
use level_run::{Rounds, gap};
use net_model::{network, unanchored_is_movable};
use pad_reach::reach;
use row_legal::legalise;
use row_space::segments;
use std::alloc::Global;
use std::thread::Threads;
use wire_report::{hpwl, report_text};

/// What a placed design puts.
#[derive(Drop)]
pub(crate) struct Placed {
    /// The text of its placement.
    pub(crate) file: Vec<u8>,
    /// The report's text.
    pub(crate) report: Vec<u8>,
}

/// What the texts make, solved in so many rounds, or the refusal at the first step that stops.
pub(crate) fn place<R: Threads + Sync, G: Gate>(
    solver: &Solver<'_, R, G>,
    alloc: Global,
    inputs: &Inputs,
    rounds: Rounds,
) -> Result<Placed, Stop>
    requires { IsInLimits rounds }
    ensures { Places rounds inputs.now result }
{
    unanchored_is_movable();
    let design = inputs.design(alloc)?;
    let _points = design.points();
    let network = network(alloc, &design)?;
    let reach = reach(alloc, &network)?;
    let levels = solver.solve(alloc, &network, &reach, rounds)?;
    let segments = segments(alloc, &design)?;
    let cells = point_cells(alloc, &design, &levels, rounds)?;
    let sites = legalise(alloc, &segments, &cells.sites, &cells.wishes)?;
    let corners = corners(alloc, &design, &segments, &sites)?;
    let file = placement_text(alloc, &design, &corners)?;
    let wire = hpwl(solver.rt(), alloc, &design, &corners)?;
    let report = report_text(alloc, &design, rounds.levels, gap(&levels), wire)?;
    Ok(Placed { file, report })
}
