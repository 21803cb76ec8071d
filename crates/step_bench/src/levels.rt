//! The steps from a network to the lower coordinates of a level on one axis.

ghost use Rattle.std.specs.Prelude.{◌≡◌, ◌^◌, ◌<◌, ◌≤◌, length, sum, IfOk};
ghost use Rattle.relax_system.specs.declared.valid.TheConstants.{MOST_COORDINATE};
ghost use Rattle.relax_table.specs.Floor.{IsFloorStart};
ghost use Rattle.area_cut.specs.Regions.{ArePartition, AreShares, AreWithin};
ghost use Rattle.level_run.specs.Levels.{HasChains};

use crate::cells::{Cells, coordinate};
use crate::watch::{Answer, NO_MEMORY, Watch};
use area_cut::{Axis, Regions, cut, parts_share, whole};
use book_design::Core;
use book_text::Memory;
use level_run::project;
use net_model::Network;
use relax_system::System;
use relax_table::{FloorTable, Steps, ends_may_start};
use std::alloc::{AllocError, Global};
use std::marker::Brand;
use std::sync::ledger::{Blank, Ledger};

/// The systems of a level on both axes.
#[derive(Drop)]
pub struct Systems {
    pub x: System,
    pub y: System,
}

/// Cuts the core so often and once more, projects the network over the regions before that, and settles the x axis from below.
pub fn measure_levels(
    alloc: Global,
    watch: &mut Watch<'_>,
    network: &Network,
    areas: &[u64],
    cells: &Cells,
    cuts: u32,
) -> Answer<Systems>
    requires chains { HasChains network.now }
    requires all { length areas.now ≡ length network.now.points }
    requires fits { sum areas.now < 2 ^ 64 }
{
    let (xs, ys) = (cells.xs.as_slice(), cells.ys.as_slice());
    if xs.len() != network.points() || ys.len() != network.points() {
        return Err("a cell has no place");
    }
    watch.begin()?;
    let Ok(regions) = cut_often(alloc, network, areas, xs, ys, cuts) else {
        return Err(NO_MEMORY);
    };
    watch.end("cuts", &regions)?;
    let Ok(parts) = cut(alloc, &regions, areas, xs, ys) else {
        return Err(NO_MEMORY);
    };
    watch.end("cut", &parts)?;
    let Ok(x) = project(alloc, network, Axis::X, &regions, xs) else {
        return Err(NO_MEMORY);
    };
    let Ok(y) = project(alloc, network, Axis::Y, &regions, ys) else {
        return Err(NO_MEMORY);
    };
    let systems = Systems { x, y };
    watch.end("project", &systems)?;
    if systems.x.points() != 0 {
        settle::<Brand>(alloc, watch, &systems.x, Blank::new(1))?;
    }
    Ok(systems)
}

/// The core with all points, cut so often.
fn cut_often(
    alloc: Global,
    network: &Network,
    areas: &[u64],
    xs: &[u64],
    ys: &[u64],
    cuts: u32,
) -> Result<Regions, Memory>
    requires all { length areas.now ≡ length network.now.points }
    requires xs { length xs.now ≡ length areas.now }
    requires ys { length ys.now ≡ length areas.now }
    requires fits { sum areas.now < 2 ^ 64 }
    ensures areas { IfOk result (ArePartition (length areas.now)) }
    ensures points { IfOk result (ArePartition (length network.now.points)) }
    ensures within { IfOk result (AreWithin MOST_COORDINATE) }
{
    parts_share();
    let mut regions = core_of(alloc, network.core(), network.points())?;
    let _regions = regions.as_slice();
    for _ in 0..cuts {
        regions = cut(alloc, &regions, areas, xs, ys)?;
    }
    Ok(regions)
}

/// The core with all points.
fn core_of(alloc: Global, core: Core, points: usize) -> Result<Regions, Memory>
    requires { points ≤ 2 ^ 32 }
    ensures { IfOk result (AreShares points MOST_COORDINATE) }
{
    let (left, bottom) = (coordinate(core.xlo), coordinate(core.ylo));
    let right = coordinate(core.xhi).max(left);
    let top = coordinate(core.yhi).max(bottom);
    whole(alloc, points, left, right, bottom, top)
}

/// Settles one seat of a floor table from the bottoms of the boxes.
fn settle<L: Ledger>(
    alloc: Global,
    watch: &mut Watch<'_>,
    system: &System,
    blank: Blank,
) -> Answer<()>
    requires some { 0 < length system.now }
    requires name { blank.name ≡ L.name }
    requires parts { blank.parts ≡ L.parts }
    requires any { 0 < L.parts }
{
    let mut steps = Steps::<L>::new(blank);
    let Ok(start) = bottoms(alloc, system) else {
        return Err(NO_MEMORY);
    };
    let Ok((table, mut seat)) = FloorTable::new(alloc, system, &start) else {
        return Err(NO_MEMORY);
    };
    watch.begin()?;
    table.settle(&mut seat, &mut steps);
    watch.end("settle", &seat)
}

/// The bottoms of the boxes.
fn bottoms(alloc: Global, system: &System) -> Result<Vec<u64>, AllocError>
    requires { 0 < length system.now }
    ensures { IfOk result (λ v. IsFloorStart system.now v.items) }
{
    ends_may_start();
    let mut start = Vec::new(alloc);
    for i in 0..system.points() {
        start.push(system.point(i).lo)?;
    }
    Ok(start)
}
