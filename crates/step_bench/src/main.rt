//! Times each step of the whole command once, on a design's files.
//!
//! `step_bench DESIGN [CUTS [TIMES [SCHEDULE [SEATS]]]]` loads the design of that aux file, cuts its core CUTS times, by default 4,
//! and once more, and measures its wire length TIMES times, by default once. Where a file of events is named, it is played, too, by
//! SEATS seats, by default 4, and a line `raises N` for each seat tells how many of its renewals changed a word. Where cells stand is what the placement file says, so that nothing
//! is solved but one side of one axis. Standard error gets a line `STEP MICROSECONDS us` for each step; standard output a line
//! `STEP COUNT SUM` with how many there are of what it made, and a sum over all of it (`src/made.rt`).
#![tactic(auto)]

mod cells;
mod joined;
mod levels;
mod made;
mod placement;
mod rows;
mod schedule;
mod sums;
mod texts;
mod watch;

use crate::cells::{areas, cells_as_placed};
use crate::joined::joined;
use crate::levels::measure_levels;
use crate::made::Points;
use crate::rows::measure_rows;
use crate::schedule::measure_schedule;
use crate::texts::load_texts;
use crate::watch::{Answer, NO_MEMORY, Watch};
use net_model::network;
use pad_reach::reach;
use relax_world::MOST_WORLD_SEATS;
use std::env;
use std::process::ExitCode;
use std::thread::Threads;

/// What a run with other words ends with.
const USAGE: &str = "usage: step_bench DESIGN [CUTS [TIMES [SCHEDULE [SEATS]]]]";

/// What the words ask for.
#[derive(Drop)]
struct Asked {
    /// The name of the aux file.
    design: String,
    /// How often the core is cut.
    cuts: u32,
    /// How often the wire length is measured.
    times: u32,
    /// The name of a schedule.
    schedule: Option<String>,
    /// How many seats play it.
    seats: u32,
}

fn main(rt: HostRuntime) -> ExitCode {
    match run(&rt, &rt) {
        Ok(()) => ExitCode::SUCCESS,
        Err(why) => {
            let _told = eprintln!(rt; "step_bench: {why}");
            ExitCode::FAILURE
        }
    }
}

/// Times the steps. What may start threads stands apart, since only `main` can say that its runtime may.
fn run<R: Threads + Sync>(threads: &R, rt: &HostRuntime) -> Answer<()> {
    let asked = words_of(rt)?;
    let alloc = rt.alloc();
    let mut watch = Watch::new(rt)?;
    let texts = load_texts(rt, asked.design.as_str())?;
    watch.end("load", &texts)?;
    let design = joined(alloc, &mut watch, &texts)?;
    let Ok(network) = network(alloc, &design) else {
        return Err("the network isn't made");
    };
    watch.end("network", &network)?;
    let Ok(_) = reach(alloc, &network) else {
        return Err("a cell reaches no pad");
    };
    watch.end("reach", &Points(network.points()))?;
    let areas = areas(alloc, &network)?;
    let Ok(cells) = cells_as_placed(alloc, &design, network.stars()) else {
        return Err(NO_MEMORY);
    };
    let systems = measure_levels(alloc, &mut watch, &network, &areas, &cells, asked.cuts)?;
    if let Some(name) = &asked.schedule {
        if asked.seats < 1 || asked.seats > MOST_WORLD_SEATS {
            return Err(USAGE);
        }
        measure_schedule(rt, &mut watch, &systems.x, name.as_str(), asked.seats)?;
    }
    measure_rows(
        threads,
        alloc,
        &mut watch,
        &design,
        &areas,
        &cells,
        asked.times,
    )
}

/// What the words behind the program's name ask for.
fn words_of(rt: &HostRuntime) -> Answer<Asked> {
    let Ok(mut words) = env::args(rt) else {
        return Err(USAGE);
    };
    let _program = words.next();
    let Some(design) = words.next() else {
        return Err(USAGE);
    };
    Ok(Asked {
        design,
        cuts: number_of(words.next(), 4)?,
        times: number_of(words.next(), 1)?,
        schedule: words.next(),
        seats: number_of(words.next(), 4)?,
    })
}

/// The number that a word is, and the usual one where there is no word.
fn number_of(word: Option<String>, usual: u32) -> Answer<u32> {
    let Some(word) = word else {
        return Ok(usual);
    };
    match word.as_str().parse::<u32>() {
        Ok(number) => Ok(number),
        Err(_) => Err(USAGE),
    }
}
