//! The command that the words are read by.

ghost use Rattle.std.specs.Prelude.{◌≡◌, IfOk};
ghost use Rattle.clap.specs.Words.{app_of};
ghost use Rattle.proud_words.specs.Command.{proud_command};

use book_text::Memory;
use clap::builder::ValueParser;
use clap::{Arg, Command};
use level_run::{MOST_LEVELS, MOST_PASSES};
use relax_crew::MOST_SEATS;
use std::alloc::Global;

/// The command `proud`, with its six options and its design.
pub(crate) fn proud_command<'a>(alloc: Global) -> Result<Command<'a>, Memory>
    ensures { IfOk result (λ command. app_of command ≡ proud_command) }
{
    let levels = Arg::new(alloc, "levels")
        .long("levels")
        .value_parser(ValueParser::unsigned(0, MOST_LEVELS as u64));
    let passes = Arg::new(alloc, "passes")
        .long("passes")
        .value_parser(ValueParser::unsigned(1, MOST_PASSES as u64));
    let seats = Arg::new(alloc, "seats")
        .long("seats")
        .value_parser(ValueParser::unsigned(1, MOST_SEATS as u64));
    let out = Arg::new(alloc, "out").long("out");
    let schedule = Arg::new(alloc, "schedule").long("schedule");
    let grid = Arg::new(alloc, "grid").long("grid");
    let design = Arg::new(alloc, "DESIGN");
    let command = Command::new(alloc, "proud")
        .arg(levels)?
        .arg(passes)?
        .arg(seats)?
        .arg(out)?
        .arg(schedule)?
        .arg(grid)?
        .arg(design)?;
    Ok(command)
}
