//! What is placed: the texts of a design's files, or those that a grid makes; and the events of a schedule, where one is named.

ghost use Rattle.std.specs.Prelude.{option_map, string_bytes};
ghost use Rattle.grid_design.specs.Asked.{IsSide};
ghost use Rattle.proud_words.specs.Asked.{source_value};
ghost use Rattle.proud_top.specs.Forms.Sources.{HasGoodSides, Takes, TakesSource, Generates, LooksThrough, LooksAt, generated};

use crate::gather::{gather, look};
use crate::inputs::Inputs;
use crate::laws::laws;
use crate::schedule::events_of;
use crate::status::Refusal;
use crate::stop::Stop;
use book_files::{Events, FileKind, MOST_BYTES};
use book_outer::Folder;
use grid_design::{Grid, Texts, grid_texts};
use proud_words::Source;
use std::alloc::Global;

/// What is placed, and by which events where a schedule is named.
#[derive(Drop)]
pub(crate) struct Taken {
    /// The texts of the source.
    pub(crate) inputs: Inputs,
    /// The events of the schedule.
    pub(crate) events: Option<Events>,
}

/// The texts of the source, and then the events of the schedule, where one is named.
pub(crate) fn take<F: Folder>(
    alloc: Global,
    folder: &mut F,
    source: &Source,
    schedule: &Option<String>,
) -> Result<Taken, Stop>
    requires { HasGoodSides (source_value source.now) }
    ensures { Takes (F.state folder.old) (F.state folder.new) (source_value source.now) (option_map string_bytes schedule.now) result }
{
    laws();
    let inputs = take_source(alloc, folder, source)?;
    inputs.know();
    let events = events_of(alloc, folder, schedule)?;
    Ok(Taken { inputs, events })
}

/// The texts of the source. Those of a design are read from the folder; for a grid nothing of it is touched.
fn take_source<F: Folder>(alloc: Global, folder: &mut F, source: &Source) -> Result<Inputs, Stop>
    requires { HasGoodSides (source_value source.now) }
    ensures { TakesSource (F.state folder.old) (F.state folder.new) (source_value source.now) result }
{
    match source {
        Source::Design(name) => gather(alloc, folder, name.as_str()),
        Source::Grid(grid) => generate(alloc, *grid),
    }
}

/// The texts that the grid makes.
fn generate(alloc: Global, grid: Grid) -> Result<Inputs, Stop>
    requires rows { IsSide grid.rows }
    requires columns { IsSide grid.columns }
    ensures { Generates grid result }
{
    let texts = grid_texts(alloc, grid.rows, grid.columns, grid.number)?;
    look_through(alloc, &texts)?;
    Ok(Inputs {
        nodes: texts.nodes,
        nets: texts.nets,
        wts: Some(texts.wts),
        pl: texts.pl,
        scl: texts.scl,
    })
}

/// Looks through the texts, one after another, for what is first wrong with them.
fn look_through(alloc: Global, texts: &Texts) -> Result<(), Stop>
    ensures { LooksThrough (generated texts.now) result }
{
    look_at(alloc, FileKind::Nodes, &texts.nodes)?;
    look_at(alloc, FileKind::Nets, &texts.nets)?;
    look_at(alloc, FileKind::Wts, &texts.wts)?;
    look_at(alloc, FileKind::Pl, &texts.pl)?;
    look_at(alloc, FileKind::Scl, &texts.scl)
}

/// Looks whether a text is too long, and then through it for its first fault.
fn look_at(alloc: Global, kind: FileKind, text: &[u8]) -> Result<(), Stop>
    ensures { LooksAt kind text.now result }
{
    if text.len() > MOST_BYTES {
        return Err(Stop::Refused(Refusal::TooLong(kind)));
    }
    look(alloc, kind, text)
}
