//! What the words ask for.

ghost use Rattle.std.specs.Prelude.{◌≡◌, ◌<◌, ◌≤◌, ℕ, List, IfOk, IfErr, IfSome, map, option_map, unwrap_or, string_bytes};
ghost use Rattle.clap.specs.Words.{IsUnsignedIn, found_of, first_of, rows_of};
ghost use Rattle.relax_crew.specs.Crew.{IsCrewSize};
ghost use Rattle.relax_crew.specs.declared.range.TheConstants.{MOST_SEATS};
ghost use Rattle.level_run.specs.Rounds.{IsInLimits, rounds_in};
ghost use Rattle.level_run.specs.declared.rounds.TheConstants.{MOST_LEVELS, MOST_PASSES, MOST_ROUNDS};
ghost use Rattle.proud_words.specs.declared.fault.WordsFault.TheVariants.{Usage};
ghost use Rattle.proud_words.specs.Request.{IsReading, IsRequest, IsSource, RequestValue, SourceValue, number_of, stem, usual_out};
ghost use Rattle.proud_words.specs.Asked.{request_value, source_value};
ghost use Rattle.proud_words.specs.Forms.Texts.{HasNumbers, text_in};

use crate::command::proud_command;
use crate::fault::WordsFault;
use book_outer::Words;
use book_text::Memory;
use clap::ArgMatches;
use grid_design::{Grid, one_grid, read_grid};
use level_run::{MOST_LEVELS, MOST_PASSES, MOST_ROUNDS, Rounds};
use std::alloc::Global;

/// How often the regions are cut where the words don't say.
pub const USUAL_LEVELS: u32 = 4;

/// How often each level is solved where the words don't say.
pub const USUAL_PASSES: u32 = 2;

/// How many seats solve a system where the words don't say.
pub const USUAL_SEATS: usize = 4;

/// What is placed.
#[derive(Debug, Drop)]
pub enum Source {
    /// The design that the aux file of this name describes.
    Design(String),
    /// A generated one.
    Grid(Grid),
}

/// What the words ask for.
#[derive(Debug, Drop)]
pub struct Request {
    /// How often the regions are cut, and how often each level is solved: within their limits.
    pub rounds: Rounds,
    /// How many seats solve each system side by side: from 1 to `MOST_SEATS`.
    pub seats: usize,
    /// The name of the output file.
    pub out: String,
    /// The name of the file whose events solve in place of a crew, where one is named.
    pub schedule: Option<String>,
    /// What is placed.
    pub source: Source,
}

/// What the words ask for, of which the first is the program's name: `Usage` where they ask for nothing that the program
/// does, as those for help, and `Memory` for want of memory.
pub fn requested(alloc: Global, words: &Words) -> Result<Request, WordsFault>
    ensures asked { IfOk result (λ request. IsRequest words.now (request_value request)) }
    ensures rounds { IfOk result (λ request. IsInLimits request.rounds) }
    ensures seats { IfOk result (λ request. IsCrewSize request.seats) }
    ensures usage { IfErr result (λ fault. fault ≡ Usage → (request : RequestValue) → IsRequest words.now request → ⊥) }
{
    let texts = texts_of(alloc, words)?;
    asked_by(alloc, texts.as_slice())
}

/// Words ask for one request at most, whose numbers lie in their ranges.
pub fn one_request()
    ensures one { (words : List (List ℕ)) (a b : RequestValue) → IsRequest words a → IsRequest words b → a ≡ b }
    ensures rounds { (words : List (List ℕ)) (request : RequestValue) → IsRequest words request → IsInLimits request.rounds }
    ensures seats { (words : List (List ℕ)) (request : RequestValue) → IsRequest words request → IsCrewSize request.seats }
{
    one_grid();
}

/// The words, one by one.
fn texts_of(alloc: Global, words: &Words) -> Result<Vec<&str>, Memory>
    ensures { IfOk result (λ texts. map (λ text. text.now) texts.items ≡ words.now) }
{
    let mut texts = Vec::new(alloc);
    for at in 0..words.len() {
        texts.push(words.word(at))?;
    }
    Ok(texts)
}

/// What these words ask for.
fn asked_by<'a>(alloc: Global, words: &'a [&'a str]) -> Result<Request, WordsFault>
    ensures asked { IfOk result (λ request. IsRequest (map (λ text. text.now) words.entry.now) (request_value request)) }
    ensures rounds { IfOk result (λ request. IsInLimits request.rounds) }
    ensures seats { IfOk result (λ request. IsCrewSize request.seats) }
    ensures usage { IfErr result (λ fault. fault ≡ Usage → (request : RequestValue) → IsRequest (map (λ text. text.now) words.entry.now) request → ⊥) }
{
    let command = proud_command(alloc)?;
    let matches = command.try_get_matches_from(words)?;
    request_of(alloc, &matches)
}

/// What the matches say that is asked for.
fn request_of(alloc: Global, matches: &ArgMatches<'_>) -> Result<Request, WordsFault>
    requires numbers { HasNumbers (rows_of (found_of matches.now)) }
    ensures asked { IfOk result (λ request. IsReading (rows_of (found_of matches.now)) (request_value request)) }
    ensures rounds { IfOk result (λ request. IsInLimits request.rounds) }
    ensures seats { IfOk result (λ request. IsCrewSize request.seats) }
    ensures usage { IfErr result (λ fault. fault ≡ Usage → (request : RequestValue) → IsReading (rows_of (found_of matches.now)) request → ⊥) }
{
    let source = source_of(alloc, matches.get_str("DESIGN"), matches.get_str("grid"))?;
    let rounds = rounds_of(matches.get_str("levels"), matches.get_str("passes"))?;
    Ok(Request {
        rounds,
        seats: seats_of(matches.get_str("seats")),
        out: out_of(alloc, matches.get_str("out"), &source)?,
        schedule: schedule_of(alloc, matches.get_str("schedule"))?,
        source,
    })
}

/// The rounds: so many levels, each solved so often, where that isn't too many rounds in all.
fn rounds_of(levels: Option<&str>, passes: Option<&str>) -> Result<Rounds, WordsFault>
    requires levels { IfSome levels (λ text. IsUnsignedIn 0 MOST_LEVELS text.now) }
    requires passes { IfSome passes (λ text. IsUnsignedIn 1 MOST_PASSES text.now) }
    ensures levels { IfOk result (λ rounds. rounds.levels ≡ unwrap_or (option_map number_of (text_in levels.entry)) USUAL_LEVELS) }
    ensures passes { IfOk result (λ rounds. rounds.passes ≡ unwrap_or (option_map number_of (text_in passes.entry)) USUAL_PASSES) }
    ensures limits { IfOk result IsInLimits }
    ensures usage { IfErr result (λ _. MOST_ROUNDS < rounds_in (record {
      levels = unwrap_or (option_map number_of (text_in levels.entry)) USUAL_LEVELS;
      passes = unwrap_or (option_map number_of (text_in passes.entry)) USUAL_PASSES;
    })) }
{
    let rounds = Rounds {
        levels: levels_of(levels),
        passes: passes_of(passes),
    };
    if (rounds.levels + 1) * rounds.passes <= MOST_ROUNDS {
        Ok(rounds)
    } else {
        Err(WordsFault::Usage)
    }
}

/// The number of levels: that of the option's text, or the usual one.
fn levels_of(text: Option<&str>) -> u32
    requires { IfSome text (λ text. IsUnsignedIn 0 MOST_LEVELS text.now) }
    ensures number { result ≡ unwrap_or (option_map number_of (text_in text.entry)) USUAL_LEVELS }
    ensures few { result ≤ MOST_LEVELS }
{
    match text {
        Some(text) => text.parse().unwrap_or(USUAL_LEVELS),
        None => USUAL_LEVELS,
    }
}

/// The number of passes: that of the option's text, or the usual one.
fn passes_of(text: Option<&str>) -> u32
    requires { IfSome text (λ text. IsUnsignedIn 1 MOST_PASSES text.now) }
    ensures number { result ≡ unwrap_or (option_map number_of (text_in text.entry)) USUAL_PASSES }
    ensures some { 1 ≤ result }
    ensures few { result ≤ MOST_PASSES }
{
    match text {
        Some(text) => text.parse().unwrap_or(USUAL_PASSES),
        None => USUAL_PASSES,
    }
}

/// The number of seats: that of the option's text, or the usual one.
fn seats_of(text: Option<&str>) -> usize
    requires { IfSome text (λ text. IsUnsignedIn 1 MOST_SEATS text.now) }
    ensures number { result ≡ unwrap_or (option_map number_of (text_in text.entry)) USUAL_SEATS }
    ensures size { IsCrewSize result }
{
    match text {
        Some(text) => text.parse().unwrap_or(USUAL_SEATS),
        None => USUAL_SEATS,
    }
}

/// What is placed, where exactly one of the two texts stands and is in form.
fn source_of(alloc: Global, design: Option<&str>, grid: Option<&str>) -> Result<Source, WordsFault>
    ensures source { IfOk result (λ source. IsSource (text_in design.entry) (text_in grid.entry) (source_value source)) }
    ensures usage { IfErr result (λ fault. fault ≡ Usage → (source : SourceValue)
        → IsSource (text_in design.entry) (text_in grid.entry) source → ⊥) }
{
    match (design, grid) {
        (Some(name), None) => Ok(Source::Design(String::from_str(alloc, name)?)),
        (None, Some(word)) => match read_grid(word) {
            Some(grid) => Ok(Source::Grid(grid)),
            None => Err(WordsFault::Usage),
        },
        _ => Err(WordsFault::Usage),
    }
}

/// The name of the output file: the option's text, or the usual one of what is placed.
fn out_of(alloc: Global, text: Option<&str>, source: &Source) -> Result<String, Memory>
    ensures { IfOk result (λ name. string_bytes name ≡ unwrap_or (text_in text.entry) (usual_out (source_value source.now))) }
{
    match text {
        Some(name) => Ok(String::from_str(alloc, name)?),
        None => usual_out(alloc, source),
    }
}

/// The name of the schedule file, where the option has a text.
fn schedule_of(alloc: Global, text: Option<&str>) -> Result<Option<String>, Memory>
    ensures { IfOk result (λ name. option_map string_bytes name ≡ text_in text.entry) }
{
    match text {
        Some(name) => Ok(Some(String::from_str(alloc, name)?)),
        None => Ok(None),
    }
}

/// The output file's name where the words give none.
fn usual_out(alloc: Global, source: &Source) -> Result<String, Memory>
    ensures { IfOk result (λ name. string_bytes name ≡ usual_out (source_value source.now)) }
{
    match source {
        Source::Design(name) => {
            let mut out = String::from_str(alloc, stem(name.as_str()))?;
            out.push_str(".proud.pl")?;
            Ok(out)
        }
        Source::Grid(_) => Ok(String::from_str(alloc, "grid.proud.pl")?),
    }
}

/// A name without a final `.aux`.
fn stem(name: &str) -> &str
    ensures { result.now ≡ stem name.now }
{
    match name.strip_suffix(".aux") {
        Some(stem) => stem,
        None => name,
    }
}
