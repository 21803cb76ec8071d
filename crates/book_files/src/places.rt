ghost use Rattle.std.specs.Prelude.{◌≡◌, map, ◌≤◌, length, IfOk};
ghost use Rattle.std.specs.List.{AllByRecursion};
ghost use Rattle.book_files.specs.Ranges.{IsPlaceInRange};
ghost use Rattle.book_files.specs.Grammar.{Answers};
ghost use Rattle.book_files.specs.PlaceRules.{places_grammar};
ghost use Rattle.book_files.specs.Forms.Progress.{Gives};
ghost use Rattle.book_files.specs.Places.{placed, place_mark, orient_of};
ghost use Rattle.book_files.specs.Forms.Places.{placed_at, turned, place_of};
ghost use Rattle.book_files.specs.Entries.{place_entry, place_entries};

use crate::fault::{LineError, ReadError, TextKind, fault_at_end};
use crate::name::Name;
use crate::orient::Orient;
use crate::records::PlaceLine;
use crate::walk::{Progress, keep_lines};
use crate::words::{is_colon, is_header, is_keyword, number_of};
use std::alloc::Global;
use std::marker::Model;

/// The places of a `.pl` file.
#[derive(Drop)]
pub struct PlaceFile<'a> {
    lines: Vec<PlaceLine<'a>>,
}

impl<'a> Model for PlaceFile<'a> {
    ghost use Rattle.std.specs.Prelude.{List};
    ghost use Rattle.std.specs.List.{AllByRecursion};
    ghost use Rattle.book_files.specs.Entries.{PlaceEntry, place_entries};
    ghost use Rattle.book_files.specs.Ranges.{IsPlaceInRange};

    ghost Value = { List PlaceEntry };

    ghost view = { λ f. place_entries f.lines.items };

    ghost invariant = { λ f. AllByRecursion IsPlaceInRange (place_entries f.lines.items) };
}

impl<'a> PlaceFile<'a> {
    /// The lines in order.
    pub fn as_slice(&self) -> &[PlaceLine<'a>]
        ensures lines { place_entries result.now ≡ self.now }
        ensures ranges { AllByRecursion IsPlaceInRange self.now }
    {
        &self.lines
    }
}

/// The places that a `.pl` file has, or its first fault.
pub fn read_pl(alloc: Global, bytes: &[u8]) -> Result<PlaceFile<'_>, ReadError>
    ensures reading { Answers places_grammar (λ file. file) bytes.now result }
    ensures few { IfOk result (λ file. length file ≤ length bytes.now) }
{
    let mut so_far = PlacesSoFar {
        begun: false,
        lines: Vec::new(alloc),
    };
    keep_lines(alloc, bytes, &mut so_far)?;
    if so_far.begun {
        Ok(PlaceFile {
            lines: so_far.lines,
        })
    } else {
        Err(fault_at_end(bytes, TextKind::BadHeader))
    }
}

/// Whether the header was read, and the lines behind it.
#[derive(Drop)]
struct PlacesSoFar<'a> {
    begun: bool,
    lines: Vec<PlaceLine<'a>>,
}

impl<'a> Progress<'a> for PlacesSoFar<'a> {
    ghost use Rattle.book_files.specs.Forms.Progress.{StandsFor, Refuses};
    ghost use Rattle.book_files.specs.Forms.Places.{place_form};
    ghost use Rattle.book_files.specs.Forms.SoFar.{IsPlacesSoFar};

    ghost stands_for = { StandsFor place_form IsPlacesSoFar };

    ghost refuses = { Refuses place_form };

    fn keep(&mut self, number: u64, words: &[&'a [u8]]) -> Result<(), LineError> {
        if self.begun {
            self.lines.push(place_of(number, words)?)?;
        } else if is_header(b"pl", words) {
            self.begun = true;
        } else {
            return Err(LineError::Kind(TextKind::BadHeader));
        }
        Ok(())
    }
}

/// A name and its place, then an orientation behind a colon or none, then a mark or none.
fn place_of<'a>(number: u64, words: &[&'a [u8]]) -> Result<PlaceLine<'a>, TextKind>
    ensures { Gives (λ line. placed (place_entry line)) result
        (place_of number (map (λ w. w.now) words.now)) }
{
    match words {
        [name, x, y] => placed_at(number, name, x, y, Orient::N, false, false),
        [name, x, y, mark] => {
            let overlap = place_mark(mark).ok_or(TextKind::BadLine)?;
            placed_at(number, name, x, y, Orient::N, true, overlap)
        }
        [name, x, y, colon, orient] => turned(number, name, x, y, colon, orient, false, false),
        [name, x, y, colon, orient, mark] => {
            let overlap = place_mark(mark).ok_or(TextKind::BadLine)?;
            turned(number, name, x, y, colon, orient, true, overlap)
        }
        _ => Err(TextKind::BadLine),
    }
}

/// A place with an orientation behind a colon.
fn turned<'a>(
    number: u64,
    name: &'a [u8],
    x: &[u8],
    y: &[u8],
    colon: &[u8],
    orient: &[u8],
    fixed: bool,
    overlap: bool,
) -> Result<PlaceLine<'a>, TextKind>
    ensures { Gives (λ line. placed (place_entry line)) result
        (turned number name.now x.now y.now colon.now (orient_of orient.now) fixed overlap) }
{
    match orient_of(orient) {
        Some(orient) if is_colon(colon) => placed_at(number, name, x, y, orient, fixed, overlap),
        _ => Err(TextKind::BadLine),
    }
}

/// A place of these numbers.
fn placed_at<'a>(
    number: u64,
    name: &'a [u8],
    x: &[u8],
    y: &[u8],
    orient: Orient,
    fixed: bool,
    overlap: bool,
) -> Result<PlaceLine<'a>, TextKind>
    ensures { Gives (λ line. placed (place_entry line)) result
        (placed_at number name.now x.now y.now orient fixed overlap) }
{
    Ok(PlaceLine {
        line: number,
        name: Name(name),
        x: number_of(x)?,
        y: number_of(y)?,
        orient,
        fixed,
        overlap,
    })
}

/// What a mark says of its node, which is fixed: whether it allows overlap. The mark is `/FIXED` or `/FIXED_NI`, in any ASCII case.
fn place_mark(word: &[u8]) -> Option<bool>
    ensures { result ≡ place_mark word.now }
{
    if is_keyword(b"/fixed", word) {
        Some(false)
    } else if is_keyword(b"/fixed_ni", word) {
        Some(true)
    } else {
        None
    }
}

/// The orientation that the word names, in any ASCII case.
fn orient_of(word: &[u8]) -> Option<Orient>
    ensures { result ≡ orient_of word.now }
{
    if is_keyword(b"n", word) {
        Some(Orient::N)
    } else if is_keyword(b"s", word) {
        Some(Orient::S)
    } else if is_keyword(b"e", word) {
        Some(Orient::E)
    } else if is_keyword(b"w", word) {
        Some(Orient::W)
    } else if is_keyword(b"fn", word) {
        Some(Orient::FN)
    } else if is_keyword(b"fs", word) {
        Some(Orient::FS)
    } else if is_keyword(b"fe", word) {
        Some(Orient::FE)
    } else if is_keyword(b"fw", word) {
        Some(Orient::FW)
    } else {
        None
    }
}
