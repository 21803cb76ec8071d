//! The text of a placement.

ghost use Rattle.std.specs.Prelude.{◌≡◌, ◌++◌, List, IfOk, OnOk};
ghost use Rattle.std.specs.List.{AllByRecursion};
ghost use Rattle.book_text.specs.Decimal.{canonical};
ghost use Rattle.book_files.specs.Grammar.{IsReading};
ghost use Rattle.book_files.specs.PlaceRules.{places_grammar};
ghost use Rattle.book_files.specs.PlaceText.{IsWritable, orient_word, place_words, line_of, placement_text, numbered};
ghost use Rattle.book_files.specs.Ranges.{IsName, IsMarkedWell};
ghost use Rattle.book_files.specs.Forms.Places.{mark_end};
ghost use Rattle.book_files.specs.Entries.{PlaceEntry, place_entry, place_entries};

use crate::orient::Orient;
use crate::records::PlaceLine;
use book_text::{Memory, Micro, canonical_is_word, canonical_reads_back, put_micro, spaced_words};
use std::alloc::Global;

/// The text of these places: the header, and a line `NAME X Y : ORIENT` for each, behind which stands `/FIXED_NI` where overlap is
/// allowed and else `/FIXED` where it is fixed. The lines' own numbers aren't read. Only a fixed place allows overlap.
pub fn write_pl(alloc: Global, lines: &[PlaceLine<'_>]) -> Result<Vec<u8>, Memory>
    requires names { AllByRecursion (λ place. IsName place.name) (place_entries lines.now) }
    requires marks { AllByRecursion (λ place. IsMarkedWell place.fixed place.overlap) (place_entries lines.now) }
    ensures { IfOk result (λ text. text.items ≡ placement_text (place_entries lines.now)) }
{
    let mut text = Vec::new(alloc);
    text.extend_from_slice(b"UCLA pl 1.0\n")?;
    for line in lines {
        push_place(&mut text, line)?;
    }
    Ok(text)
}

/// Appends the line of a place.
fn push_place(text: &mut Vec<u8>, line: &PlaceLine<'_>) -> Result<(), Memory>
    ensures { OnOk result (text.new.items ≡ text.old.items ++ line_of (place_words (place_entry line.now))) }
{
    text.extend_from_slice(line.name.0)?;
    text.push(b' ')?;
    put_number(text, line.x)?;
    text.push(b' ')?;
    put_number(text, line.y)?;
    text.extend_from_slice(b" : ")?;
    text.extend_from_slice(orient_word(line.orient))?;
    text.extend_from_slice(place_end(line.fixed, line.overlap))?;
    Ok(())
}

/// What ends a place's line.
fn place_end(fixed: bool, overlap: bool) -> &'static [u8]
    ensures { result.now ≡ mark_end fixed overlap }
{
    match (fixed, overlap) {
        (false, _) => b"\n",
        (true, false) => b" /FIXED\n",
        (true, true) => b" /FIXED_NI\n",
    }
}

/// Appends the canonical decimal of a number.
fn put_number(text: &mut Vec<u8>, value: Micro) -> Result<(), Memory>
    ensures { OnOk result (text.new.items ≡ text.old.items ++ canonical value.0) }
{
    put_micro(text, i128::from(value.0))
}

/// The keyword of an orientation.
fn orient_word(orient: Orient) -> &'static [u8]
    ensures { result.now ≡ orient_word orient }
{
    match orient {
        Orient::N => b"N",
        Orient::S => b"S",
        Orient::E => b"E",
        Orient::W => b"W",
        Orient::FN => b"FN",
        Orient::FS => b"FS",
        Orient::FE => b"FE",
        Orient::FW => b"FW",
    }
}

/// A law: a reader gives these places back, numbered from line 2 on, where their numbers are in range.
pub fn placement_reads_back()
    ensures { (places : List PlaceEntry) → AllByRecursion IsWritable places → IsReading places_grammar (placement_text places) (numbered 2 places) }
{
    spaced_words();
    canonical_reads_back();
    canonical_is_word();
}
