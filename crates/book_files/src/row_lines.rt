//! The lines of a `.scl` file.

ghost use Rattle.std.specs.Prelude.{◌≡◌, map};
ghost use Rattle.book_files.specs.Forms.Progress.{Gives};
ghost use Rattle.book_files.specs.Forms.Words.{number_of};
ghost use Rattle.book_files.specs.Entries.{subrow_entry};
ghost use Rattle.book_files.specs.Rows.{is_row_start, is_row_end};
ghost use Rattle.book_files.specs.Forms.Rows.{key_of, once_by, positive_of, is_subrow, subrow_of, subrow_at};

use crate::fault::TextKind;
use crate::records::SubrowLine;
use crate::words::{is_colon, is_keyed, is_keyword, number_of, whole_of};
use book_text::Micro;

/// What a line within a block is by its keyword.
#[derive(Clone, Copy, Debug, PartialEq, Eq)]
pub enum PartKey {
    Coordinate,
    Height,
    SiteWidth,
    SiteSpacing,
    SiteOrient,
    SiteSymmetry,
    Subrow,
}

/// What the line is by its keyword, if that may stand within a block.
pub fn key_of(words: &[&[u8]]) -> Option<PartKey>
    ensures { result ≡ key_of (map (λ w. w.now) words.now) }
{
    if is_keyed(b"coordinate", words) {
        Some(PartKey::Coordinate)
    } else if is_keyed(b"height", words) {
        Some(PartKey::Height)
    } else if is_keyed(b"sitewidth", words) {
        Some(PartKey::SiteWidth)
    } else if is_keyed(b"sitespacing", words) {
        Some(PartKey::SiteSpacing)
    } else if is_keyed(b"siteorient", words) {
        Some(PartKey::SiteOrient)
    } else if is_keyed(b"sitesymmetry", words) {
        Some(PartKey::SiteSymmetry)
    } else if is_keyed(b"subroworigin", words) {
        Some(PartKey::Subrow)
    } else {
        None
    }
}

/// Whether the line is `CoreRow Horizontal`.
pub fn is_row_start(words: &[&[u8]]) -> bool
    ensures { result ≡ is_row_start (map (λ w. w.now) words.now) }
{
    match words {
        [core, way] => is_keyword(b"corerow", core) && is_keyword(b"horizontal", way),
        _ => false,
    }
}

/// Whether the line is `End`.
pub fn is_row_end(words: &[&[u8]]) -> bool
    ensures { result ≡ is_row_end (map (λ w. w.now) words.now) }
{
    match words {
        [end] => is_keyword(b"end", end),
        _ => false,
    }
}

/// The number of a keyed line of three words. It may stand once: `stood` says that it stood before.
pub fn once_number(stood: bool, words: &[&[u8]]) -> Result<Micro, TextKind>
    ensures { Gives (λ number. number.0) result
        (once_by number_of stood (map (λ w. w.now) words.now)) }
{
    match words {
        [_, _, number] if !stood => number_of(number),
        _ => Err(TextKind::BadLine),
    }
}

/// The same of a number above 0.
pub fn once_positive(stood: bool, words: &[&[u8]]) -> Result<Micro, TextKind>
    ensures { Gives (λ number. number.0) result
        (once_by positive_of stood (map (λ w. w.now) words.now)) }
{
    match words {
        [_, _, number] if !stood => positive_of(number),
        _ => Err(TextKind::BadLine),
    }
}

/// The value of a number word above 0.
fn positive_of(word: &[u8]) -> Result<Micro, TextKind>
    ensures { Gives (λ number. number.0) result (positive_of word.now) }
{
    let value = number_of(word)?;
    if value.0 > 0 {
        Ok(value)
    } else {
        Err(TextKind::BadNumber)
    }
}

/// The subrow of a line `SubrowOrigin : x NumSites : n`, of which the first two words are known.
pub fn subrow_of(words: &[&[u8]]) -> Result<SubrowLine, TextKind>
    ensures { Gives subrow_entry result (subrow_of (map (λ w. w.now) words.now)) }
{
    match words {
        [_, _, x, many, colon, sites] => {
            if is_subrow(many, colon) {
                subrow_at(x, sites)
            } else {
                Err(TextKind::BadLine)
            }
        }
        _ => Err(TextKind::BadLine),
    }
}

/// Whether the words are `NumSites` and a colon.
fn is_subrow(many: &[u8], colon: &[u8]) -> bool
    ensures { result ≡ is_subrow many.now colon.now }
{
    is_keyword(b"numsites", many) && is_colon(colon)
}

/// A subrow of these numbers.
fn subrow_at(x: &[u8], sites: &[u8]) -> Result<SubrowLine, TextKind>
    ensures { Gives subrow_entry result (subrow_at x.now sites.now) }
{
    Ok(SubrowLine {
        x: number_of(x)?,
        sites: whole_of(sites)?,
    })
}
