ghost use Rattle.std.specs.Prelude.{◌≡◌, ℕ, true, [], map, option_map};
ghost use Rattle.std.specs.List.{list_all};
ghost use Rattle.std.specs.Str.{is_utf8};
ghost use Rattle.std.specs.Char.{to_ascii_lowercase};
ghost use Rattle.book_files.specs.Grammar.{Answers};
ghost use Rattle.book_files.specs.AuxRules.{aux_grammar};
ghost use Rattle.book_files.specs.Forms.Progress.{Gives};
ghost use Rattle.book_files.specs.Aux.{has_suffix, is_file_name, named};
ghost use Rattle.book_files.specs.Forms.Aux.{aux_meaning, names_of, aux_by_suffix, only, at_most_one};
ghost use Rattle.book_files.specs.Entries.{aux_entry};

use crate::fault::{LineError, ReadError, TextKind, fault_at_end};
use crate::records::AuxFile;
use crate::walk::{Progress, keep_lines};
use crate::words::{is_colon, is_keyword};
use std::alloc::Global;
use std::str;

/// The names that an `.aux` file gives, or its first fault.
pub fn read_aux(alloc: Global, bytes: &[u8]) -> Result<AuxFile<'_>, ReadError>
    ensures { Answers aux_grammar aux_entry bytes.now result }
{
    let mut so_far = AuxSoFar { file: None };
    keep_lines(alloc, bytes, &mut so_far)?;
    match so_far.file {
        Some(file) => Ok(file),
        None => Err(fault_at_end(bytes, TextKind::BadHeader)),
    }
}

/// The one line of the file, where it was read.
#[derive(Drop)]
struct AuxSoFar<'a> {
    file: Option<AuxFile<'a>>,
}

impl<'a> Progress<'a> for AuxSoFar<'a> {
    ghost use Rattle.book_files.specs.Forms.Progress.{StandsFor, Refuses};
    ghost use Rattle.book_files.specs.Forms.Aux.{aux_form};
    ghost use Rattle.book_files.specs.Forms.SoFar.{IsAuxSoFar};

    ghost stands_for = { StandsFor aux_form IsAuxSoFar };

    ghost refuses = { Refuses aux_form };

    fn keep(&mut self, _number: u64, words: &[&'a [u8]]) -> Result<(), LineError> {
        if self.file.is_some() {
            return Err(LineError::Kind(TextKind::BadLine));
        }
        self.file = Some(aux_line(words)?);
        Ok(())
    }
}

/// The names of the first line.
fn aux_line<'a>(words: &[&'a [u8]]) -> Result<AuxFile<'a>, TextKind>
    ensures { (number : ℕ) → Gives aux_entry result
        (aux_meaning [] (record { number = number; words = map (λ w. w.now) words.now })) }
{
    match words {
        [word, colon, names @ ..] if is_keyword(b"rowbasedplacement", word) && is_colon(colon) => {
            names_of(names)
        }
        _ => Err(TextKind::BadHeader),
    }
}

/// The files by the names' suffixes.
fn names_of<'a>(names: &[&'a [u8]]) -> Result<AuxFile<'a>, TextKind>
    ensures { Gives aux_entry result (names_of (map (λ w. w.now) names.now)) }
{
    if are_file_names(names) {
        by_suffix(names)
    } else {
        Err(TextKind::BadLine)
    }
}

/// Each suffix but that of the weights stands once.
fn by_suffix<'a>(names: &[&'a [u8]]) -> Result<AuxFile<'a>, TextKind>
    requires { list_all is_utf8 (map (λ w. w.now) names.now) ≡ true }
    ensures { Gives aux_entry result (aux_by_suffix (map (λ w. w.now) names.now)) }
{
    Ok(AuxFile {
        nodes: one_named(b".nodes", names)?,
        nets: one_named(b".nets", names)?,
        wts: at_most_one_named(b".wts", names)?,
        pl: one_named(b".pl", names)?,
        scl: one_named(b".scl", names)?,
    })
}

/// Whether each name is UTF-8 and has one of the five suffixes.
fn are_file_names(names: &[&[u8]]) -> bool
    ensures { result ≡ list_all (λ name. is_file_name name.now) names.now }
{
    names.iter().all(|name| is_file_name(name))
}

fn is_file_name(name: &[u8]) -> bool
    ensures { result ≡ is_file_name name.now }
{
    is_text(name)
        && (has_suffix(b".nodes", name)
            || has_suffix(b".nets", name)
            || has_suffix(b".wts", name)
            || has_suffix(b".pl", name)
            || has_suffix(b".scl", name))
}

fn is_text(name: &[u8]) -> bool
    ensures { result ≡ is_utf8 name.now }
{
    str::from_utf8(name).is_ok()
}

/// Whether the name ends with the suffix, which is given in small letters, in any ASCII case.
fn has_suffix(suffix: &[u8], name: &[u8]) -> bool
    requires { map to_ascii_lowercase suffix.now ≡ suffix.now }
    ensures { result ≡ has_suffix suffix.now name.now }
{
    let front = name.len().saturating_sub(suffix.len());
    name[front..].eq_ignore_ascii_case(suffix)
}

/// The one name with the suffix.
fn one_named<'a>(suffix: &[u8], names: &[&'a [u8]]) -> Result<&'a str, TextKind>
    requires lower { map to_ascii_lowercase suffix.now ≡ suffix.now }
    requires texts { list_all is_utf8 (map (λ w. w.now) names.now) ≡ true }
    ensures { Gives (λ name. name.now) result (only (named suffix.now (map (λ w. w.now) names.now))) }
{
    at_most_one_named(suffix, names)?.ok_or(TextKind::BadLine)
}

/// The name with the suffix, where there is one. A second one is bad.
fn at_most_one_named<'a>(suffix: &[u8], names: &[&'a [u8]]) -> Result<Option<&'a str>, TextKind>
    requires lower { map to_ascii_lowercase suffix.now ≡ suffix.now }
    requires texts { list_all is_utf8 (map (λ w. w.now) names.now) ≡ true }
    ensures { Gives (λ name. option_map (λ t. t.now) name) result
        (at_most_one (named suffix.now (map (λ w. w.now) names.now))) }
{
    let mut found = None;
    for name in names {
        if has_suffix(suffix, name) {
            if found.is_some() {
                return Err(TextKind::BadLine);
            }
            found = str::from_utf8(name).ok();
        }
    }
    Ok(found)
}
