ghost use Rattle.std.specs.Prelude.{◌≡◌, map, ◌≤◌, length, IfOk};
ghost use Rattle.std.specs.List.{AllByRecursion};
ghost use Rattle.book_files.specs.Ranges.{IsWeightInRange};
ghost use Rattle.book_files.specs.Grammar.{Answers};
ghost use Rattle.book_files.specs.WeightRules.{weights_grammar};
ghost use Rattle.book_files.specs.Forms.Progress.{Gives};
ghost use Rattle.book_files.specs.Weights.{weighed};
ghost use Rattle.book_files.specs.Forms.Weights.{weight_of};
ghost use Rattle.book_files.specs.Entries.{weight_entry, weight_entries};

use crate::fault::{LineError, ReadError, TextKind, fault_at_end};
use crate::name::Name;
use crate::records::WeightLine;
use crate::walk::{Progress, keep_lines};
use crate::words::{is_header, number_of};
use std::alloc::Global;
use std::marker::Model;

/// The weights of a `.wts` file.
#[derive(Drop)]
pub struct WeightFile<'a> {
    lines: Vec<WeightLine<'a>>,
}

impl<'a> Model for WeightFile<'a> {
    ghost use Rattle.std.specs.Prelude.{List};
    ghost use Rattle.std.specs.List.{AllByRecursion};
    ghost use Rattle.book_files.specs.Entries.{WeightEntry, weight_entries};
    ghost use Rattle.book_files.specs.Ranges.{IsWeightInRange};

    ghost Value = { List WeightEntry };

    ghost view = { λ f. weight_entries f.lines.items };

    ghost invariant = { λ f. AllByRecursion IsWeightInRange (weight_entries f.lines.items) };
}

impl<'a> WeightFile<'a> {
    /// The lines in order.
    pub fn as_slice(&self) -> &[WeightLine<'a>]
        ensures lines { weight_entries result.now ≡ self.now }
        ensures ranges { AllByRecursion IsWeightInRange self.now }
    {
        &self.lines
    }
}

/// The weights that a `.wts` file has, or its first fault.
pub fn read_wts(alloc: Global, bytes: &[u8]) -> Result<WeightFile<'_>, ReadError>
    ensures reading { Answers weights_grammar (λ file. file) bytes.now result }
    ensures few { IfOk result (λ file. length file ≤ length bytes.now) }
{
    let mut so_far = WeightsSoFar {
        begun: false,
        lines: Vec::new(alloc),
    };
    keep_lines(alloc, bytes, &mut so_far)?;
    if so_far.begun {
        Ok(WeightFile {
            lines: so_far.lines,
        })
    } else {
        Err(fault_at_end(bytes, TextKind::BadHeader))
    }
}

/// Whether the header was read, and the lines behind it.
#[derive(Drop)]
struct WeightsSoFar<'a> {
    begun: bool,
    lines: Vec<WeightLine<'a>>,
}

impl<'a> Progress<'a> for WeightsSoFar<'a> {
    ghost use Rattle.book_files.specs.Forms.Progress.{StandsFor, Refuses};
    ghost use Rattle.book_files.specs.Forms.Weights.{weight_form};
    ghost use Rattle.book_files.specs.Forms.SoFar.{IsWeightsSoFar};

    ghost stands_for = { StandsFor weight_form IsWeightsSoFar };

    ghost refuses = { Refuses weight_form };

    fn keep(&mut self, _number: u64, words: &[&'a [u8]]) -> Result<(), LineError> {
        if self.begun {
            self.lines.push(weight_of(words)?)?;
        } else if is_header(b"wts", words) {
            self.begun = true;
        } else {
            return Err(LineError::Kind(TextKind::BadHeader));
        }
        Ok(())
    }
}

/// A name and a weight. What stands behind them isn't read.
fn weight_of<'a>(words: &[&'a [u8]]) -> Result<WeightLine<'a>, TextKind>
    ensures { Gives (λ line. weighed (weight_entry line)) result
        (weight_of (map (λ w. w.now) words.now)) }
{
    match words {
        [name, weight, ..] => Ok(WeightLine {
            name: Name(name),
            weight: number_of(weight)?,
        }),
        _ => Err(TextKind::BadLine),
    }
}
