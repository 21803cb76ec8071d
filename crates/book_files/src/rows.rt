ghost use Rattle.std.specs.Prelude.{◌≡◌, ◌+◌, ◌≤◌, [], ◌∷◌, ◌++◌, length, IfOk, OnOk};
ghost use Rattle.std.specs.List.{AllByRecursion};
ghost use Rattle.book_files.specs.Grammar.{Answers};
ghost use Rattle.book_files.specs.RowRules.{rows_grammar};
ghost use Rattle.book_files.specs.Ranges.{IsSubrowInRange, IsRowInRange, subrow_count};
ghost use Rattle.book_files.specs.Entries.{subrow_entry, subrow_entries};
ghost use Rattle.book_files.specs.Blocks.{row_entries};

use crate::fault::{LineError, ReadError, TextKind, fault_at_end};
use crate::records::{RowBlock, SubrowLine};
use crate::row_block::BlockSoFar;
use crate::row_lines::{is_row_end, is_row_start};
use crate::walk::{Progress, keep_lines};
use crate::words::{count_of, is_header, is_keyed};
use std::alloc::{AllocError, Global};
use std::marker::Model;

/// The subrows of a row.
#[derive(Drop)]
pub struct Subrows {
    lines: Vec<SubrowLine>,
}

impl Model for Subrows {
    ghost use Rattle.std.specs.Prelude.{List};
    ghost use Rattle.std.specs.List.{AllByRecursion};
    ghost use Rattle.book_files.specs.Entries.{SubrowEntry, subrow_entries};
    ghost use Rattle.book_files.specs.Ranges.{IsSubrowInRange};

    ghost Value = { List SubrowEntry };

    ghost view = { λ s. subrow_entries s.lines.items };

    ghost invariant = { λ s. AllByRecursion IsSubrowInRange (subrow_entries s.lines.items) };
}

impl Subrows {
    /// No subrows.
    pub(crate) fn new(alloc: Global) -> Subrows
        ensures { result ≡ [] }
    {
        Subrows {
            lines: Vec::new(alloc),
        }
    }

    /// One subrow more, behind the others.
    pub(crate) fn push(&mut self, line: SubrowLine) -> Result<(), AllocError>
        requires { IsSubrowInRange (subrow_entry line) }
        ensures { OnOk result (self.new ≡ self.old ++ subrow_entry line ∷ []) }
    {
        self.lines.push(line)?;
        Ok(())
    }

    /// The subrows in order.
    pub fn as_slice(&self) -> &[SubrowLine]
        ensures lines { subrow_entries result.now ≡ self.now }
        ensures ranges { AllByRecursion IsSubrowInRange self.now }
    {
        &self.lines
    }
}

/// The rows of a `.scl` file.
#[derive(Drop)]
pub struct RowFile {
    blocks: Vec<RowBlock>,
}

impl Model for RowFile {
    ghost use Rattle.std.specs.Prelude.{List};
    ghost use Rattle.std.specs.List.{AllByRecursion};
    ghost use Rattle.book_files.specs.Entries.{RowEntry};
    ghost use Rattle.book_files.specs.Blocks.{row_entries};
    ghost use Rattle.book_files.specs.Ranges.{IsRowInRange};

    ghost Value = { List RowEntry };

    ghost view = { λ f. row_entries f.blocks.items };

    ghost invariant = { λ f. AllByRecursion IsRowInRange (row_entries f.blocks.items) };
}

impl RowFile {
    /// The rows in order.
    pub fn as_slice(&self) -> &[RowBlock]
        ensures blocks { row_entries result.now ≡ self.now }
        ensures ranges { AllByRecursion IsRowInRange self.now }
    {
        &self.blocks
    }
}

/// The rows that a `.scl` file has, or its first fault.
pub fn read_scl(alloc: Global, bytes: &[u8]) -> Result<RowFile, ReadError>
    ensures reading { Answers rows_grammar (λ file. file) bytes.now result }
    ensures few { IfOk result (λ file. length file + subrow_count file ≤ length bytes.now) }
{
    let mut so_far = RowsSoFar {
        alloc,
        begun: false,
        total: None,
        blocks: Vec::new(alloc),
        current: None,
    };
    keep_lines(alloc, bytes, &mut so_far)?;
    match so_far.fault() {
        None => Ok(RowFile {
            blocks: so_far.blocks,
        }),
        Some(kind) => Err(fault_at_end(bytes, kind)),
    }
}

/// Whether the header was read, the number of rows that was stated, the ended blocks, and the one that isn't ended.
#[derive(Drop)]
struct RowsSoFar {
    alloc: Global,
    begun: bool,
    total: Option<u64>,
    blocks: Vec<RowBlock>,
    current: Option<BlockSoFar>,
}

impl RowsSoFar {
    ghost use Rattle.book_files.specs.Forms.RowProgress.{rows_end_fault};

    /// The fault where no line follows.
    fn fault(&self) -> Option<TextKind>
        ensures { result ≡ rows_end_fault self.now }
    {
        if !self.begun {
            return Some(TextKind::BadHeader);
        }
        if self.current.is_some() {
            return Some(TextKind::BadLine);
        }
        let found = self.blocks.len() as u64;
        match self.total {
            None => Some(TextKind::BadLine),
            Some(stated) if stated != found => Some(TextKind::CountMismatch {
                told: stated,
                found,
            }),
            Some(_) => None,
        }
    }
}

impl<'a> Progress<'a> for RowsSoFar {
    ghost use Rattle.book_files.specs.Forms.Progress.{StandsFor, Refuses};
    ghost use Rattle.book_files.specs.Forms.Rows.{row_form};
    ghost use Rattle.book_files.specs.Forms.RowProgress.{IsRowsSoFar};

    ghost stands_for = { StandsFor row_form IsRowsSoFar };

    ghost refuses = { Refuses row_form };

    fn keep(&mut self, number: u64, words: &[&'a [u8]]) -> Result<(), LineError> {
        if !self.begun {
            if !is_header(b"scl", words) {
                return Err(LineError::Kind(TextKind::BadHeader));
            }
            self.begun = true;
            return Ok(());
        }
        match self.current.take() {
            None => {
                if is_keyed(b"numrows", words) {
                    self.total = Some(count_of(self.total.is_some(), words)?);
                } else if is_row_start(words) {
                    self.current = Some(BlockSoFar::new(self.alloc));
                } else {
                    return Err(LineError::Kind(TextKind::BadLine));
                }
            }
            Some(block) => {
                if is_row_end(words) {
                    self.blocks.push(block.row()?)?;
                } else {
                    self.current = Some(block.with(words)?);
                }
            }
        }
        Ok(())
    }
}
