ghost use Rattle.std.specs.Prelude.{◌≡◌, map, List, ◌≤◌, length, IfOk};
ghost use Rattle.std.specs.List.{AllByRecursion};
ghost use Rattle.book_files.specs.Ranges.{IsNodeInRange};
ghost use Rattle.book_files.specs.Grammar.{Answers};
ghost use Rattle.book_files.specs.NodeRules.{nodes_grammar};
ghost use Rattle.book_files.specs.Forms.Progress.{Gives};
ghost use Rattle.book_files.specs.Nodes.{node, node_mark};
ghost use Rattle.book_files.specs.Forms.Nodes.{sized, node_of};
ghost use Rattle.book_files.specs.Entries.{node_entry, node_entries};

use crate::fault::{LineError, ReadError, TextKind, fault_at_end};
use crate::name::Name;
use crate::records::NodeLine;
use crate::walk::{Progress, keep_lines};
use crate::words::{count_of, is_header, is_keyed, is_keyword, size_of};
use book_text::spaced_words;
use std::alloc::Global;
use std::marker::Model;

/// The nodes of a `.nodes` file.
#[derive(Drop)]
pub struct NodeFile<'a> {
    lines: Vec<NodeLine<'a>>,
}

impl<'a> Model for NodeFile<'a> {
    ghost use Rattle.std.specs.Prelude.{List};
    ghost use Rattle.std.specs.List.{AllByRecursion};
    ghost use Rattle.book_files.specs.Entries.{NodeEntry, node_entries};
    ghost use Rattle.book_files.specs.Ranges.{IsNodeInRange};

    ghost Value = { List NodeEntry };

    ghost view = { λ f. node_entries f.lines.items };

    ghost invariant = { λ f. AllByRecursion IsNodeInRange (node_entries f.lines.items) };
}

impl<'a> NodeFile<'a> {
    /// The lines in order.
    pub fn as_slice(&self) -> &[NodeLine<'a>]
        ensures lines { node_entries result.now ≡ self.now }
        ensures ranges { AllByRecursion IsNodeInRange self.now }
    {
        &self.lines
    }
}

/// The nodes that a `.nodes` file has, or its first fault.
pub fn read_nodes(alloc: Global, bytes: &[u8]) -> Result<NodeFile<'_>, ReadError>
    ensures reading { Answers nodes_grammar (λ file. file) bytes.now result }
    ensures few { IfOk result (λ file. length file ≤ length bytes.now) }
{
    let mut so_far = NodesSoFar {
        begun: false,
        total: None,
        terminals_stated: false,
        lines: Vec::new(alloc),
    };
    keep_lines(alloc, bytes, &mut so_far)?;
    spaced_words();
    match so_far.fault() {
        None => Ok(NodeFile {
            lines: so_far.lines,
        }),
        Some(kind) => Err(fault_at_end(bytes, kind)),
    }
}

/// Whether the header was read, which counts were stated, and the node lines.
#[derive(Drop)]
struct NodesSoFar<'a> {
    begun: bool,
    total: Option<u64>,
    terminals_stated: bool,
    lines: Vec<NodeLine<'a>>,
}

impl<'a> NodesSoFar<'a> {
    ghost use Rattle.book_files.specs.Forms.SoFar.{end_fault};

    /// The fault where no line follows.
    fn fault(&self) -> Option<TextKind>
        ensures { result ≡ end_fault self.now }
    {
        if !self.begun {
            return Some(TextKind::BadHeader);
        }
        let found = self.lines.len() as u64;
        match self.total {
            None => Some(TextKind::BadLine),
            Some(stated) if stated != found => Some(TextKind::CountMismatch {
                told: stated,
                found,
            }),
            Some(_) => None,
        }
    }
}

impl<'a> Progress<'a> for NodesSoFar<'a> {
    ghost use Rattle.book_files.specs.Forms.Progress.{StandsFor, Refuses};
    ghost use Rattle.book_files.specs.Forms.Nodes.{node_form};
    ghost use Rattle.book_files.specs.Forms.SoFar.{IsNodesSoFar};

    ghost stands_for = { StandsFor node_form IsNodesSoFar };

    ghost refuses = { Refuses node_form };

    fn keep(&mut self, number: u64, words: &[&'a [u8]]) -> Result<(), LineError> {
        if !self.begun {
            if !is_header(b"nodes", words) {
                return Err(LineError::Kind(TextKind::BadHeader));
            }
            self.begun = true;
        } else if is_keyed(b"numnodes", words) {
            self.total = Some(count_of(self.total.is_some(), words)?);
        } else if is_keyed(b"numterminals", words) {
            count_of(self.terminals_stated, words)?;
            self.terminals_stated = true;
        } else {
            self.lines.push(node_of(number, words)?)?;
        }
        Ok(())
    }
}

/// A node line: three words, or four of which the last is a mark.
fn node_of<'a>(number: u64, words: &[&'a [u8]]) -> Result<NodeLine<'a>, TextKind>
    ensures { Gives (λ line. node (node_entry line)) result
        (node_of number (map (λ w. w.now) words.now)) }
{
    match words {
        [name, width, height] => sized(number, name, width, height, false, false),
        [name, width, height, mark] => {
            let overlap = node_mark(mark).ok_or(TextKind::BadLine)?;
            sized(number, name, width, height, true, overlap)
        }
        _ => Err(TextKind::BadLine),
    }
}

/// A node of these sizes.
fn sized<'a>(
    number: u64,
    name: &'a [u8],
    width: &[u8],
    height: &[u8],
    fixed: bool,
    overlap: bool,
) -> Result<NodeLine<'a>, TextKind>
    ensures { Gives (λ line. node (node_entry line)) result
        (sized number name.now width.now height.now fixed overlap) }
{
    Ok(NodeLine {
        line: number,
        name: Name(name),
        width: size_of(width)?,
        height: size_of(height)?,
        fixed,
        overlap,
    })
}

/// What a mark says of its node, which is fixed: whether it allows overlap. The mark is `terminal` or `terminal_NI`, in any ASCII
/// case.
fn node_mark(word: &[u8]) -> Option<bool>
    ensures { result ≡ node_mark word.now }
{
    if is_keyword(b"terminal", word) {
        Some(false)
    } else if is_keyword(b"terminal_ni", word) {
        Some(true)
    } else {
        None
    }
}
