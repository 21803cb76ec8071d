//! The one walk over the lines of a text that every reader takes.

ghost use Rattle.std.specs.Prelude.{◌≡◌, ◌≤◌, [], map, length, OnOk};
ghost use Rattle.book_text.specs.Lines.{words_of};
ghost use Rattle.book_text.specs.Walk.{bytes_at};
ghost use Rattle.book_files.specs.Forms.Progress.{Keeps, KeepsLines};

use crate::fault::{LineError, ReadError, TextFault};
use book_text::{Span, next_line, next_word};
use std::alloc::{AllocError, Global};

/// What a reader keeps of the lines before.
pub trait Progress<'a> {
    ghost use Rattle.std.specs.Prelude.{List};
    ghost use Rattle.book_text.specs.Lines.{NumberedLine};
    ghost use Rattle.book_files.specs.declared.fault.TextKind.{TextKind};

    /// It is what these lines leave.
    ghost stands_for: { Self → List NumberedLine → Type 0 };

    /// Behind these lines, this line's first fault is this one.
    ghost refuses: { List NumberedLine → NumberedLine → TextKind → Type 0 };

    /// Takes the next line.
    fn keep(&mut self, number: u64, words: &[&'a [u8]]) -> Result<(), LineError>
        ensures { Keeps stands_for refuses self.old self.new
            (record { number = number; words = map (λ w. w.now) words.now }) result };
}

/// Keeps each line of the text that isn't passed over, up to the first that is refused.
pub fn keep_lines<'a, P: Progress<'a>>(
    alloc: Global,
    text: &'a [u8],
    progress: &mut P,
) -> Result<(), ReadError>
    requires { P.stands_for progress.old [] }
    ensures { KeepsLines P.stands_for P.refuses progress.new text.now result }
{
    let mut words = Vec::new(alloc);
    let mut at = 0;
    let mut number = 1;
    while let Some(line) = next_line(text, at, number) {
        words_in(&mut words, text, line.words)?;
        if let Err(error) = progress.keep(line.number, &words) {
            return Err(error.at(line.number));
        }
        at = line.next;
        number = line.number + 1;
    }
    Ok(())
}

/// Puts the words of a line in the place of what the buffer had.
fn words_in<'a>(words: &mut Vec<&'a [u8]>, text: &'a [u8], line: Span) -> Result<(), AllocError>
    requires ordered { line.from ≤ line.to }
    requires within { line.to ≤ length text.now }
    ensures { OnOk result (map (λ w. w.now) words.new.items ≡ words_of (bytes_at text.now line)) }
{
    words.clear();
    let mut at = line.from;
    while let Some(word) = next_word(text, line, at) {
        words.push(&text[word.from..word.to])?;
        at = word.to;
    }
    Ok(())
}
