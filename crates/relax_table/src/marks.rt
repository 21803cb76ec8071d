//! Mark words: behind the words of the points a table has a bit for each point, 64 of them in a word.

ghost use Rattle.std.specs.Prelude.{◌≡◌, ℕ, ◌+◌, ◌<◌, length, take, slice_index, IfOk};
ghost use Rattle.relax_table.specs.Seats.{mark_words};
ghost use Rattle.relax_table.specs.Forms.Chase.{marks_at};

use book_text::Memory;
use std::alloc::Global;

/// How many points have their marks in one word.
pub const MARKS: usize = 64;

/// The words of a new table: the start's entries, and behind them a mark of each point.
pub(crate) fn marked(alloc: Global, start: &[u64]) -> Result<Vec<u64>, Memory>
    ensures front { IfOk result (λ w. take (length start.now) w.items ≡ start.now) }
    ensures all { IfOk result (λ w. length w.items ≡ length start.now + mark_words (length start.now)) }
    ensures marks { IfOk result (λ w. (q : ℕ) → q < mark_words (length start.now) → slice_index w.items (length start.now + q) ≡ marks_at (length start.now) q) }
{
    let mut words = Vec::new(alloc);
    words.extend_from_slice(start)?;
    for word in 0..start.len().div_ceil(MARKS) {
        let points = (start.len() - word * MARKS).min(MARKS);
        words.push(u64::MAX >> (MARKS - points))?;
    }
    Ok(words)
}
