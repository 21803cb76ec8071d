//! The cells handed to the segments that they chose.

ghost use Rattle.std.specs.Prelude.{◌≡◌, ◌<◌, ℕ, [], length, IfOk};
ghost use Rattle.row_legal.specs.Forms.Choices.{choice_at};
ghost use Rattle.row_legal.specs.Forms.Rows.{IsSortOf, choices_at, row_at};

use crate::picking::Choice;
use std::alloc::{AllocError, Global};

/// The choices of each segment, from left to right.
pub(crate) fn rows_of(
    alloc: Global,
    segments: usize,
    choices: &[Choice],
) -> Result<Vec<Vec<Choice>>, AllocError>
    requires { (i : ℕ) → i < length choices.now → (choice_at choices.now i).segment < segments }
    ensures all { IfOk result (λ rows. length rows.items ≡ segments) }
    ensures each { IfOk result (λ rows. (s : ℕ) → s < segments → IsSortOf (choices_at choices.now s) (row_at rows.items s)) }
{
    let mut rows = handed_out(alloc, segments, choices)?;
    sort_each(&mut rows);
    Ok(rows)
}

/// The choices of each segment, in their order.
fn handed_out(
    alloc: Global,
    segments: usize,
    choices: &[Choice],
) -> Result<Vec<Vec<Choice>>, AllocError>
    requires { (i : ℕ) → i < length choices.now → (choice_at choices.now i).segment < segments }
    ensures all { IfOk result (λ rows. length rows.items ≡ segments) }
    ensures each { IfOk result (λ rows. (s : ℕ) → s < segments → row_at rows.items s ≡ choices_at choices.now s) }
{
    let mut rows = empty_rows(alloc, segments)?;
    for choice in choices {
        rows[choice.segment].push(*choice)?;
    }
    Ok(rows)
}

/// A row without a choice for each segment.
fn empty_rows(alloc: Global, segments: usize) -> Result<Vec<Vec<Choice>>, AllocError>
    ensures all { IfOk result (λ rows. length rows.items ≡ segments) }
    ensures each { IfOk result (λ rows. (s : ℕ) → s < segments → row_at rows.items s ≡ []) }
{
    let mut rows = Vec::with_capacity(alloc, segments)?;
    for _s in 0..segments {
        rows.push(Vec::new(alloc))?;
    }
    Ok(rows)
}

/// Puts the choices of each row in order.
fn sort_each(rows: &mut Vec<Vec<Choice>>)
    ensures all { length rows.new.items ≡ length rows.old.items }
    ensures each { (s : ℕ) → s < length rows.old.items → IsSortOf (row_at rows.old.items s) (row_at rows.new.items s) }
{
    for s in 0..rows.len() {
        // All choices differ, so the sort needn't be stable and takes no memory.
        rows[s].sort_unstable();
    }
}
