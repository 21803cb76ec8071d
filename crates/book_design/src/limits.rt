//! The limits of sites, of weights and of the ends of rows.

ghost use Rattle.std.specs.Prelude.{◌≡◌, ◌<◌, ◌^◌, length, MatchBool, MatchOption, MatchResult, ℕ};
ghost use Rattle.book_design.specs.Forms.Steps.{IsFreeFrom, IsFirstFrom};
ghost use Rattle.book_design.specs.Faults.{IsFirst, IsPastEnd};
ghost use Rattle.book_design.specs.Forms.ValueLimits.{IsCrowded, HasNoWeight, EndsHigh, IsHigh, IsWide};
ghost use Rattle.book_files.specs.Blocks.{row_entry};
ghost use Rattle.book_design.specs.Forms.Sources.{records_of, AreInRange};
ghost use Rattle.book_design.specs.Forms.Parts.{whole_weights, outlines};

use crate::fault::{DesignFault, past_limit};
use crate::rules::{MOST_SITES, ROWS_END};
use crate::sources::Sources;
use crate::strips::Strip;
use book_files::RowBlock;

/// Tests the sites of subrows, the weights of nets and the ends of rows.
pub(crate) fn test_values(
    records: &Sources<'_, '_>,
    strips: &[Strip],
    weights: &[Option<u32>],
) -> Result<(), DesignFault>
    requires few_nets { length (records_of records.now).nets < 2 ^ 32 }
    requires few_rows { length (records_of records.now).rows < 2 ^ 32 }
    requires ranges { AreInRange (records_of records.now) }
    requires strips { strips.now ≡ outlines (records_of records.now) }
    requires weights { weights.now ≡ whole_weights (records_of records.now) }
    ensures { MatchResult result (λ _. IsFreeFrom (records_of records.now) 11 14) (IsFirstFrom (records_of records.now) 11) }
{
    if let Some(s) = crowded_strip(strips) {
        return Err(past_limit(4, strips[s].sites));
    }
    if let Some(net) = bad_weight(weights) {
        return Err(past_limit(5, net as u64));
    }
    match row_past_end(records, strips) {
        Some(row) => Err(past_limit(6, u64::from(row))),
        None => Ok(()),
    }
}

/// The first subrow with too many sites.
fn crowded_strip(strips: &[Strip]) -> Option<usize>
    ensures { MatchOption result ((s : ℕ) → IsCrowded strips.now s → ⊥) (IsFirst (IsCrowded strips.now)) }
{
    for (s, strip) in strips.iter().enumerate() {
        if strip.sites > MOST_SITES {
            return Some(s);
        }
    }
    None
}

/// The first net without a whole weight.
fn bad_weight(weights: &[Option<u32>]) -> Option<usize>
    ensures { MatchOption result ((n : ℕ) → HasNoWeight weights.now n → ⊥) (IsFirst (HasNoWeight weights.now)) }
{
    for (n, weight) in weights.iter().enumerate() {
        if weight.is_none() {
            return Some(n);
        }
    }
    None
}

/// The first row of which the upper edge, or a subrow's right end, lies past the end.
fn row_past_end(records: &Sources<'_, '_>, strips: &[Strip]) -> Option<u32>
    requires few_rows { length (records_of records.now).rows < 2 ^ 32 }
    requires strips { strips.now ≡ outlines (records_of records.now) }
    ensures { MatchOption result ((r : ℕ) → IsPastEnd (records_of records.now) r → ⊥) (IsFirst (IsPastEnd (records_of records.now))) }
{
    match (high_row(records), wide_strip(strips)) {
        (Some(row), Some(s)) => Some(row.min(strips[s].row)),
        (Some(row), None) => Some(row),
        (None, Some(s)) => Some(strips[s].row),
        (None, None) => None,
    }
}

/// The first row whose upper edge lies past the end.
fn high_row(records: &Sources<'_, '_>) -> Option<u32>
    requires few_rows { length (records_of records.now).rows < 2 ^ 32 }
    ensures { MatchOption result ((r : ℕ) → IsHigh (records_of records.now) r → ⊥) (IsFirst (IsHigh (records_of records.now))) }
{
    for (i, row) in records.rows.iter().enumerate() {
        if ends_high(row) {
            return Some(i as u32);
        }
    }
    None
}

fn ends_high(row: &RowBlock) -> bool
    ensures { MatchBool result (EndsHigh (row_entry row.now)) (EndsHigh (row_entry row.now) → ⊥) }
{
    i128::from(row.y.0) + i128::from(row.height.0) > i128::from(ROWS_END)
}

/// The first subrow whose right end lies past the end.
fn wide_strip(strips: &[Strip]) -> Option<usize>
    ensures { MatchOption result ((s : ℕ) → IsWide strips.now s → ⊥) (IsFirst (IsWide strips.now)) }
{
    for (s, strip) in strips.iter().enumerate() {
        if strip.right > i128::from(ROWS_END) {
            return Some(s);
        }
    }
    None
}
