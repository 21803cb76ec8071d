//! The rows and their subrows.

ghost use Rattle.std.specs.Prelude.{◌≡◌, ℕ, ◌<◌, ◌^◌, ◌++◌, length, IfOk, OnOk, MatchBool, MatchOption, MatchResult};
ghost use Rattle.book_design.specs.Forms.Steps.{IsFirstFrom, Stops};
ghost use Rattle.book_design.specs.Forms.Sources.{records_of, AreInRange};
ghost use Rattle.book_design.specs.Forms.Parts.{outline, outlines, IsShape};
ghost use Rattle.book_design.specs.Records.{strip_of, strips as all_strips};
ghost use Rattle.book_design.specs.Forms.RowParts.{row_outlines, IsEven, HaveSite, HaveNoSite, HasShape, HasOtherShape};
ghost use Rattle.book_design.specs.Faults.{IsFirst, IsMixedRow, IsOverlapping};
ghost use Rattle.book_files.specs.Entries.{subrow_entry};
ghost use Rattle.book_files.specs.Blocks.{row_entry};
ghost use Rattle.book_files.specs.Ranges.{IsRowInRange, IsSubrowInRange};

use crate::fault::{DesignFault, JoinError};
use crate::overlap::first_overlap;
use crate::sources::Sources;
use crate::strips::Strip;
use book_files::{RowBlock, SubrowLine};
use std::alloc::{AllocError, Global};

/// The height and the pitch of rows that are all alike, in millionths.
#[derive(Clone, Copy, Debug)]
pub(crate) struct RowShape {
    pub height: i64,
    pub pitch: i64,
}

/// All subrows in file order.
pub(crate) fn lay_strips(alloc: Global, records: &Sources<'_, '_>) -> Result<Vec<Strip>, AllocError>
    requires few_rows { length (records_of records.now).rows < 2 ^ 32 }
    requires ranges { AreInRange (records_of records.now) }
    ensures { IfOk result (λ strips. strips.items ≡ outlines (records_of records.now)) }
{
    let mut strips = Vec::new(alloc);
    for (i, row) in records.rows.iter().enumerate() {
        lay_row(&mut strips, i as u32, row)?;
    }
    Ok(strips)
}

/// Adds the subrows of the row with this number.
fn lay_row(strips: &mut Vec<Strip>, number: u32, row: &RowBlock) -> Result<(), AllocError>
    requires { IsRowInRange (row_entry row.now) }
    ensures { OnOk result (strips.new.items ≡ strips.old.items ++ row_outlines number (row_entry row.now)) }
{
    for subrow in row.subrows.as_slice() {
        strips.push(strip_in(number, row, subrow))?;
    }
    Ok(())
}

fn strip_in(number: u32, row: &RowBlock, subrow: &SubrowLine) -> Strip
    requires row { IsRowInRange (row_entry row.now) }
    requires subrow { IsSubrowInRange (subrow_entry subrow.now) }
    ensures { result ≡ outline (strip_of number (row_entry row.now) (subrow_entry subrow.now)) }
{
    let width = i128::from(subrow.sites) * i128::from(row.pitch.0);
    Strip {
        row: number,
        left: subrow.x.0,
        right: i128::from(subrow.x.0) + width,
        lower: row.y.0,
        sites: subrow.sites,
    }
}

/// The shape of all rows, where some subrow has a site and each row has that shape.
pub(crate) fn even_rows(
    records: &Sources<'_, '_>,
    strips: &[Strip],
) -> Result<RowShape, DesignFault>
    requires few_rows { length (records_of records.now).rows < 2 ^ 32 }
    requires strips { strips.now ≡ outlines (records_of records.now) }
    ensures { MatchResult result (IsEven (records_of records.now)) (IsFirstFrom (records_of records.now) 4) }
{
    if !have_site(strips) {
        return Err(DesignFault::NoRows);
    }
    let first = &records.rows[0];
    let shape = RowShape {
        height: first.height.0,
        pitch: first.pitch.0,
    };
    match mixed_row(records, &shape) {
        Some(row) => Err(DesignFault::MixedRows { row }),
        None => Ok(shape),
    }
}

/// Whether one of these subrows has a site.
fn have_site(strips: &[Strip]) -> bool
    ensures { MatchBool result (HaveSite strips.now) (HaveNoSite strips.now) }
{
    for strip in strips {
        if strip.sites > 0 {
            return true;
        }
    }
    false
}

/// The first row that doesn't have the shape of row 0.
fn mixed_row(records: &Sources<'_, '_>, shape: &RowShape) -> Option<u32>
    requires few_rows { length (records_of records.now).rows < 2 ^ 32 }
    requires shape { IsShape (records_of records.now) shape.now }
    ensures { MatchOption result ((r : ℕ) → IsMixedRow (records_of records.now) r → ⊥) (IsFirst (IsMixedRow (records_of records.now))) }
{
    for (i, row) in records.rows.iter().enumerate() {
        if !has_shape(row, shape) {
            return Some(i as u32);
        }
    }
    None
}

fn has_shape(row: &RowBlock, shape: &RowShape) -> bool
    ensures { MatchBool result (HasShape (row_entry row.now) shape.now) (HasOtherShape (row_entry row.now) shape.now) }
{
    row.height.0 == shape.height && row.pitch.0 == shape.pitch
}

/// Tests that no subrow shares area with an earlier one.
pub(crate) fn test_apart(
    alloc: Global,
    records: &Sources<'_, '_>,
    strips: &[Strip],
    shape: &RowShape,
) -> Result<(), JoinError>
    requires ranges { AreInRange (records_of records.now) }
    requires strips { strips.now ≡ outlines (records_of records.now) }
    requires even { IsEven (records_of records.now) shape.now }
    ensures { MatchResult result (λ _. (s : ℕ) → IsOverlapping (all_strips (records_of records.now)) s → ⊥) (Stops (records_of records.now) 6) }
{
    match first_overlap(alloc, strips, shape.height)? {
        Some(s) => Err(JoinError::Fault(DesignFault::RowsOverlap { row: strips[s].row })),
        None => Ok(()),
    }
}
