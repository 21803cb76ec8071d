//! The places of cells, by the segments that they chose.

ghost use Rattle.std.specs.Prelude.{◌≡◌, ◌≢◌, ◌<◌, ◌≤◌, ◌^◌, ℕ, sum, length, slice_index, IfOk, All};
ghost use Rattle.row_space.specs.Ends.{IsGoodSegment, AreGoodSegments};
ghost use Rattle.row_legal.specs.Places.{place_at};
ghost use Rattle.row_legal.specs.Ranges.{IsNear};
ghost use Rattle.row_legal.specs.Forms.Settled.{AreSettled};
ghost use Rattle.row_legal.specs.Forms.Choices.{choice_at};
ghost use Rattle.row_legal.specs.Forms.Rows.{AreGoodChoices, IsRowPlaced, nearest_site, desires_of, widths_of};

use crate::handing::rows_of;
use crate::line::settle;
use crate::parts::Place;
use crate::picking::Choice;
use row_space::Segment;
use std::alloc::{AllocError, Global};

/// The places of all cells.
pub(crate) fn place_all(
    alloc: Global,
    segments: &[Segment],
    pitch: i64,
    choices: &[Choice],
) -> Result<Vec<Place>, AllocError>
    requires good { AreGoodSegments pitch segments.now }
    requires choices { AreGoodChoices segments.now choices.now }
    ensures all { IfOk result (λ places. length places.items ≡ length choices.now) }
    ensures each { IfOk result (λ places. (s : ℕ) → s < length segments.now → IsRowPlaced pitch segments.now choices.now places.items s) }
{
    let rows = rows_of(alloc, segments.len(), choices)?;
    let nowhere = Place {
        segment: 0,
        site: 0,
    };
    let mut places = vec![in alloc; nowhere; choices.len()]?;
    for s in 0..segments.len() {
        let firsts = side_by_side(alloc, &segments[s], pitch, &rows[s])?;
        write_back(s, &rows[s], &firsts, &mut places);
    }
    Ok(places)
}

/// The first sites of the cells of a segment.
fn side_by_side(
    alloc: Global,
    segment: &Segment,
    pitch: i64,
    row: &[Choice],
) -> Result<Vec<u64>, AllocError>
    requires good { IsGoodSegment pitch segment.now }
    requires near { (i : ℕ) → i < length row.now → IsNear (choice_at row.now i).x }
    requires fits { sum (widths_of row.now) ≤ segment.now.sites }
    ensures settled { IfOk result (λ firsts. AreSettled (desires_of pitch segment.now row.now) (widths_of row.now) segment.now.sites firsts.items) }
    ensures short { IfOk result (λ firsts. (i : ℕ) → i < length firsts.items → slice_index firsts.items i < 2 ^ 32) }
{
    let desires = desires(alloc, segment, pitch, row)?;
    let widths = widths(alloc, row)?;
    let firsts = settle(alloc, &desires, &widths, u64::from(segment.sites))?;
    Ok(firsts)
}

/// The sites that the cells of a segment desire.
fn desires(
    alloc: Global,
    segment: &Segment,
    pitch: i64,
    row: &[Choice],
) -> Result<Vec<u64>, AllocError>
    requires good { IsGoodSegment pitch segment.now }
    requires near { (i : ℕ) → i < length row.now → IsNear (choice_at row.now i).x }
    ensures same { IfOk result (λ desires. desires.items ≡ desires_of pitch segment.now row.now) }
    ensures near { IfOk result (λ desires. All (λ d. d ≤ 2 ^ 63) desires.items) }
{
    let mut desires = Vec::with_capacity(alloc, row.len())?;
    for choice in row {
        desires.push(nearest_site(segment, pitch, choice.x))?;
    }
    Ok(desires)
}

/// The sites that the cells of a segment take.
fn widths(alloc: Global, row: &[Choice]) -> Result<Vec<u64>, AllocError>
    ensures { IfOk result (λ widths. widths.items ≡ widths_of row.now) }
{
    row.iter().map(|choice| choice.sites).collect(alloc)
}

/// The site of a segment that is nearest to a wish, the right one of two, and 0 left of the segment.
fn nearest_site(segment: &Segment, pitch: i64, x: i64) -> u64
    requires segment { IsGoodSegment pitch segment.now }
    requires near { IsNear x }
    ensures site { result ≡ nearest_site pitch segment.now x }
    ensures small { result ≤ 2 ^ 63 }
{
    let width = pitch.unsigned_abs();
    let offset = x - segment.x + (width / 2) as i64;
    if offset < 0 { 0 } else { offset as u64 / width }
}

/// Writes the places of a segment's cells where those of all cells stand.
fn write_back(s: usize, row: &[Choice], firsts: &[u64], places: &mut Vec<Place>)
    requires same { length firsts.now ≡ length row.now }
    requires short { (i : ℕ) → i < length row.now → slice_index firsts.now i < 2 ^ 32 }
    requires there { (i : ℕ) → i < length row.now → (choice_at row.now i).cell < length places.old.items }
    requires apart { (i j : ℕ) → i < j → j < length row.now → (choice_at row.now i).cell ≢ (choice_at row.now j).cell }
    ensures all { length places.new.items ≡ length places.old.items }
    ensures written { (i : ℕ) → i < length row.now
        → place_at places.new.items (choice_at row.now i).cell ≡ record { segment = s; site = slice_index firsts.now i } }
    ensures kept { (c : ℕ) → ((i : ℕ) → i < length row.now → (choice_at row.now i).cell ≢ c)
        → place_at places.new.items c ≡ place_at places.old.items c }
{
    for (i, choice) in row.iter().enumerate() {
        places[choice.cell as usize] = Place {
            segment: s,
            site: firsts[i] as u32,
        };
    }
}
