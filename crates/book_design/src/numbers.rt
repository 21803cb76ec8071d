//! Look-ups of names.

ghost use Rattle.std.specs.Prelude.{◌≡◌, ℕ, List, length, Some, IfOk, OnOk, MatchResult, if◌then◌else◌};
ghost use Rattle.std.specs.Str.{bytes_eq};
ghost use Rattle.book_design.specs.Records.{weight_lines};
ghost use Rattle.book_design.specs.Faults.{HasEarlierName};
ghost use Rattle.book_design.specs.Forms.Steps.{Stops};
ghost use Rattle.book_design.specs.Forms.Numbers.{number_in, AreNumbers};
ghost use Rattle.book_design.specs.Forms.Sources.{records_of, node_name, place_name, weight_name, entry_name};
ghost use Rattle.book_files.specs.Entries.{weight_entries};

use crate::fault::{DesignFault, JoinError};
use crate::sources::Sources;
use book_files::WeightLine;
use std::alloc::{AllocError, Global};
use std::collections::BTreeMap;

/// The number of the last line that has a name, by name.
pub(crate) type Numbers<'a> = BTreeMap<&'a [u8], usize>;

/// Gives the name this number from now on, and answers the one that it had.
fn put<'a>(
    numbers: &mut Numbers<'a>,
    name: &'a [u8],
    number: usize,
) -> Result<Option<usize>, AllocError>
    ensures before { IfOk result (λ before. before ≡ number_in numbers.old name.now) }
    ensures after { OnOk result ((other : List ℕ) → number_in numbers.new other ≡ (if bytes_eq name.now other then Some number else number_in numbers.old other)) }
{
    Ok(numbers.insert(name, number)?)
}

/// The number that the name has.
pub(crate) fn number(numbers: &Numbers<'_>, name: &[u8]) -> Option<usize>
    ensures { result ≡ number_in numbers.now name.now }
{
    numbers.get(name).copied()
}

/// The numbers of the nodes by their names, which are distinct.
pub(crate) fn node_numbers<'a>(
    alloc: Global,
    records: &Sources<'_, 'a>,
) -> Result<Numbers<'a>, JoinError>
    ensures { MatchResult result (λ numbers. ((i : ℕ) → HasEarlierName (records_of records.now) i → ⊥) × AreNumbers (node_name (records_of records.now)) (length (records_of records.now).nodes) numbers) (Stops (records_of records.now) 1) }
{
    let mut numbers = BTreeMap::new(alloc);
    for (i, node) in records.nodes.iter().enumerate() {
        let before = put(&mut numbers, node.name.0, i)?;
        if before.is_some() {
            return Err(JoinError::Fault(DesignFault::DuplicateName { line: node.line }));
        }
    }
    Ok(numbers)
}

/// The last lines of the placement file by their names.
pub(crate) fn place_numbers<'a>(
    alloc: Global,
    records: &Sources<'_, 'a>,
) -> Result<Numbers<'a>, AllocError>
    ensures { IfOk result (AreNumbers (place_name (records_of records.now)) (length (records_of records.now).places)) }
{
    let mut numbers = BTreeMap::new(alloc);
    for (i, place) in records.places.iter().enumerate() {
        put(&mut numbers, place.name.0, i)?;
    }
    Ok(numbers)
}

/// The last lines of the weights file by their names.
pub(crate) fn weight_numbers<'a>(
    alloc: Global,
    records: &Sources<'_, 'a>,
) -> Result<Numbers<'a>, AllocError>
    ensures { IfOk result (AreNumbers (weight_name (records_of records.now)) (length (weight_lines (records_of records.now)))) }
{
    match records.weights {
        Some(lines) => line_numbers(alloc, lines),
        None => Ok(BTreeMap::new(alloc)),
    }
}

/// The last of these lines by their names.
fn line_numbers<'a>(alloc: Global, lines: &[WeightLine<'a>]) -> Result<Numbers<'a>, AllocError>
    ensures { IfOk result (AreNumbers (entry_name (weight_entries lines.now)) (length (weight_entries lines.now))) }
{
    let mut numbers = BTreeMap::new(alloc);
    for (i, line) in lines.iter().enumerate() {
        put(&mut numbers, line.name.0, i)?;
    }
    Ok(numbers)
}
