ghost use Rattle.std.specs.Prelude.{◌≡◌, ◌<◌, ◌^◌, length, option_map, MatchResult};
ghost use Rattle.book_design.specs.Answers.{Answers};
ghost use Rattle.book_design.specs.Joined.{Joins};
ghost use Rattle.book_design.specs.Forms.Steps.{IsFreeFrom, Stops};
ghost use Rattle.book_files.specs.Entries.{weight_entries};
ghost use Rattle.book_design.specs.Forms.Sources.{records_of, AreInRange};

use crate::assembly::assemble;
use crate::counts::{pin_total, test_counts};
use crate::design::Design;
use crate::fault::JoinError;
use crate::limits::test_values;
use crate::nets::{join_nets, net_weights};
use crate::nodes::join_nodes;
use crate::numbers::node_numbers;
use crate::rows::{even_rows, lay_strips, test_apart};
use crate::sources::Sources;
use book_files::{NetFile, NodeFile, PlaceFile, RowFile, WeightFile, WeightLine};
use std::alloc::Global;

/// The design that these files make together, or the first fault that they have.
///
/// It takes time n log n in the nodes, pins, lines and subrows.
pub fn join_design<'a>(
    alloc: Global,
    nodes: &NodeFile<'a>,
    nets: &NetFile<'a>,
    wts: Option<&WeightFile<'a>>,
    pl: &PlaceFile<'a>,
    scl: &RowFile,
) -> Result<Design<'a>, JoinError>
    requires few_nodes { length nodes.now < 2 ^ 32 }
    requires few_nets { length nets.now < 2 ^ 32 }
    requires few_rows { length scl.now < 2 ^ 32 }
    ensures { Answers (record { nodes = nodes.now; nets = nets.now; weights = option_map (λ w. w.now) wts.entry; places = pl.now; rows = scl.now }) result }
{
    let records = Sources {
        nodes: nodes.as_slice(),
        nets: nets.as_slice(),
        weights: weight_lines(wts),
        places: pl.as_slice(),
        rows: scl.as_slice(),
    };
    join_files(alloc, &records)
}

/// The lines of the weights file, where there is one.
fn weight_lines<'s, 'a>(wts: Option<&'s WeightFile<'a>>) -> Option<&'s [WeightLine<'a>]>
    ensures { option_map (λ lines. weight_entries lines.now) result ≡ option_map (λ w. w.now) wts.entry }
{
    match wts {
        Some(file) => Some(file.as_slice()),
        None => None,
    }
}

/// The design, or the first fault: each step tests what no step before it has tested.
fn join_files<'a>(alloc: Global, records: &Sources<'_, 'a>) -> Result<Design<'a>, JoinError>
    requires few_nodes { length (records_of records.now).nodes < 2 ^ 32 }
    requires few_nets { length (records_of records.now).nets < 2 ^ 32 }
    requires few_rows { length (records_of records.now).rows < 2 ^ 32 }
    requires ranges { AreInRange (records_of records.now) }
    ensures { MatchResult result (λ design. IsFreeFrom (records_of records.now) 1 14 × Joins (records_of records.now) design) (Stops (records_of records.now) 1) }
{
    let numbers = node_numbers(alloc, records)?;
    let weights = net_weights(alloc, records)?;
    let nets = join_nets(alloc, records, &numbers, &weights)?;
    let nodes = join_nodes(alloc, records)?;
    let strips = lay_strips(alloc, records)?;
    let shape = even_rows(records, &strips)?;
    test_apart(alloc, records, &strips, &shape)?;
    let pins = pin_total(records.nets)?;
    test_counts(records, &nodes, &strips, &shape, pins)?;
    test_values(records, &strips, &weights)?;
    Ok(assemble(alloc, records, nodes, nets, &strips, &shape)?)
}
