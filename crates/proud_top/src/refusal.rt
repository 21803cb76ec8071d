//! The line of a stop: what it says, and the subject that it names.

ghost use Rattle.std.specs.Prelude.{◌≡◌, ◌++◌, IfOk, IfSome, OnOk, option_map};
ghost use Rattle.proud_top.specs.Lines.{kind_text, cannot_read_line, line_place, size_cause, count_cause, text_cause, subject_cause, row_cause, limit_cause, design_cause, edges_cause, net_cause, room_cause, cause_text, refusal_line};
ghost use Rattle.proud_top.specs.Named.{node_of, cell_of, point_of, node_of_fault, point_of_fault, IsSubjectIn, IsNodeSubject, IsPointSubject};
ghost use Rattle.proud_top.specs.Texts.{AreRecords};
ghost use Rattle.proud_top.specs.Forms.Stops.{AreRecordsOf, HasNode, HasCell, HasPoint, Covers, CoversStop, IsLineOf};

use crate::inputs::Inputs;
use crate::status::Refusal;
use crate::stop::Stop;
use book_design::DesignFault;
use book_files::{FileKind, MOST_BYTES, TextKind};
use book_text::Memory;
use net_model::NetFault;
use std::alloc::Global;

/// The line of a stop, and nothing for want of memory. Where the stop names a node, a cell or a point, it is one of the inputs',
/// in which its subject is looked up.
pub(crate) fn fault_line(
    alloc: Global,
    stop: Stop,
    inputs: Option<&Inputs>,
) -> Result<Vec<u8>, Memory>
    requires { CoversStop (option_map (λ i. i.now) inputs) stop }
    ensures { IfOk result (λ line. IsLineOf (option_map (λ i. i.now) inputs.entry) stop line.items) }
{
    match stop {
        Stop::ReadFault(kind) => cannot_read_line(alloc, kind),
        Stop::Refused(refusal) => {
            let subject = subject_in(alloc, refusal, inputs)?;
            refusal_line(alloc, refusal, &subject)
        }
        Stop::Memory => Ok(Vec::new(alloc)),
    }
}

/// The subject that a refusal names, and else nothing.
fn subject_in(alloc: Global, refusal: Refusal, inputs: Option<&Inputs>) -> Result<Vec<u8>, Memory>
    requires { Covers (option_map (λ i. i.now) inputs) refusal }
    ensures { IfOk result (λ subject. IsSubjectIn (AreRecordsOf (option_map (λ i. i.now) inputs.entry)) refusal subject.items) }
{
    match inputs {
        Some(inputs) => subject_among(alloc, refusal, inputs),
        None => Ok(Vec::new(alloc)),
    }
}

/// The subject of the inputs that a refusal names, and else nothing.
fn subject_among(alloc: Global, refusal: Refusal, inputs: &Inputs) -> Result<Vec<u8>, Memory>
    requires node { IfSome (node_of refusal) (HasNode inputs.now) }
    requires cell { IfSome (cell_of refusal) (HasCell inputs.now) }
    requires point { IfSome (point_of refusal) (HasPoint inputs.now) }
    ensures { IfOk result (λ subject. IsSubjectIn (AreRecords inputs.now) refusal subject.items) }
{
    match refusal {
        Refusal::Design(fault) => subject_of_node(alloc, node_of_fault(fault), inputs),
        Refusal::Net(fault) => subject_of_point(alloc, point_of_fault(fault), inputs),
        Refusal::Unanchored(cell) | Refusal::NoRoom { cell, .. } => {
            inputs.cell_subject(alloc, cell)
        }
        Refusal::TooLong(_) | Refusal::Text(..) => Ok(Vec::new(alloc)),
    }
}

/// The node of that number as a subject, where there is one.
fn subject_of_node(alloc: Global, node: Option<u32>, inputs: &Inputs) -> Result<Vec<u8>, Memory>
    requires { IfSome node (HasNode inputs.now) }
    ensures { IfOk result (λ subject. IfSome node (IsNodeSubject (AreRecords inputs.now) subject.items)) }
{
    match node {
        Some(node) => inputs.node_subject(alloc, node),
        None => Ok(Vec::new(alloc)),
    }
}

/// The point of that number as a subject, where there is one.
fn subject_of_point(alloc: Global, point: Option<u32>, inputs: &Inputs) -> Result<Vec<u8>, Memory>
    requires { IfSome point (HasPoint inputs.now) }
    ensures { IfOk result (λ subject. IfSome point (IsPointSubject (AreRecords inputs.now) subject.items)) }
{
    match point {
        Some(point) => inputs.point_subject(alloc, point),
        None => Ok(Vec::new(alloc)),
    }
}

/// The number of the node that the fault names.
fn node_of_fault(fault: DesignFault) -> Option<u32>
    ensures { result ≡ node_of_fault fault }
{
    match fault {
        DesignFault::NoPosition { node } | DesignFault::TallCell { node } => Some(node),
        DesignFault::DuplicateName { .. }
        | DesignFault::UnknownName { .. }
        | DesignFault::NoRows
        | DesignFault::MixedRows { .. }
        | DesignFault::RowsOverlap { .. }
        | DesignFault::Limit { .. } => None,
    }
}

/// The point that the fault names.
fn point_of_fault(fault: NetFault) -> Option<u32>
    ensures { result ≡ point_of_fault fault }
{
    match fault {
        NetFault::Heavy(point) => Some(point),
        NetFault::TooManyEdges(_) => None,
    }
}

/// The line that says that a file couldn't be read.
fn cannot_read_line(alloc: Global, kind: FileKind) -> Result<Vec<u8>, Memory>
    ensures { IfOk result (λ line. line.items ≡ cannot_read_line kind) }
{
    let mut line = Vec::from_slice(alloc, b"proud: cannot read ")?;
    line.extend_from_slice(kind_text(kind).as_bytes())?;
    line.push(b'\n')?;
    Ok(line)
}

/// The line of a refusal. The subject is what the refusal names.
pub(crate) fn refusal_line(
    alloc: Global,
    refusal: Refusal,
    subject: &[u8],
) -> Result<Vec<u8>, Memory>
    ensures { IfOk result (λ line. line.items ≡ refusal_line refusal subject.now) }
{
    let mut line = Vec::from_slice(alloc, b"proud: ")?;
    push_cause(alloc, &mut line, refusal, subject)?;
    line.push(b'\n')?;
    Ok(line)
}

/// Appends the cause of a refusal.
fn push_cause(
    alloc: Global,
    line: &mut Vec<u8>,
    refusal: Refusal,
    subject: &[u8],
) -> Result<(), Memory>
    ensures { OnOk result (line.new.items ≡ line.old.items ++ cause_text refusal subject.now) }
{
    match refusal {
        Refusal::TooLong(kind) => push_size(alloc, line, kind, "longer than", MOST_BYTES as u64),
        Refusal::Text(kind, fault) => {
            push_place(alloc, line, kind, fault.line)?;
            push_text_cause(alloc, line, fault.kind)
        }
        Refusal::Design(fault) => push_design_cause(alloc, line, fault, subject),
        Refusal::Net(fault) => push_net_cause(alloc, line, fault, subject),
        Refusal::Unanchored(_) => push_subject(line, subject, "reaches no pad"),
        Refusal::NoRoom { sites, largest, .. } => push_room(alloc, line, subject, sites, largest),
    }
}

/// Appends what is wrong with the size of a file.
fn push_size(
    alloc: Global,
    line: &mut Vec<u8>,
    kind: FileKind,
    wrong: &str,
    bytes: u64,
) -> Result<(), Memory>
    ensures { OnOk result (line.new.items ≡ line.old.items ++ size_cause kind wrong.now bytes) }
{
    let cause = format!(in alloc; "{}: {wrong} {bytes} bytes", kind_text(kind))?;
    push(line, cause.as_str())
}

/// Appends what is wrong with a line of a file.
fn push_text_cause(alloc: Global, line: &mut Vec<u8>, kind: TextKind) -> Result<(), Memory>
    ensures { OnOk result (line.new.items ≡ line.old.items ++ text_cause kind) }
{
    match kind {
        TextKind::BadHeader => push(line, "bad header"),
        TextKind::BadLine => push(line, "bad line"),
        TextKind::BadNumber => push(line, "bad number"),
        TextKind::CountMismatch { told, found } => push_counts(alloc, line, told, found),
    }
}

/// Appends two counts that differ.
fn push_counts(alloc: Global, line: &mut Vec<u8>, told: u64, found: u64) -> Result<(), Memory>
    ensures { OnOk result (line.new.items ≡ line.old.items ++ count_cause told found) }
{
    let counts = format!(in alloc; "count {told} but {found}")?;
    push(line, counts.as_str())
}

/// Appends what is wrong with the files together.
fn push_design_cause(
    alloc: Global,
    line: &mut Vec<u8>,
    fault: DesignFault,
    subject: &[u8],
) -> Result<(), Memory>
    ensures { OnOk result (line.new.items ≡ line.old.items ++ design_cause fault subject.now) }
{
    match fault {
        DesignFault::DuplicateName { line: number } => {
            push_place(alloc, line, FileKind::Nodes, number)?;
            push(line, "name given twice")
        }
        DesignFault::UnknownName { file, line: number } => {
            push_place(alloc, line, file, number)?;
            push(line, "unknown name")
        }
        DesignFault::NoPosition { .. } => push_subject(line, subject, "no position"),
        DesignFault::NoRows => push(line, "no rows"),
        DesignFault::MixedRows { row } => push_row(alloc, line, row, "mixed rows"),
        DesignFault::RowsOverlap { row } => push_row(alloc, line, row, "overlaps"),
        DesignFault::TallCell { .. } => push_subject(line, subject, "taller than a row"),
        DesignFault::Limit { kind, number } => push_limit(alloc, line, kind, number),
    }
}

/// Appends what is wrong with the nets.
fn push_net_cause(
    alloc: Global,
    line: &mut Vec<u8>,
    fault: NetFault,
    subject: &[u8],
) -> Result<(), Memory>
    ensures { OnOk result (line.new.items ≡ line.old.items ++ net_cause fault subject.now) }
{
    match fault {
        NetFault::TooManyEdges(number) => push_edges(alloc, line, number),
        NetFault::Heavy(_) => push_subject(line, subject, "too heavy"),
    }
}

/// Appends a quantity past its limit.
fn push_limit(alloc: Global, line: &mut Vec<u8>, kind: u8, number: u64) -> Result<(), Memory>
    ensures { OnOk result (line.new.items ≡ line.old.items ++ limit_cause kind number) }
{
    let limit = format!(in alloc; "limit {kind} {number}")?;
    push(line, limit.as_str())
}

/// Appends how many pair terms there are.
fn push_edges(alloc: Global, line: &mut Vec<u8>, number: u64) -> Result<(), Memory>
    ensures { OnOk result (line.new.items ≡ line.old.items ++ edges_cause number) }
{
    let cause = format!(in alloc; "too many edges: {number}")?;
    push(line, cause.as_str())
}

/// Appends that there is no room for a cell.
fn push_room(
    alloc: Global,
    line: &mut Vec<u8>,
    subject: &[u8],
    sites: u64,
    largest: u64,
) -> Result<(), Memory>
    ensures { OnOk result (line.new.items ≡ line.old.items ++ room_cause subject.now sites largest) }
{
    line.extend_from_slice(subject)?;
    let wrong = format!(in alloc; ": no room for {sites} sites, {largest} left")?;
    push(line, wrong.as_str())
}

/// Appends the place of a fault: a file's kind and the number of a line.
fn push_place(alloc: Global, line: &mut Vec<u8>, kind: FileKind, number: u64) -> Result<(), Memory>
    ensures { OnOk result (line.new.items ≡ line.old.items ++ line_place kind number) }
{
    let place = format!(in alloc; "{}:{number}: ", kind_text(kind))?;
    push(line, place.as_str())
}

/// Appends what is wrong with a row.
fn push_row(alloc: Global, line: &mut Vec<u8>, row: u32, wrong: &str) -> Result<(), Memory>
    ensures { OnOk result (line.new.items ≡ line.old.items ++ row_cause row wrong.now) }
{
    let cause = format!(in alloc; "row {row}: {wrong}")?;
    push(line, cause.as_str())
}

/// Appends what is wrong with a subject.
fn push_subject(line: &mut Vec<u8>, subject: &[u8], wrong: &str) -> Result<(), Memory>
    ensures { OnOk result (line.new.items ≡ line.old.items ++ subject_cause subject.now wrong.now) }
{
    line.extend_from_slice(subject)?;
    push(line, ": ")?;
    push(line, wrong)
}

/// Appends a text.
fn push(line: &mut Vec<u8>, text: &str) -> Result<(), Memory>
    ensures { OnOk result (line.new.items ≡ line.old.items ++ text.now) }
{
    Ok(line.extend_from_slice(text.as_bytes())?)
}

/// How a kind of file is printed.
fn kind_text(kind: FileKind) -> &'static str
    ensures { result.now ≡ kind_text kind }
{
    match kind {
        FileKind::Aux => "aux",
        FileKind::Nodes => "nodes",
        FileKind::Nets => "nets",
        FileKind::Wts => "wts",
        FileKind::Pl => "pl",
        FileKind::Scl => "scl",
        FileKind::Schedule => "schedule",
    }
}
