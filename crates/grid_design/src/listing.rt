//! The nodes in order, and their lines.

ghost use Rattle.std.specs.Prelude.{◌≡◌, ◌≤◌, ◌<◌, ◌*◌, ◌^◌, ◌++◌, map, flat_map, OnOk, IfOk};
ghost use Rattle.std.specs.List.{range_with_len};
ghost use Rattle.grid_design.specs.Asked.{IsSide};
ghost use Rattle.grid_design.specs.Parts.{cell_count, terminals_of, nodes_of};
ghost use Rattle.grid_design.specs.Texts.{node_line, place_line, x_of, y_of};

use crate::asked::Grid;
use crate::line::{Word, put_line};
use crate::parts::{CELL_WIDTH, COLUMN_SITES, Node, ROW_HEIGHT, Side};
use book_text::Memory;
use std::alloc::Global;

/// The nodes: the cells, and then the terminals side by side.
pub(crate) fn nodes_of(alloc: Global, grid: Grid) -> Result<Vec<Node>, Memory>
    requires rows { IsSide grid.rows }
    requires columns { IsSide grid.columns }
    ensures { IfOk result (λ nodes. nodes.items ≡ nodes_of grid) }
{
    let mut nodes = Vec::new(alloc);
    push_cells(&mut nodes, grid.rows * grid.columns)?;
    push_terminals(&mut nodes, Side::Left, grid.rows)?;
    push_terminals(&mut nodes, Side::Right, grid.rows)?;
    push_terminals(&mut nodes, Side::Bottom, grid.columns)?;
    push_terminals(&mut nodes, Side::Top, grid.columns)?;
    Ok(nodes)
}

/// Appends so many cells.
fn push_cells(nodes: &mut Vec<Node>, count: u32) -> Result<(), Memory>
    ensures { OnOk result (nodes.new.items ≡ nodes.old.items ++ map Node.Cell (range_with_len 0 count)) }
{
    for number in 0..count {
        nodes.push(Node::Cell(number))?;
    }
    Ok(())
}

/// Appends so many terminals of a side.
fn push_terminals(nodes: &mut Vec<Node>, side: Side, count: u32) -> Result<(), Memory>
    ensures { OnOk result (nodes.new.items ≡ nodes.old.items ++ terminals_of side count) }
{
    for number in 0..count {
        nodes.push(Node::Terminal(side, number))?;
    }
    Ok(())
}

/// Appends the line of a node in the file of nodes.
pub(crate) fn put_node(text: &mut Vec<u8>, node: Node) -> Result<(), Memory>
    ensures { OnOk result (text.new.items ≡ text.old.items ++ node_line node) }
{
    match node {
        Node::Cell(_) => put_line(
            text,
            &[
                Word::Node(node),
                Word::Number(u64::from(CELL_WIDTH)),
                Word::Number(u64::from(ROW_HEIGHT)),
            ],
        ),
        Node::Terminal(_, _) => put_line(
            text,
            &[
                Word::Node(node),
                Word::Text("0"),
                Word::Text("0"),
                Word::Text("terminal"),
            ],
        ),
    }
}

/// Appends the line of a node in the file of places.
pub(crate) fn put_place(text: &mut Vec<u8>, grid: Grid, node: Node) -> Result<(), Memory>
    requires rows { IsSide grid.rows }
    requires columns { IsSide grid.columns }
    ensures { OnOk result (text.new.items ≡ text.old.items ++ place_line grid node) }
{
    match node {
        Node::Cell(_) => put_line(
            text,
            &[
                Word::Node(node),
                Word::Text("0"),
                Word::Text("0"),
                Word::Text(":"),
                Word::Text("N"),
            ],
        ),
        Node::Terminal(side, number) => put_line(
            text,
            &[
                Word::Node(node),
                Word::Number(x_of(grid, side, u64::from(number))),
                Word::Number(y_of(grid, side, u64::from(number))),
                Word::Text(":"),
                Word::Text("N"),
                Word::Text("/FIXED"),
            ],
        ),
    }
}

/// The x of the terminal of this number on a side.
fn x_of(grid: Grid, side: Side, number: u64) -> u64
    requires columns { IsSide grid.columns }
    requires few { number < 2 ^ 32 }
    ensures { result ≡ x_of grid side number }
{
    let sites = u64::from(COLUMN_SITES);
    match side {
        Side::Left => 0,
        Side::Right => sites * u64::from(grid.columns),
        Side::Bottom | Side::Top => sites * number + sites / 2,
    }
}

/// The y of the terminal of this number on a side.
fn y_of(grid: Grid, side: Side, number: u64) -> u64
    requires rows { IsSide grid.rows }
    requires few { number < 2 ^ 32 }
    ensures { result ≡ y_of grid side number }
{
    let height = u64::from(ROW_HEIGHT);
    match side {
        Side::Left | Side::Right => height * number + height / 2,
        Side::Bottom => 0,
        Side::Top => height * u64::from(grid.rows),
    }
}
