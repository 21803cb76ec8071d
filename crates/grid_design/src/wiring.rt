//! The nets in order, and their lines.

ghost use Rattle.std.specs.Prelude.{◌≡◌, ◌≤◌, ◌<◌, ◌+◌, ◌-◌, ◌*◌, ◌++◌, map, flat_map, OnOk, IfOk};
ghost use Rattle.std.specs.List.{range_with_len};
ghost use Rattle.grid_design.specs.Asked.{IsSide};
ghost use Rattle.grid_design.specs.Parts.{cell_at, cell_beside, nets_along, nets_across, nets_beside, nets_of};
ghost use Rattle.grid_design.specs.Texts.{pin_line, net_lines};

use crate::asked::{Grid, MOST_SIDE};
use crate::line::{Word, put_line};
use crate::parts::{Net, Node, Side};
use book_text::Memory;
use std::alloc::Global;

/// The nets: along the rows, across them, and then those of the terminals side by side.
pub(crate) fn nets_of(alloc: Global, grid: Grid) -> Result<Vec<Net>, Memory>
    requires rows { IsSide grid.rows }
    requires columns { IsSide grid.columns }
    ensures { IfOk result (λ nets. nets.items ≡ nets_of grid) }
{
    let mut nets = Vec::new(alloc);
    for row in 0..grid.rows {
        push_along(&mut nets, grid, row)?;
    }
    for row in 0..grid.rows - 1 {
        push_across(&mut nets, grid, row)?;
    }
    push_beside(&mut nets, grid, Side::Left, grid.rows)?;
    push_beside(&mut nets, grid, Side::Right, grid.rows)?;
    push_beside(&mut nets, grid, Side::Bottom, grid.columns)?;
    push_beside(&mut nets, grid, Side::Top, grid.columns)?;
    Ok(nets)
}

/// Appends the nets of a row.
fn push_along(nets: &mut Vec<Net>, grid: Grid, row: u32) -> Result<(), Memory>
    requires columns { IsSide grid.columns }
    requires row { row < MOST_SIDE }
    ensures { OnOk result (nets.new.items ≡ nets.old.items ++ nets_along grid row) }
{
    for column in 0..grid.columns - 1 {
        nets.push(Net {
            first: cell_at(grid, row, column),
            second: cell_at(grid, row, column + 1),
        })?;
    }
    Ok(())
}

/// Appends the nets between a row and the next.
fn push_across(nets: &mut Vec<Net>, grid: Grid, row: u32) -> Result<(), Memory>
    requires columns { IsSide grid.columns }
    requires row { row < MOST_SIDE }
    ensures { OnOk result (nets.new.items ≡ nets.old.items ++ nets_across grid row) }
{
    for column in 0..grid.columns {
        nets.push(Net {
            first: cell_at(grid, row, column),
            second: cell_at(grid, row + 1, column),
        })?;
    }
    Ok(())
}

/// Appends the nets of the first terminals of a side.
fn push_beside(nets: &mut Vec<Net>, grid: Grid, side: Side, count: u32) -> Result<(), Memory>
    requires rows { IsSide grid.rows }
    requires columns { IsSide grid.columns }
    requires few { count ≤ MOST_SIDE }
    ensures { OnOk result (nets.new.items ≡ nets.old.items ++ nets_beside grid side count) }
{
    for number in 0..count {
        nets.push(Net {
            first: Node::Terminal(side, number),
            second: cell_beside(grid, side, number),
        })?;
    }
    Ok(())
}

/// The cell beside the terminal of this number on a side.
fn cell_beside(grid: Grid, side: Side, number: u32) -> Node
    requires rows { IsSide grid.rows }
    requires columns { IsSide grid.columns }
    requires few { number < MOST_SIDE }
    ensures { result ≡ cell_beside grid side number }
{
    match side {
        Side::Left => cell_at(grid, number, 0),
        Side::Right => cell_at(grid, number, grid.columns - 1),
        Side::Bottom => cell_at(grid, 0, number),
        Side::Top => cell_at(grid, grid.rows - 1, number),
    }
}

/// The cell in a row and a column.
fn cell_at(grid: Grid, row: u32, column: u32) -> Node
    requires columns { IsSide grid.columns }
    requires row { row ≤ MOST_SIDE }
    requires column { column ≤ MOST_SIDE }
    ensures { result ≡ cell_at grid row column }
{
    Node::Cell(row * grid.columns + column)
}

/// Appends the lines of a net of this number.
pub(crate) fn put_net(text: &mut Vec<u8>, number: u64, net: Net) -> Result<(), Memory>
    ensures { OnOk result (text.new.items ≡ text.old.items ++ net_lines number net) }
{
    let degree = [
        Word::Text("NetDegree"),
        Word::Text(":"),
        Word::Text("2"),
        Word::Net(number),
    ];
    put_line(text, &degree)?;
    put_pin(text, net.first)?;
    put_pin(text, net.second)
}

/// Appends the line of a pin.
fn put_pin(text: &mut Vec<u8>, node: Node) -> Result<(), Memory>
    ensures { OnOk result (text.new.items ≡ text.old.items ++ pin_line node) }
{
    put_line(text, &[Word::Node(node), Word::Text("B")])
}
