//! The five texts.

ghost use Rattle.std.specs.Prelude.{◌≡◌, ◌<◌, ◌+◌, ◌*◌, ◌++◌, length, flat_map, codes, OnOk, IfOk};
ghost use Rattle.std.specs.List.{range_with_len};
ghost use Rattle.grid_design.specs.Asked.{IsSide};
ghost use Rattle.grid_design.specs.Parts.{nodes_of};
ghost use Rattle.grid_design.specs.Texts.{AreTextsOf, header, stated, node_line, nodes_text, net_lines_from, weight_line, place_line, subrow_line, row_lines, scl_text};

use crate::asked::Grid;
use crate::line::{Word, put_line};
use crate::listing::{nodes_of, put_node, put_place};
use crate::parts::{COLUMN_SITES, Net, Node, ROW_HEIGHT};
use crate::weights::{next_state, weight_by};
use crate::wiring::{nets_of, put_net};
use book_text::Memory;
use std::alloc::Global;

/// The texts of a design, byte for byte what its files hold.
#[derive(Drop)]
pub struct Texts {
    /// The cells and the terminals.
    pub nodes: Vec<u8>,
    /// The nets and their pins.
    pub nets: Vec<u8>,
    /// The weights of the nets.
    pub wts: Vec<u8>,
    /// Where the nodes stand.
    pub pl: Vec<u8>,
    /// The rows.
    pub scl: Vec<u8>,
}

/// The texts of the design of a grid, or `Memory` for want of it.
pub fn grid_texts(alloc: Global, rows: u32, columns: u32, number: u64) -> Result<Texts, Memory>
    requires rows { IsSide rows }
    requires columns { IsSide columns }
    ensures { IfOk result (λ texts. AreTextsOf (record { rows = rows; columns = columns; number = number }) texts) }
{
    let grid = Grid {
        rows,
        columns,
        number,
    };
    let nodes = nodes_of(alloc, grid)?;
    let nets = nets_of(alloc, grid)?;
    Ok(Texts {
        nodes: nodes_text(alloc, grid, &nodes)?,
        nets: nets_text(alloc, &nets)?,
        wts: wts_text(alloc, number, nets.len())?,
        pl: pl_text(alloc, grid, &nodes)?,
        scl: scl_text(alloc, grid)?,
    })
}

/// The text of the nodes.
fn nodes_text(alloc: Global, grid: Grid, nodes: &[Node]) -> Result<Vec<u8>, Memory>
    requires rows { IsSide grid.rows }
    requires columns { IsSide grid.columns }
    requires nodes { nodes.now ≡ nodes_of grid }
    ensures { IfOk result (λ text. text.items ≡ nodes_text grid) }
{
    let cells = u64::from(grid.rows * grid.columns);
    let terminals = u64::from(2 * grid.rows + 2 * grid.columns);
    let mut text = Vec::new(alloc);
    put_header(&mut text, "nodes")?;
    put_stated(&mut text, "NumNodes", cells + terminals)?;
    put_stated(&mut text, "NumTerminals", terminals)?;
    for node in nodes {
        put_node(&mut text, *node)?;
    }
    Ok(text)
}

/// The text of the nets.
fn nets_text(alloc: Global, nets: &[Net]) -> Result<Vec<u8>, Memory>
    ensures { IfOk result (λ text. text.items ≡ header (codes "nets") ++ stated (codes "NumNets") (length nets.now) ++ stated (codes "NumPins") (2 * length nets.now) ++ net_lines_from 0 nets.now) }
{
    let count = nets.len() as u64;
    let mut text = Vec::new(alloc);
    put_header(&mut text, "nets")?;
    put_stated(&mut text, "NumNets", count)?;
    put_stated(&mut text, "NumPins", 2 * count)?;
    for (number, net) in nets.iter().enumerate() {
        put_net(&mut text, number as u64, *net)?;
    }
    Ok(text)
}

/// The text of the weights of so many nets.
fn wts_text(alloc: Global, number: u64, count: usize) -> Result<Vec<u8>, Memory>
    ensures { IfOk result (λ text. text.items ≡ header (codes "wts") ++ flat_map (weight_line number) (range_with_len 0 count)) }
{
    let mut text = Vec::new(alloc);
    put_header(&mut text, "wts")?;
    let mut state = number;
    for net in 0..count {
        state = next_state(state);
        put_line(
            &mut text,
            &[Word::Net(net as u64), Word::Number(weight_by(state))],
        )?;
    }
    Ok(text)
}

/// The text of the places.
fn pl_text(alloc: Global, grid: Grid, nodes: &[Node]) -> Result<Vec<u8>, Memory>
    requires rows { IsSide grid.rows }
    requires columns { IsSide grid.columns }
    ensures { IfOk result (λ text. text.items ≡ header (codes "pl") ++ flat_map (place_line grid) nodes.now) }
{
    let mut text = Vec::new(alloc);
    put_header(&mut text, "pl")?;
    for node in nodes {
        put_place(&mut text, grid, *node)?;
    }
    Ok(text)
}

/// The text of the rows.
fn scl_text(alloc: Global, grid: Grid) -> Result<Vec<u8>, Memory>
    requires rows { IsSide grid.rows }
    requires columns { IsSide grid.columns }
    ensures { IfOk result (λ text. text.items ≡ scl_text grid) }
{
    let mut text = Vec::new(alloc);
    put_header(&mut text, "scl")?;
    put_stated(&mut text, "NumRows", u64::from(grid.rows))?;
    for row in 0..grid.rows {
        put_row(&mut text, grid, row)?;
    }
    Ok(text)
}

/// Appends the block of a row.
fn put_row(text: &mut Vec<u8>, grid: Grid, row: u32) -> Result<(), Memory>
    requires columns { IsSide grid.columns }
    ensures { OnOk result (text.new.items ≡ text.old.items ++ row_lines grid row) }
{
    let height = u64::from(ROW_HEIGHT);
    let sites = u64::from(COLUMN_SITES) * u64::from(grid.columns);
    put_line(text, &[Word::Text("CoreRow"), Word::Text("Horizontal")])?;
    put_stated(text, "Coordinate", height * u64::from(row))?;
    put_stated(text, "Height", height)?;
    put_stated(text, "Sitewidth", 1)?;
    put_stated(text, "Sitespacing", 1)?;
    put_subrow(text, sites)?;
    put_line(text, &[Word::Text("End")])
}

/// Appends the line of so many sites from x 0 on.
fn put_subrow(text: &mut Vec<u8>, sites: u64) -> Result<(), Memory>
    ensures { OnOk result (text.new.items ≡ text.old.items ++ subrow_line sites) }
{
    put_line(
        text,
        &[
            Word::Text("SubrowOrigin"),
            Word::Text(":"),
            Word::Text("0"),
            Word::Text("NumSites"),
            Word::Text(":"),
            Word::Number(sites),
        ],
    )
}

/// Appends the header of a file of this kind.
fn put_header(text: &mut Vec<u8>, kind: &str) -> Result<(), Memory>
    ensures { OnOk result (text.new.items ≡ text.old.items ++ header kind.now) }
{
    put_line(
        text,
        &[Word::Text("UCLA"), Word::Text(kind), Word::Text("1.0")],
    )
}

/// Appends a line that states a number.
fn put_stated(text: &mut Vec<u8>, key: &str, value: u64) -> Result<(), Memory>
    ensures { OnOk result (text.new.items ≡ text.old.items ++ stated key.now value) }
{
    put_line(
        text,
        &[Word::Text(key), Word::Text(":"), Word::Number(value)],
    )
}
