//! What a grid's design is made of.

/// How many sites a cell has.
pub const CELL_WIDTH: u32 = 2;

/// How high a cell and a row are.
pub const ROW_HEIGHT: u32 = 10;

/// How many sites of each row a column takes.
pub const COLUMN_SITES: u32 = 4;

/// An end of rows or of columns.
#[derive(Clone, Copy)]
pub(crate) enum Side {
    Left,
    Right,
    Bottom,
    Top,
}

/// A cell by its number, or the terminal of a row or a column by its number.
#[derive(Clone, Copy)]
pub(crate) enum Node {
    Cell(u32),
    Terminal(Side, u32),
}

/// The two nodes that a net joins.
#[derive(Clone, Copy)]
pub(crate) struct Net {
    pub(crate) first: Node,
    pub(crate) second: Node,
}
