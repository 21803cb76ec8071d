//! The texts of a generated design: cells in rows and columns, a terminal at each end of each row and column, and nets
//! between neighbours, with weights that a number gives.
//!
//! What comes in is a word that asks for a grid, and then the grid; what goes out are the five texts of its design, byte for
//! byte. It knows no files and no rules of a design.
//!
//! The contract: `read_grid` answers by `IsGridWord`, which names one grid at most (`one_grid`), and `grid_texts` makes the
//! texts of `AreTextsOf`.
#![tactic(auto)]

mod asked;
mod design;
mod line;
mod listing;
mod parts;
mod weights;
mod wiring;

pub use asked::{Grid, MOST_SIDE, one_grid, read_grid};
pub use design::{Texts, grid_texts};
pub use parts::{CELL_WIDTH, COLUMN_SITES, ROW_HEIGHT};
pub use weights::{INCREMENT, MULTIPLIER, SPREAD, WEIGHTS};
