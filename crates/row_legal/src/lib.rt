//! Legalization: between the solved levels and the placement file, cells go to sites of the rows.
//!
//! What comes in are the segments of the rows, and for each cell how many sites it takes and where it wishes its lower left
//! corner; what goes out is for each cell a segment and the first of its sites there, or the first cell for which no segment
//! has the room. The cells are taken by their sites, the most first, and each goes to the segment of least cost with room
//! for it; those of a segment stand side by side in the order of their wished x. PROUD puts cells on sites otherwise: this is
//! a greedy rule by rows, as in Tetris (D. Hill, US patent 6,370,673, 2002). It knows no design and no nets.
//!
//! The contract: `legalise` answers `IsLegalised`, or refuses with `HasNoRoom`, and `one_answer` says that there is one such
//! answer.
#![tactic(auto)]

mod cost;
mod fault;
mod found;
mod greedy;
mod handing;
mod lanes;
mod laws;
mod legal;
mod line;
mod parts;
mod picking;
mod placing;
mod rules;
mod sites;
mod turns;

pub use fault::LegalError;
pub use laws::{one_answer, places_apart, places_legal};
pub use legal::legalise;
pub use parts::{Place, Wish};
pub use rules::{MOST_CELL_SITES, MOST_CELLS, MOST_WISH};
pub use sites::Sites;
