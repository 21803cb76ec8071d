//! Racing tables: one shared word per point of a system, on which any number of threads relax at once.
//!
//! A table stands over a valid system. A floor table's words rise from a start towards the least vector, a ceil table's
//! words fall towards the greatest. A thread steps with a seat of its own: it loads words, and renews a word by one
//! `fetch_max` (or `fetch_min`) of the rounded mean of what it has seen. What it has seen may be long outdated. Whatever
//! the interleaving, a seat that is quiet by its own values has seen the least (or greatest) vector.
//!
//! Behind the words of the points stand mark words, with a bit for each point. A chase takes marked points in place of sweeping
//! over all, and marks the neighbours of each point that it moved.
//!
//! A call waits for no other thread, and only `new` and `split` can be refused, for memory. Each call with a seat has the
//! condition that the seat is of this table, each call with a point that the point is there.
#![tactic(auto)]

mod ceil;
mod chase;
mod direction;
mod floor;
mod laws;
mod marks;
mod relax;
mod rule;
mod seat;
mod settle;
mod steps;
mod table;

pub use ceil::{CeilSeat, CeilTable, Lowered};
pub use chase::MOST_PASSES;
pub use direction::{Direction, Down, Up};
pub use floor::{FloorSeat, FloorTable, Raised};
pub use laws::{ends_may_start, moves_are_few, quiet_is_extremal};
pub use marks::MARKS;
pub use relax::Relaxed;
pub use seat::{Renewal, SideSeat};
pub use steps::Steps;
pub use table::SideTable;
