//! A machine of explicit events, and schedules replayed on a racing table, for whoever studies chaotic relaxation.
//!
//! A schedule is a list of events: a seat loads the word of a point, or renews a point by the mean of what it has seen, however
//! outdated that is. What comes in is a system, a side, a number of seats and events; what goes out is the machine after each of
//! them (`World`), or what settling leads to behind all of them (`play`). It stands on the racing tables, whose steps these are, and
//! on the files that schedules are read from.
//!
//! The relaxation is that of D. Chazan and W. Miranker, "Chaotic relaxation", Linear Algebra and its Applications, 1969. It departs
//! from it in that coordinates are whole numbers and means are rounded to the side, that a word only ever goes on in its direction,
//! and that no schedule need be fair: what no event renews, the settling does.
//!
//! The contract: after any events the machine is sound (`IsSoundWorld`), and behind any events `play` answers the extremal vector
//! (`IsExtremal`).
#![tactic(auto)]

mod laws;
mod replay;
mod sight;
mod world;

pub use book_files::{Event, Events, read_schedule};
pub use laws::{schedules_are_sound, steps_are_of_tables};
pub use relax_system::Side;
pub use replay::{Played, play};
pub use world::{MOST_WORLD_SEATS, World};
