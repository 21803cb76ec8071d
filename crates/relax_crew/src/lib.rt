//! A crew of seats at racing tables: the least and the greatest vector of a system by 1 to 64 threads.
//!
//! What comes in is a system with a point; what goes out is one seat that has seen the extremal vector, and how many words
//! were moved. The crew stands on the racing tables and before the top call. What the answered seat has seen is the same for
//! any number of seats and whatever the interleaving, since there is exactly one least and one greatest vector.
//!
//! It solves coarse numbers first: the system with each coordinate halved 20 times, then 19 times, and so on to the system itself,
//! each from twice what the one before has found.
//!
//! The contract: `least` meets `IsLeast` and `greatest` meets `IsGreatest`, each with as many seats as are asked for.
//!
//! In each solve the table and all seats are made first. After that nothing can be refused until the solve has ended, and nothing
//! waits but the end of the crew for its threads.
#![tactic(auto)]

mod ceil;
mod crew;
mod floor;
mod range;

pub use ceil::{CeilAnswer, greatest};
pub use floor::{FloorAnswer, least};
pub use range::MOST_SEATS;
