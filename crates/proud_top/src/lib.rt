//! The top call: from the words of a command line and a folder of files to a placement.
//!
//! It is two lists of steps. What touches the outside is `run`: read the words, take the texts of the design's files or those
//! that a grid makes and the events of a schedule where one is named, place them, deliver the placement into the output file and then the report; a step that stops puts its line
//! instead. What is a function of values is `place`: join the texts to a design, make its network, find that each point reaches a
//! pad, cut the core and solve each level on each axis from below and from above by a crew of seats or by the schedule, find the free segments of
//! the rows, give each cell a place there by the greedy rule, take the corners of all nodes, write the placement, measure its
//! wires, and make the report. What comes in are words, a folder, a sink for the report and a gate; what goes out is a status.
//! The one contract is that of `proud`, over the same list of steps as a definition (`specs/Flow.antt`).
//!
//! The placer is modelled on PROUD (R.-S. Tsay, E. S. Kuh, C.-P. Hsu, IEEE Design & Test of Computers, 1988). It departs
//! from it in that the equations are solved in whole numbers, from both sides, without over-relaxation, and cells are put on rows
//! by a greedy rule, as in Tetris (D. Hill, US patent 6,370,673, 2002).
#![tactic(auto)]

mod alike;
mod cells;
mod corners;
mod deliver;
mod exit;
mod gather;
mod inputs;
mod laws;
mod place;
mod placement;
mod refusal;
mod schedule;
mod solver;
mod source;
mod status;
mod stop;
mod subject;
mod top;

pub use alike::one_placement;
pub use book_design::DesignFault;
pub use book_files::{FileKind, TextFault, TextKind};
pub use exit::exit_code;
pub use net_model::NetFault;
pub use status::{Refusal, Status};
pub use top::proud;
