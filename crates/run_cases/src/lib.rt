//! Designs in memory, and runs of the top call on them, for the crates that test it.
//!
//! A run that isn't as it is to be is an error, which tests end with. So nothing here may end the process, and what several crates
//! of tests need stands once, and is proved once.
#![tactic(auto)]

mod designs;
mod folders;
mod lines;
mod runs;

pub use designs::{
    MIDDLE, MIDDLE_REPORT, NO_CELL, ONE_CELL, SPELT_ANEW, THREE_PADS, TWO_CELLS, TWO_ROWS, Texts,
    USUAL, WEIGHTED,
};
pub use folders::{A, OUTPUT, are_kept, calls_of, files_of, folder_of, sink_of, words_of};
pub use lines::{changed, lines_of, with_lines};
pub use runs::{
    Case, DONE, End, Run, Unmet, check_all, check_runs, end_of, end_on, placed, stopped,
};
