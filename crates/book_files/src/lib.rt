//! The Bookshelf files, and schedules: whole texts to records, or exactly their first fault.
//!
//! It stands on the lines, words and numbers of texts, and below the joined design. What comes in
//! is a file's bytes; what goes out are its records, which keep slices of the bytes, or the first
//! fault with its line and its kind. Each reader goes over the bytes once.
//!
//! The contract: each reader meets `Answers` for its kind of file. The rules of a kind are
//! relations: what a line is behind the lines before it, which fault is named at it, what all lines
//! make, and which fault is named at the end. `one_answer` says that each text has exactly one
//! answer by them.
#![tactic(auto)]

mod aux;
mod fault;
mod laws;
mod loading;
mod name;
mod nets;
mod nodes;
mod orient;
mod places;
mod records;
mod row_block;
mod row_lines;
mod rows;
mod schedule;
mod text;
mod walk;
mod weights;
mod words;

pub use aux::read_aux;
pub use fault::{ReadError, TextFault, TextKind};
pub use laws::one_answer;
pub use loading::{LoadError, MOST_BYTES, load};
pub use name::Name;
pub use nets::{NetFile, Pins, read_nets};
pub use nodes::{NodeFile, read_nodes};
pub use orient::Orient;
pub use places::{PlaceFile, read_pl};
pub use records::{
    AuxFile, FileKind, NetBlock, NodeLine, PinLine, PlaceLine, RowBlock, SubrowLine, WeightLine,
};
pub use rows::{RowFile, Subrows, read_scl};
pub use schedule::{Event, Events, MOST_NUMBER, read_schedule};
pub use text::{placement_reads_back, write_pl};
pub use weights::{WeightFile, read_wts};
