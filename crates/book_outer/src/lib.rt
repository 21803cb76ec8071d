//! The outside of the placer: a folder of files, a sink for the report, and a gate that watches the crew.
//!
//! Everything above is written over the traits `Folder`, `Sink` and `Gate`, so that its contracts can say what is read and
//! written. The state of a folder is its files, where they are known, the file being read and the one being written, and five
//! counts that never fall. `MemFolder` and `MemSink` hold their bytes, count their calls, and fail at the calls of given
//! numbers; a slow `MemFolder` gives few bytes a read. `CalmFolder` and `CalmSink` hold theirs too, and fail only at an absent
//! name. `HostFolder` and `StdSink` are the trusted edge over the real folder and standard output, and nothing of their content
//! is known.
//!
//! It stands above the words and numbers of texts, and below the readers of files. The contract: an answer Failed raises a count
//! of faults by exactly one, and no other answer changes it.
#![tactic(auto)]

mod calm;
mod folder;
mod gate;
mod host;
mod lists;
mod memory;
mod sink;
mod store;
mod trouble;

pub use calm::{CalmFolder, CalmSink};
pub use folder::Folder;
pub use gate::{Gate, OpenGate};
pub use host::{HostFolder, StdSink};
pub use lists::{Calls, Files, Words};
pub use memory::{MemFolder, MemSink};
pub use sink::Sink;
pub use trouble::Trouble;
