//! What the words of a command line ask for.
//!
//! The words are those of one `clap` command, which `specs/Command.antt` writes out argument by argument:
//! `proud [--levels N] [--passes N] [--seats N] [--out FILE] [--schedule FILE] (DESIGN | --grid R,C,K)`. Its definitions say which words it takes and what
//! its matches are, and `IsRequest` says what these matches ask for. It stands above the crates whose numbers bound an
//! option, and below the program's one call.
#![tactic(auto)]

mod command;
mod fault;
mod request;

pub use fault::WordsFault;
pub use request::{
    Request, Source, USUAL_LEVELS, USUAL_PASSES, USUAL_SEATS, one_request, requested,
};
