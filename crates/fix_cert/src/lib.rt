//! Certificates: whether two given vectors are fixed points of a system's rounded equations.
//!
//! It stands beside the solvers and trusts none of them. What comes in is a system and two vectors, from wherever they
//! come; what goes out is a verdict, by one pass over the equations in as many threads as there are processors. A
//! certificate doesn't show that a vector is the least fixed point or the greatest; it shows that the two enclose every
//! exact solution.
//!
//! The contract: `check` meets `IsVerdict`, and `IsEnclosure` where each point has a chain to an anchored one.
#![tactic(auto)]

mod certificate;
mod reading;
mod verdict;

pub use certificate::check;
pub use verdict::{Side2, Verdict};
