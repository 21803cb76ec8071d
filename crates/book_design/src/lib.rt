//! Joins the records of a design's files: names looked up, rows laid out, limits tested.
//!
//! It stands behind the readers of the files (`book_files`) and before the network. What comes in are the records of the
//! `.nodes`, `.nets`, `.pl` and `.scl` files, and of the `.wts` file where there is one; what goes out is one `Design`, in
//! which pins name their nodes by number, or the first fault that the records have together: its kind by their order, at
//! its first place.
//!
//! The one contract: `join_design` meets `Answers`: an `Ok` is the design that the records make, which have no fault; a
//! fault is exactly the first one.
#![tactic(auto)]

mod assembly;
mod counts;
mod design;
mod fault;
mod join;
mod laws;
mod limits;
mod nets;
mod nodes;
mod numbers;
mod overlap;
mod parts;
mod pins;
mod rows;
mod rules;
mod sources;
mod strips;

pub use design::Design;
pub use fault::{DesignFault, JoinError};
pub use join::join_design;
pub use laws::one_join;
pub use nodes::joined_nodes;
pub use parts::{Core, Net, Node, Pin, Subrow};
pub use pins::PinList;
pub use rules::{MOST_NET_WEIGHT, MOST_NODES, MOST_PINS, MOST_SITES, MOST_SUBROWS, ROWS_END};
