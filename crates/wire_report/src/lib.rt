//! The wire length of a placed design, and the report.
//!
//! It stands behind whatever places the nodes. What comes in is a joined design (`book_design`) with the corner at which each
//! node stands; what goes out is the half-perimeter wire length over all nets, and the text of the report.
//!
//! The contract: `hpwl` answers `wire_length`, `report_text` answers `report_of`, and `smallest_rectangle` says that a net's
//! length is the width plus the height of the smallest rectangle around its pins.
#![tactic(auto)]

mod corner;
mod extent;
mod laws;
mod lengths;
mod report;

pub use corner::Corner;
pub use laws::smallest_rectangle;
pub use lengths::hpwl;
pub use report::report_text;
