//! The free segments of a design's rows: which sites are left beside the fixed nodes.
//!
//! It stands behind the joined design (`book_design`) and before the cells are given their sites. What comes in is a design;
//! what goes out are its segments, the runs of sites of a subrow that no fixed node takes. A fixed node that allows overlap takes none.
//!
//! The contract: `segments` answers `segments_of`, and `clear_segments` says that nothing stands in their way.
#![tactic(auto)]

mod laws;
mod list;
mod marks;
mod parts;
mod runs;
mod tiers;

pub use laws::clear_segments;
pub use list::Segments;
pub use parts::Segment;
pub use runs::segments;
