//! The numbers of the rule.

/// At most so many cells.
pub const MOST_CELLS: u64 = 1_048_576;

/// A cell takes at most so many sites.
pub const MOST_CELL_SITES: u64 = 1_000_000_000_000;

/// A wish lies at most so far from 0 on each axis, in Bookshelf millionths.
pub const MOST_WISH: i64 = 2_000_000_000_000;
