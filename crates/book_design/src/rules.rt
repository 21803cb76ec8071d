//! The limits of a design.

/// The most nodes of a design.
pub const MOST_NODES: u64 = 1_048_576;

/// The most pins that all nets of a design have together.
pub const MOST_PINS: u64 = 16_777_216;

/// The most subrows that all rows of a design have together.
pub const MOST_SUBROWS: u64 = 65_536;

/// The most sites of a subrow.
pub const MOST_SITES: u64 = 16_777_216;

/// The greatest weight of a net. A weight is a whole number from 0 on.
pub const MOST_NET_WEIGHT: u64 = 65_535;

/// Where rows end at the latest: no row's upper edge and no subrow's right end lies past this coordinate, in millionths.
pub const ROWS_END: i64 = 1_000_000_000_000;
