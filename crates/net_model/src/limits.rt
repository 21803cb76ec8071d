/// What a net of weight 1 gives: its weight times this, shared by one less than its distinct nodes and rounded down, is the
/// weight of each pair of them. It is divided without a rest by each number up to 8.
pub const NET_WEIGHT: u64 = 840;

/// The most distinct nodes of a clique. A net of more, with a weight and a movable node, is a star.
pub const MOST_CLIQUE: usize = 16;

/// The most pair terms of the nets of a design: pairs of distinct nodes of a clique with a movable one among them and a share of at
/// least 1, and spokes of stars.
pub const MOST_TERMS: u64 = 16_777_216;

/// The most that the neighbours and the fixed pins of a point weigh together: 2^40.
pub const MOST_WEIGHT: u64 = 1_099_511_627_776;
