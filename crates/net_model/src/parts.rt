/// A neighbour of a point, and the weight of the pair.
#[derive(Clone, Copy, Debug, PartialEq, Eq)]
pub struct Near {
    pub point: u32,
    pub weight: u64,
}

/// A fixed pin that a net joins to a point: the weight, and where it stands, in millionths.
#[derive(Clone, Copy, Debug, PartialEq, Eq)]
pub struct FixedPin {
    pub weight: u64,
    pub x: i64,
    pub y: i64,
}
