//! What a certificate says.

/// What a certificate says.
#[derive(Clone, Copy, Debug, PartialEq, Eq)]
pub enum Verdict {
    /// Both vectors are fixed points.
    Encloses {
        /// The greatest distance of an upper entry above its lower one.
        gap: u64,
        /// The greatest residual of an equation, of either side.
        worst: u128,
    },
    /// An equation fails, the first one.
    Broken {
        /// The point of the equation.
        point: u32,
        /// The lower one where both of the point's equations fail.
        side: Side2,
    },
}

/// Which of a point's two equations.
#[derive(Clone, Copy, Debug, PartialEq, Eq)]
pub enum Side2 {
    /// The rounded-down one of the lower vector.
    Lower,
    /// The rounded-up one of the upper vector.
    Upper,
}
