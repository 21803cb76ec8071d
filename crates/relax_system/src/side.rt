//! From below or from above.

/// From which side a system is solved.
#[derive(Clone, Copy, Debug, PartialEq, Eq)]
pub enum Side {
    /// From the bottoms of the boxes upwards, with rounded-down means.
    Floor,
    /// From the tops of the boxes downwards, with rounded-up means.
    Ceil,
}
