/// A subrow as a rectangle in millionths, but for its upper edge, which lies the height of a row above the lower one.
#[derive(Clone, Copy, Debug, PartialEq, Eq)]
pub(crate) struct Strip {
    pub row: u32,
    pub left: i64,
    pub right: i128,
    pub lower: i64,
    pub sites: u64,
}
