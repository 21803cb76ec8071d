use book_files::{NetBlock, NodeLine, PlaceLine, RowBlock, WeightLine};

/// The records of the files that are joined.
#[derive(Clone, Copy)]
pub(crate) struct Sources<'s, 'a> {
    pub nodes: &'s [NodeLine<'a>],
    pub nets: &'s [NetBlock<'a>],
    pub weights: Option<&'s [WeightLine<'a>]>,
    pub places: &'s [PlaceLine<'a>],
    pub rows: &'s [RowBlock],
}
