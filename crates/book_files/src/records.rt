use crate::name::Name;
use crate::nets::Pins;
use crate::orient::Orient;
use crate::rows::Subrows;
use book_text::Micro;

/// The files of a design, in the order in which they are read, and the schedule that may be read behind them.
#[derive(Clone, Copy, Debug, PartialEq, Eq)]
pub enum FileKind {
    Aux,
    Nodes,
    Nets,
    Wts,
    Pl,
    Scl,
    Schedule,
}

/// The names in an `.aux` file.
#[derive(Clone, Copy, Debug)]
pub struct AuxFile<'a> {
    pub nodes: &'a str,
    pub nets: &'a str,
    pub wts: Option<&'a str>,
    pub pl: &'a str,
    pub scl: &'a str,
}

/// A line of a `.nodes` file: a node and its size in millionths.
#[derive(Clone, Copy, Debug)]
pub struct NodeLine<'a> {
    pub line: u64,
    pub name: Name<'a>,
    pub width: Micro,
    pub height: Micro,
    /// Whether it is marked `terminal` or `terminal_NI`.
    pub fixed: bool,
    /// Whether it is marked `terminal_NI`.
    pub overlap: bool,
}

/// A line of a `.wts` file: the weight in millionths of the nets of a name.
#[derive(Clone, Copy, Debug)]
pub struct WeightLine<'a> {
    pub name: Name<'a>,
    pub weight: Micro,
}

/// A line of a `.pl` file: a node's lower left corner in millionths.
#[derive(Clone, Copy, Debug)]
pub struct PlaceLine<'a> {
    pub line: u64,
    pub name: Name<'a>,
    pub x: Micro,
    pub y: Micro,
    pub orient: Orient,
    /// Whether it is marked `/FIXED` or `/FIXED_NI`.
    pub fixed: bool,
    /// Whether it is marked `/FIXED_NI`.
    pub overlap: bool,
}

/// A pin's line in a `.nets` file: its node, and its offset in millionths from the node's centre.
#[derive(Clone, Copy, Debug)]
pub struct PinLine<'a> {
    pub line: u64,
    pub node: Name<'a>,
    pub dx: Micro,
    pub dy: Micro,
}

/// A net of a `.nets` file.
#[derive(Drop)]
pub struct NetBlock<'a> {
    pub name: Option<Name<'a>>,
    pub pins: Pins<'a>,
}

/// A subrow of a `.scl` file: where it begins, in millionths, and how many sites it has.
#[derive(Clone, Copy, Debug)]
pub struct SubrowLine {
    pub x: Micro,
    pub sites: u64,
}

/// A row of a `.scl` file: its lower edge, its height and its pitch in millionths.
#[derive(Drop)]
pub struct RowBlock {
    pub y: Micro,
    pub height: Micro,
    pub pitch: Micro,
    pub subrows: Subrows,
}
