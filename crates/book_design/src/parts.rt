use crate::pins::PinList;
use book_files::{Name, Orient};

/// A node: its size, and its lower left corner, in millionths.
#[derive(Clone, Copy, Debug)]
pub struct Node<'a> {
    pub name: Name<'a>,
    pub width: i64,
    pub height: i64,
    /// Where its last line in the placement file puts it, and 0 without a line.
    pub x: i64,
    pub y: i64,
    pub orient: Orient,
    /// Whether it is a terminal, or marked as fixed by that line.
    pub fixed: bool,
    /// Whether it is fixed, and cells may stand over it: its line marks it so (`terminal_NI`), or that line does (`/FIXED_NI`).
    pub overlap: bool,
}

/// A pin: the number of its node, and its offset in millionths from the node's centre.
#[derive(Clone, Copy, Debug, PartialEq, Eq)]
pub struct Pin {
    pub node: u32,
    pub dx: i64,
    pub dy: i64,
}

/// A net: its weight, from 0 to 65,535, and its pins in order.
#[derive(Drop)]
pub struct Net {
    pub weight: u32,
    pub pins: PinList,
}

/// A subrow: the number of its row, its lower left corner in millionths, and how many sites it has.
#[derive(Clone, Copy, Debug, PartialEq, Eq)]
pub struct Subrow {
    pub row: u32,
    pub x: i64,
    pub y: i64,
    pub sites: u32,
}

/// The smallest rectangle around all subrows that have a site, in millionths.
#[derive(Clone, Copy, Debug, PartialEq, Eq)]
pub struct Core {
    pub xlo: i64,
    pub xhi: i64,
    pub ylo: i64,
    pub yhi: i64,
}
