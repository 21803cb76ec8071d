use crate::parts::{FixedPin, Near};

/// A point: its neighbours, in ascending order once the network is made, its fixed pins in the order
/// of nets and of first pins, and its sites.
#[derive(Drop)]
pub(crate) struct NetPoint {
    pub near: Vec<Near>,
    pub pins: Vec<FixedPin>,
    pub area: u64,
}
