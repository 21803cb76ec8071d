//! The network of a design: a resistive network in which each net is a clique or a star, with fixed pins.
//!
//! It stands on the joined design, and below the system that is made of it. Placement as a resistive network with fixed pads is
//! that of PROUD (R.-S. Tsay, E. S. Kuh, C.-P. Hsu, IEEE Design & Test of Computers, 1988); that a net of up
//! to 16 nodes is a clique and a wider one with a weight and a movable node a star with a point of its own, and the weights, are
//! this project's own: 840 times the
//! net's weight, shared by one less than its nodes, rounded down, and for a spoke times its nodes before that. (A star of k spokes
//! is to its nodes what a clique of a k-th of the weight is: the star-mesh transform.) What comes in is a design; what goes out is
//! its network, or the first of two faults. The contract: `network` meets `Answers`.
#![tactic(auto)]

mod clique;
mod counting;
mod fault;
mod joining;
mod laws;
mod limits;
mod making;
mod merging;
mod model;
mod parts;
mod point;
mod starring;
mod web;

pub use fault::{NetError, NetFault};
pub use laws::{one_network, terms_are_pairs, unanchored_is_movable};
pub use limits::{MOST_CLIQUE, MOST_TERMS, MOST_WEIGHT, NET_WEIGHT};
pub use making::{network, star_net};
pub use model::Network;
pub use parts::{FixedPin, Near};
