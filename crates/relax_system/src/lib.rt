//! Systems of rounded point equations: behind the search for chains and the network, before the tables that solve them.
//!
//! A system has points with boxes, neighbours with weights, and anchors. Its equations are those of a resistive network
//! with fixed pads (R.-S. Tsay, E. S. Kuh, C.-P. Hsu, PROUD, IEEE Design & Test of Computers, 1988), one single-point
//! equation of Gauss and Seidel for each point. Here they are rounded to whole numbers: down for the solution from below,
//! up for the one from above. Over-relaxation is left out; the relaxation is plain and may be chaotic (D. Chazan,
//! W. Miranker, Linear Algebra and its Applications, 1969), and no theorem here rests on that paper's condition.
//!
//! What comes in is a valid system; what goes out is its least and its greatest vector. The contract: `least_plain` meets
//! `IsLeast` and `greatest_plain` meets `IsGreatest`, extremal among all vectors of the boxes. The laws in `laws` say that
//! each is the one fixed point of its kind, and that every exact solution lies between them. `halved_down` and `halved_up` make
//! systems of shorter numbers, for a solve that begins with few digits; `halving` says how their vectors lie to each other.
#![tactic(auto)]

mod chains;
mod flat;
mod halved;
mod laws;
mod mean;
mod plain;
mod points;
mod side;
mod system;
mod valid;
mod values;

pub use halved::MOST_SHIFT;
pub use laws::{enclosure, greatest_vector, halving, least_vector, residuals_enclose};
pub use plain::{greatest_plain, least_plain};
pub use points::{Near, NearList, Point, Points};
pub use side::Side;
pub use system::System;
pub use valid::{MOST_COORDINATE, MOST_POINTS, MOST_WEIGHT, is_valid};
pub use values::Values;
