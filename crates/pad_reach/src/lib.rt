//! Which points lead to a pad: behind the network and before the equations.
//!
//! A web is a list of points with neighbours, some of which are anchored. What comes in is a web; what goes out is a step
//! for each point, to a neighbour whose distance is one less, that leads to an anchored point, or exactly the first point
//! from which no chain of neighbours leads to one. The equations of a placement have one exact solution at most where each
//! point has such a chain.
//!
//! The search goes breadth-first from the anchored points over the entries reversed, which are sorted once by counting.
//!
//! The contract: `reach` meets `Reaches`, and its refusal is `IsFirstUnanchored`. The law `reach_leads` makes chains of steps.
#![tactic(auto)]

mod in_neighbours;
mod laws;
mod search;
mod steps;
mod web;

pub use laws::reach_leads;
pub use search::{ReachError, reach};
pub use steps::Reach;
pub use web::{MOST_POINTS, Web};
