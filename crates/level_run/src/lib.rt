//! The rounds of a placement: from a network to regions with their points, each round solved on both axes.
//!
//! The first level has one region, the core. Each further level cuts the regions of the one before by area. Each level is solved in
//! as many rounds as there are passes, and the systems of a round are those of its regions' points: neighbours in other regions
//! stand still at the mids of the round before, clamped into the region. The points are those of the network: its movable nodes, and behind them the star points of its wide nets, which take
//! no sites. What comes in is a network from each point of which a chain leads to a pad; what goes out is its rounds, or `Memory`.
//!
//! The contract: `levels`, which a crew solves, and `levels_by`, which plays a schedule, answer `IsLevels`, and the law `levels_are_one` says that there is exactly one such list.
#![tactic(auto)]

mod hierarchy;
mod laws;
mod level;
mod projection;
mod rounds;
mod solving;
mod spread;

pub use area_cut::Axis;
pub use hierarchy::{Options, levels, levels_by};
pub use laws::{chains_stay, first_uses_no_mids, gap_is_one, levels_are_one, levels_enclose};
pub use level::{Level, Levels, Solve};
pub use projection::project;
pub use rounds::{MOST_LEVELS, MOST_PASSES, MOST_ROUNDS, Rounds};
pub use spread::gap;
