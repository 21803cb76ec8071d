//! The cut of regions by area: between the solves of one level and the systems of the next.
//!
//! A region is a rectangle with points of its own. `whole` makes one region with all points; `cut` puts in each region's
//! place its two parts, of about the same area, on its longer side; `copy_of` keeps them. It knows coordinates and areas alone: no network, no
//! equations. Coordinates are numbers of any unit from 0 on.
//!
//! The contract: `cut` answers `cut_of`, and `parts_share` says that its parts may be cut again.
#![tactic(auto)]

mod axis;
mod cutting;
mod laws;
mod order;
mod region;

pub use axis::Axis;
pub use cutting::{copy_of, cut, whole};
pub use laws::{front_is_first, parts_balance, parts_lie_inside, parts_share, points_have_homes};
pub use region::{PointList, Region, Regions};
