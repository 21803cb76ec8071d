//! The subrows that have sites, in the order of y, then from left to right.

ghost use Rattle.std.specs.Prelude.{◌≡◌, IfOk};
ghost use Rattle.row_space.specs.Forms.Tiers.{AreTiers};

use book_design::Design;
use std::alloc::{AllocError, Global};

/// A subrow that has a site, by its number, behind its y and its ends. Tiers are in the order of y, then of left ends: those
/// of one y stand apart, so their right ends ascend, too.
#[derive(Clone, Copy, Debug, PartialEq, Eq, PartialOrd, Ord)]
pub(crate) struct Tier {
    pub y: i64,
    pub left: i64,
    pub right: i64,
    pub subrow: usize,
}

/// The tiers of all subrows that have a site, in order.
pub(crate) fn tiers(alloc: Global, design: &Design<'_>) -> Result<Vec<Tier>, AllocError>
    ensures { IfOk result (λ tiers. AreTiers design.now tiers.items) }
{
    let mut tiers = Vec::with_capacity(alloc, design.subrows().len())?;
    for (number, subrow) in design.subrows().iter().enumerate() {
        if subrow.sites > 0 {
            tiers.push(Tier {
                y: subrow.y,
                left: subrow.x,
                right: subrow.x + subrow.sites as i64 * design.pitch(),
                subrow: number,
            })?;
        }
    }
    tiers.sort_unstable();
    Ok(tiers)
}
