//! The direction of a table as a type, so that each of the two has code of its own.

ghost use Rattle.std.specs.Prelude.{◌≡◌};
ghost use Rattle.relax_system.specs.declared.side.Side.{Side};
ghost use Rattle.relax_system.specs.declared.side.Side.TheVariants.{Floor, Ceil};
ghost use Rattle.relax_system.specs.Sides.{mean_of, further_of};
ghost use Rattle.relax_system.specs.Means.{InBoxes};
ghost use Rattle.std.specs.Prelude.{◌<◌, length};
ghost use Rattle.relax_table.specs.Ways.{is_past, one_if};

use relax_system::{Side, System};

/// Where the words of a table go.
pub trait Direction: Send + Sync {
    ghost side: { Side };

    fn side() -> Side
        ensures { result ≡ side };
}

/// Upwards, with rounded-down means.
pub struct Up;

/// Downwards, with rounded-up means.
pub struct Down;

impl Direction for Up {
    ghost side = { Floor };

    #[inline(always)]
    fn side() -> Side {
        Side::Floor
    }
}

impl Direction for Down {
    ghost side = { Ceil };

    #[inline(always)]
    fn side() -> Side {
        Side::Ceil
    }
}

/// Of two coordinates the one that stands further on the way.
#[inline(always)]
pub(crate) fn further(side: Side, a: u64, b: u64) -> u64
    ensures { result ≡ further_of side a b }
{
    match side {
        Side::Floor => a.max(b),
        Side::Ceil => a.min(b),
    }
}

/// 1 where `b` stands past `a`, and else 0.
#[inline(always)]
pub(crate) fn passes(side: Side, a: u64, b: u64) -> u64
    ensures { result ≡ one_if (is_past side a b) }
{
    match side {
        Side::Floor => u64::from(a < b),
        Side::Ceil => u64::from(b < a),
    }
}

/// A side's rounded mean of a point.
#[inline(always)]
pub(crate) fn mean(side: Side, system: &System, i: usize, v: &[u64]) -> u64
    requires point { i < length system.now }
    requires boxes { InBoxes system.now v.now }
    ensures { result ≡ mean_of side system.now i v.now }
{
    match side {
        Side::Floor => system.floor_mean(i, v),
        Side::Ceil => system.ceil_mean(i, v),
    }
}
