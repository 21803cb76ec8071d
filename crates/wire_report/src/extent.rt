//! How far numbers reach.

ghost use Rattle.std.specs.Prelude.{◌≡◌, ◌≤◌, ◌*◌, ◌-ℤ◌, ◌≤ℤ◌, nat_abs};
ghost use Rattle.std.specs.Int.{int_max, int_min};
ghost use Rattle.book_text.specs.declared.decimal.TheConstants.{MOST_MICRO};
ghost use Rattle.wire_report.specs.Forms.Extents.{IsNear};

/// The least and the greatest of some numbers.
#[derive(Clone, Copy)]
pub(crate) struct Extent {
    pub(crate) least: i64,
    pub(crate) greatest: i64,
}

impl Extent {
    /// Of one number.
    pub(crate) fn of(z: i64) -> Extent
        ensures least { result.least ≡ z }
        ensures greatest { result.greatest ≡ z }
    {
        Extent {
            least: z,
            greatest: z,
        }
    }

    /// Of these numbers and one more.
    pub(crate) fn with(self, z: i64) -> Extent
        ensures least { result.least ≡ int_min self.least z }
        ensures greatest { result.greatest ≡ int_max self.greatest z }
    {
        Extent {
            least: self.least.min(z),
            greatest: self.greatest.max(z),
        }
    }

    /// How far the greatest lies above the least.
    pub(crate) fn spread(self) -> u64
        requires order { self.least ≤ℤ self.greatest }
        requires least { IsNear self.least }
        requires greatest { IsNear self.greatest }
        ensures spread { result ≡ nat_abs (self.greatest -ℤ self.least) }
        ensures short { result ≤ 8 * MOST_MICRO }
    {
        (self.greatest - self.least) as u64
    }
}
