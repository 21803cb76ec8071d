//! Coordinates: numbers of millionths that aren't negative.

ghost use Rattle.std.specs.Prelude.{◌≡◌, ◌*◌, ◌≤◌, ℤ};
ghost use Rattle.book_text.specs.Coordinates.{IsMicro, coordinate_of, micro_of};

use crate::decimal::{MOST_MICRO, Micro};

/// The coordinate of a number of millionths: the number shifted by `MOST_MICRO`.
pub fn coordinate_of(value: Micro) -> u64
    requires { IsMicro value.0 }
    ensures value { result ≡ coordinate_of value.0 }
    ensures within { result ≤ 2 * MOST_MICRO }
{
    (value.0 + MOST_MICRO as i64) as u64
}

/// The number of millionths of a coordinate: the coordinate shifted back.
pub fn micro_of(coordinate: u64) -> Micro
    requires { coordinate ≤ 2 * MOST_MICRO }
    ensures value { result.0 ≡ micro_of coordinate }
    ensures within { IsMicro result.0 }
{
    Micro(coordinate as i64 - MOST_MICRO as i64)
}

/// A law: a number in range is that of its coordinate.
pub fn coordinates_go_back()
    ensures { (value : ℤ) → IsMicro value → micro_of (coordinate_of value) ≡ value }
{}
