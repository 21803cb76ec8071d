//! The weights of the nets.

ghost use Rattle.std.specs.Prelude.{◌≡◌, ◌+◌, ◌*◌, ◌/◌, ◌%◌, ◌^◌};

/// What a state is multiplied by on the way to the next.
pub const MULTIPLIER: u64 = 6_364_136_223_846_793_005;

/// What is added then. The next state is the rest of the sum by 2^64.
pub const INCREMENT: u64 = 1_442_695_040_888_963_407;

/// What a state is divided by, to give a weight.
pub const SPREAD: u64 = 1 << 33;

/// How many weights there are, from 1 on.
pub const WEIGHTS: u64 = 4;

/// The state behind this one.
pub(crate) fn next_state(state: u64) -> u64
    ensures { result ≡ (state * MULTIPLIER + INCREMENT) % 2 ^ 64 }
{
    state.wrapping_mul(MULTIPLIER).wrapping_add(INCREMENT)
}

/// The weight that a state gives.
pub(crate) fn weight_by(state: u64) -> u64
    ensures { result ≡ 1 + state / SPREAD % WEIGHTS }
{
    1 + state / SPREAD % WEIGHTS
}
