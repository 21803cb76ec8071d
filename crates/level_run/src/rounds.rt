//! The rounds of a placement: how often the regions are cut, and how often each level is solved.

ghost use Rattle.std.specs.Prelude.{◌≡◌, ◌≤◌};
ghost use Rattle.level_run.specs.Rounds.{IsInLimits, rounds_in};

/// How often the regions may be cut.
pub const MOST_LEVELS: u32 = 12;

/// How often each level may be solved.
pub const MOST_PASSES: u32 = 8;

/// How many rounds there may be, over all levels.
pub const MOST_ROUNDS: u32 = 26;

/// How many rounds are made. Each level has as many, with the regions that it has; the regions are cut behind its last one.
#[derive(Clone, Copy, Debug)]
pub struct Rounds {
    /// How often the regions are cut: at most `MOST_LEVELS`. There is one level more.
    pub levels: u32,
    /// How often each level is solved: from 1 to `MOST_PASSES`.
    pub passes: u32,
}

impl Rounds {
    /// How many rounds there are over all levels.
    pub fn count(self) -> u32
        requires { IsInLimits self }
        ensures { result ≡ rounds_in self }
    {
        (self.levels + 1) * self.passes
    }
}
