ghost use Rattle.std.specs.Prelude.{◌≡◌, None};
ghost use Rattle.book_outer.specs.Cause.{HasCause};
ghost use Rattle.book_outer.specs.Sink.{Gets};
ghost use Rattle.book_outer.specs.State.{SinkState};

use crate::trouble::Trouble;

/// Where a report goes.
pub trait Sink {
    /// What is known of the sink.
    ghost state: { Self → SinkState };

    /// Puts bytes behind what was written.
    fn put(&mut self, bytes: &[u8]) -> Result<(), Trouble>
        ensures gets { Gets ((state self.old).written) ((state self.new).written) bytes.now result }
        ensures unknown { (state self.old).written ≡ None → (state self.new).written ≡ None }
        ensures cause { HasCause ((state self.old).faults) ((state self.new).faults) result };
}
