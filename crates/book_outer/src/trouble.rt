ghost use Rattle.std.specs.Prelude.{◌≡◌};
ghost use Rattle.book_outer.specs.Cause.{HasCause};
ghost use Rattle.book_outer.specs.declared.trouble.Trouble.TheVariants as trouble;

use book_text::Memory;
use std::alloc::AllocError;

/// Why a call of the outside gave nothing.
#[derive(Clone, Copy, Debug, PartialEq, Eq)]
pub enum Trouble {
    /// A fault of the outside, which is counted.
    Failed,
    /// Want of memory.
    Memory,
}

impl From<Memory> for Trouble {
    ghost from_gives = { λ _ e. e ≡ trouble.Memory };

    fn from(_: Memory) -> Trouble {
        Trouble::Memory
    }
}

impl From<AllocError> for Trouble {
    ghost from_gives = { λ _ e. e ≡ trouble.Memory };

    fn from(_: AllocError) -> Trouble {
        Trouble::Memory
    }
}

/// Passes an answer on, and raises the count where it is a fault.
pub(crate) fn counted<T>(faults: &mut u64, answer: Result<T, Trouble>) -> Result<T, Trouble>
    ensures same { result ≡ answer }
    ensures cause { HasCause faults.old faults.new answer }
{
    if matches!(answer, Err(Trouble::Failed)) {
        *faults = faults.saturating_add(1);
    }
    answer
}
