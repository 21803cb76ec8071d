//! Why no request is answered.

ghost use Rattle.std.specs.Prelude.{◌≡◌};

use book_text::Memory;
use clap::error::ErrorKind;
use std::alloc::AllocError;

/// Why words are answered with no request.
#[derive(Clone, Copy, Debug, PartialEq, Eq)]
pub enum WordsFault {
    /// The words ask for nothing that the program does: a request for help is one of these.
    Usage,
    /// Want of memory.
    Memory,
}

impl From<Memory> for WordsFault {
    ghost use Rattle.proud_words.specs.declared.fault.WordsFault.TheVariants.{Memory};

    ghost from_gives = { λ _ fault. fault ≡ Memory };

    fn from(_: Memory) -> WordsFault {
        WordsFault::Memory
    }
}

impl From<AllocError> for WordsFault {
    ghost use Rattle.proud_words.specs.declared.fault.WordsFault.TheVariants.{Memory};

    ghost from_gives = { λ _ fault. fault ≡ Memory };

    fn from(_: AllocError) -> WordsFault {
        WordsFault::Memory
    }
}

impl From<clap::Error> for WordsFault {
    ghost use Rattle.clap.specs.Words.{kind_of};
    ghost use Rattle.clap.specs.declared.error.kind.ErrorKind.TheVariants.{OutOfMemory};
    ghost use Rattle.proud_words.specs.declared.fault.WordsFault.TheVariants.{Usage};

    ghost from_gives = { λ error fault. fault ≡ Usage → kind_of error ≡ OutOfMemory → ⊥ };

    fn from(error: clap::Error) -> WordsFault {
        match error.kind() {
            ErrorKind::OutOfMemory => WordsFault::Memory,
            _ => WordsFault::Usage,
        }
    }
}
