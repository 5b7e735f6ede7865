//! Why a text was not made.

ghost use Rattle.std.specs.Prelude.{◌≡◌};
ghost use Rattle.owl_characters.specs.declared.text.NoMemory.{NoMemory};
ghost use Rattle.owl_writing.specs.declared.fault.WriteFault.TheVariants.{Memory};

use owl_characters::NoMemory;
use std::alloc::AllocError;
use thiserror::Error;

/// Why a text was not made.
#[derive(Clone, Copy, Debug, PartialEq, Eq, Error)]
pub enum WriteFault {
    /// It has more than 2^27 bytes.
    #[error("too long")]
    TooLong,
    /// Memory ran out.
    #[error("out of memory")]
    Memory,
}

impl From<AllocError> for WriteFault {
    ghost from_gives = { λ _ e. e ≡ Memory };

    fn from(_e: AllocError) -> WriteFault {
        WriteFault::Memory
    }
}

impl From<NoMemory> for WriteFault {
    ghost from_gives = { λ _ e. e ≡ Memory };

    fn from(_e: NoMemory) -> WriteFault {
        WriteFault::Memory
    }
}
