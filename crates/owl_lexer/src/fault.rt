//! Why bytes could not be cut into tokens.

ghost use Rattle.std.specs.Prelude.{◌≡◌};
ghost use Rattle.owl_lexer.specs.declared.fault.LexFault.TheVariants.{Memory};

use owl_characters::NoMemory;
use std::alloc::AllocError;
use thiserror::Error;

/// Why a lexer refused.
#[derive(Clone, Copy, Debug, PartialEq, Eq, Error)]
pub enum LexFault {
    /// No character begins at this byte.
    #[error("no character begins at byte {at}")]
    BadUtf8 { at: u64 },
    /// No token, white space or comment begins at this byte.
    #[error("no token begins at byte {at}")]
    BadToken { at: u64 },
    /// Memory ran out.
    #[error("out of memory")]
    Memory,
}

impl From<AllocError> for LexFault {
    ghost from_gives = { λ _ e. e ≡ Memory };

    fn from(_e: AllocError) -> LexFault {
        LexFault::Memory
    }
}

impl From<NoMemory> for LexFault {
    ghost from_gives = { λ _ e. e ≡ Memory };

    fn from(_e: NoMemory) -> LexFault {
        LexFault::Memory
    }
}
