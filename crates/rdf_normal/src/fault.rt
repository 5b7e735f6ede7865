//! Why a normal form is not made.

ghost use Rattle.std.specs.Prelude.{◌≡◌};
ghost use Rattle.rdf_normal.specs.declared.fault.NormFault.TheVariants.{Memory};

use owl_characters::NoMemory;
use std::alloc::AllocError;
use thiserror::Error;

/// Why a normal form is not made.
#[derive(Clone, Copy, Debug, PartialEq, Eq, Error)]
pub enum NormFault {
    /// It would have more than 2^24 nodes and leaves.
    #[error("the normal form is too heavy")]
    TooHeavy,
    /// Memory ran out, or there are 2^28 trees.
    #[error("out of memory")]
    Memory,
}

impl From<NoMemory> for NormFault {
    ghost from_gives = { λ _ e. e ≡ Memory };

    fn from(_e: NoMemory) -> NormFault {
        NormFault::Memory
    }
}

impl From<AllocError> for NormFault {
    ghost from_gives = { λ _ e. e ≡ Memory };

    fn from(_e: AllocError) -> NormFault {
        NormFault::Memory
    }
}
