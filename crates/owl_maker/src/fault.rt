//! Why a maker does not go on.

ghost use Rattle.std.specs.Prelude.{◌≡◌};
ghost use Rattle.owl_maker.specs.declared.fault.MakeFault.TheVariants.{Memory};

use owl_characters::NoMemory;
use std::alloc::AllocError;
use thiserror::Error;

/// Why a maker does not go on.
#[derive(Clone, Copy, Debug, PartialEq, Eq, Error)]
pub enum MakeFault {
    /// The tree stands below 128 levels.
    #[error("the expression is too deep")]
    TooDeep,
    /// With the item the document has more than 2^24 nodes and leaves.
    #[error("the document is too heavy")]
    TooHeavy,
    /// A HasKey has no property.
    #[error("the key has no property")]
    EmptyKey,
    /// Memory ran out, or there are 2^28 trees.
    #[error("out of memory")]
    Memory,
}

impl From<AllocError> for MakeFault {
    ghost from_gives = { λ _ e. e ≡ Memory };

    fn from(_e: AllocError) -> MakeFault {
        MakeFault::Memory
    }
}

impl From<NoMemory> for MakeFault {
    ghost from_gives = { λ _ e. e ≡ Memory };

    fn from(_e: NoMemory) -> MakeFault {
        MakeFault::Memory
    }
}
