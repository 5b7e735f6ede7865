//! Why parts make no document.

ghost use Rattle.std.specs.Prelude.{◌≡◌};
ghost use Rattle.owl_assembly.specs.declared.fault.AssembleFault.TheVariants.{Memory};

use owl_characters::NoMemory;
use thiserror::Error;

/// Why parts make no document.
#[derive(Clone, Copy, Debug, PartialEq, Eq, Error)]
pub enum AssembleFault {
    /// It would have more than 2^24 nodes and leaves.
    #[error("the document is too heavy")]
    TooHeavy,
    /// Memory ran out.
    #[error("out of memory")]
    Memory,
}

impl From<NoMemory> for AssembleFault {
    ghost from_gives = { λ _ e. e ≡ Memory };

    fn from(_e: NoMemory) -> AssembleFault {
        AssembleFault::Memory
    }
}
