//! Why a tree is not added.

ghost use Rattle.std.specs.Prelude.{◌≡◌};
ghost use Rattle.owl_doc.specs.declared.fault.AddFault.TheVariants.{Memory};

use owl_characters::NoMemory;
use thiserror::Error;

/// Why a tree is not added to a document.
#[derive(Clone, Copy, Debug, PartialEq, Eq, Error)]
pub enum AddFault {
    /// It is no annotation, or no axiom.
    #[error("the tree has another tag")]
    WrongTag,
    /// With it the document would have more than 2^24 nodes and leaves.
    #[error("the document is too heavy")]
    TooHeavy,
    /// Memory ran out.
    #[error("out of memory")]
    Memory,
}

impl From<NoMemory> for AddFault {
    ghost from_gives = { λ _ e. e ≡ Memory };

    fn from(_e: NoMemory) -> AddFault {
        AddFault::Memory
    }
}
