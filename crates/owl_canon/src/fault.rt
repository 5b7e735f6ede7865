//! Why there are no canonical bytes, and why bytes are not canonical.

ghost use Rattle.std.specs.Prelude.{◌≡◌};
ghost use Rattle.owl_canon.specs.declared.fault.CanonFault.TheVariants as canon;
ghost use Rattle.owl_canon.specs.declared.fault.WriteFault.TheVariants as write;

use owl_characters::NoMemory;
use thiserror::Error;

/// Why canonical bytes are not written.
#[derive(Clone, Copy, Debug, PartialEq, Eq, Error)]
pub enum WriteFault {
    /// They are more than 2^27.
    #[error("the canonical bytes are more than 2^27")]
    TooLong,
    /// Memory ran out.
    #[error("out of memory")]
    Memory,
}

impl From<NoMemory> for WriteFault {
    ghost from_gives = { λ _ e. e ≡ write.Memory };

    fn from(_e: NoMemory) -> WriteFault {
        WriteFault::Memory
    }
}

/// Why bytes are not read.
#[derive(Clone, Copy, Debug, PartialEq, Eq, Error)]
pub enum CanonFault {
    /// They are the canonical bytes of no ontology.
    #[error("these are the canonical bytes of no ontology")]
    NotCanon,
    /// Memory ran out.
    #[error("out of memory")]
    Memory,
}

impl From<NoMemory> for CanonFault {
    ghost from_gives = { λ _ e. e ≡ canon.Memory };

    fn from(_e: NoMemory) -> CanonFault {
        CanonFault::Memory
    }
}
