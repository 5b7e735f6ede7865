//! Why an import closure is refused.

ghost use Rattle.std.specs.Prelude.{◌≡◌};
ghost use Rattle.owl_close.specs.declared.fault.CloseFault.TheVariants.{Memory};

use owl_atom::Iri;
use owl_characters::NoMemory;
use std::alloc::AllocError;
use thiserror::Error;

/// Why an import closure is refused.
#[derive(Debug, Drop, Error)]
pub enum CloseFault {
    /// The document at this place is reached, and no document has the name that
    /// it imports.
    #[error("the document at place {document} imports {}, which is not there", .iri.text())]
    MissingImport { document: usize, iri: Iri },
    /// Memory ran out.
    #[error("out of memory")]
    Memory,
}

impl From<NoMemory> for CloseFault {
    ghost from_gives = { λ _ e. e ≡ Memory };

    fn from(_e: NoMemory) -> CloseFault {
        CloseFault::Memory
    }
}

impl From<AllocError> for CloseFault {
    ghost from_gives = { λ _ e. e ≡ Memory };

    fn from(_e: AllocError) -> CloseFault {
        CloseFault::Memory
    }
}
