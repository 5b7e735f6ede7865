//! Why declarations are not added.

ghost use Rattle.std.specs.Prelude.{◌≡◌};
ghost use Rattle.owl_declare.specs.declared.fault.DeclareFault.TheVariants.{Memory, TooHeavy};
ghost use Rattle.owl_declare.specs.Needed.{assemble_fault};

use owl_assembly::AssembleFault;
use owl_characters::NoMemory;
use rdf_terms::Iri;
use std::alloc::AllocError;
use thiserror::Error;

/// Why a document is not declared whole.
#[derive(Debug, Drop, Error)]
pub enum DeclareFault {
    /// With what is needed the IRI has two kinds that no IRI may share.
    #[error("an IRI has two kinds that no IRI may share")]
    TwoKinds { iri: Iri },
    /// The ontology would have more than 2^24 nodes and leaves.
    #[error("the document is too heavy")]
    TooHeavy,
    /// Memory ran out.
    #[error("out of memory")]
    Memory,
}

impl From<NoMemory> for DeclareFault {
    ghost from_gives = { λ _ e. e ≡ Memory };

    fn from(_e: NoMemory) -> DeclareFault {
        DeclareFault::Memory
    }
}

impl From<AllocError> for DeclareFault {
    ghost from_gives = { λ _ e. e ≡ Memory };

    fn from(_e: AllocError) -> DeclareFault {
        DeclareFault::Memory
    }
}

impl From<AssembleFault> for DeclareFault {
    ghost from_gives = { λ fault e. e ≡ assemble_fault fault };

    fn from(fault: AssembleFault) -> DeclareFault {
        match fault {
            AssembleFault::TooHeavy => DeclareFault::TooHeavy,
            AssembleFault::Memory => DeclareFault::Memory,
        }
    }
}
