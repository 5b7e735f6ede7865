//! Why a document that was read says no ontology.

ghost use Rattle.std.specs.Prelude.{◌≡◌};
ghost use Rattle.man_resolve.specs.declared.fault.ResolveFault.TheVariants.{Memory};
ghost use Rattle.man_resolve.specs.Faults.{assemble_fault};

use owl_assembly::AssembleFault;
use owl_characters::NoMemory;
use rdf_terms::Iri;
use std::alloc::AllocError;
use thiserror::Error;

/// Why a document says no ontology within the limits. A place is the byte at which
/// the name or the expression begins.
#[derive(Debug, Drop, Error)]
pub enum ResolveFault {
    /// The IRI has two kinds of properties, or is a class and a datatype.
    #[error("an IRI has two kinds that no IRI may share")]
    TwoKinds { iri: Iri },
    /// The name has no kind but perhaps that of individuals, where another is needed.
    #[error("a name is not declared")]
    Untyped { iri: Iri, at: u64 },
    /// The name has a kind, and none of those that are needed.
    #[error("a name is of the wrong kind")]
    WrongKind { iri: Iri, at: u64 },
    /// No expression of this form may stand there.
    #[error("an expression is of the wrong form")]
    WrongForm { at: u64 },
    /// An expression, an annotation or an axiom is more than 128 levels deep.
    #[error("an expression is too deep")]
    TooDeep,
    /// The ontology has more than 2^24 nodes and leaves.
    #[error("the document is too heavy")]
    TooHeavy,
    /// Memory ran out.
    #[error("out of memory")]
    Memory,
}

impl From<NoMemory> for ResolveFault {
    ghost from_gives = { λ _ e. e ≡ Memory };

    fn from(_e: NoMemory) -> ResolveFault {
        ResolveFault::Memory
    }
}

impl From<AllocError> for ResolveFault {
    ghost from_gives = { λ _ e. e ≡ Memory };

    fn from(_e: AllocError) -> ResolveFault {
        ResolveFault::Memory
    }
}

impl From<AssembleFault> for ResolveFault {
    ghost from_gives = { λ fault e. e ≡ assemble_fault fault };

    fn from(fault: AssembleFault) -> ResolveFault {
        match fault {
            AssembleFault::TooHeavy => ResolveFault::TooHeavy,
            AssembleFault::Memory => ResolveFault::Memory,
        }
    }
}
