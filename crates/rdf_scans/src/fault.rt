//! Why a graph has no header of an ontology.

ghost use Rattle.std.specs.Prelude.{◌≡◌};
ghost use Rattle.rdf_scans.specs.declared.fault.OutlineFault.TheVariants.{Memory};

use owl_characters::NoMemory;
use rdf_graph::Term;
use std::alloc::AllocError;
use thiserror::Error;

/// Why a graph has no header of an ontology.
#[derive(Debug, Drop, Error)]
pub enum OutlineFault {
    /// No node has the type owl:Ontology.
    #[error("no node is an ontology")]
    NoHeader,
    /// Two nodes or more have it.
    #[error("more than one node is an ontology")]
    TwoHeaders,
    /// The header has two versions, a version beside no IRI, or a version or an
    /// import that is no IRI.
    #[error("a version or an import of the ontology is not one")]
    BadHeader { node: Term },
    /// Memory ran out.
    #[error("out of memory")]
    Memory,
}

impl From<NoMemory> for OutlineFault {
    ghost from_gives = { λ _ e. e ≡ Memory };

    fn from(_e: NoMemory) -> OutlineFault {
        OutlineFault::Memory
    }
}

impl From<AllocError> for OutlineFault {
    ghost from_gives = { λ _ e. e ≡ Memory };

    fn from(_e: AllocError) -> OutlineFault {
        OutlineFault::Memory
    }
}
