//! Why a graph says no ontology.

ghost use Rattle.std.specs.Prelude.{◌≡◌};
ghost use Rattle.rdf_reverse.specs.declared.fault.ReverseFault.TheVariants.{Memory};
ghost use Rattle.rdf_reverse.specs.Faults.{assemble_fault, node_fault, outline_fault};

use owl_assembly::AssembleFault;
use owl_characters::NoMemory;
use rdf_graph::{Term, Triple};
use rdf_roles::NodeFault;
use rdf_scans::OutlineFault;
use rdf_terms::{Iri, Label};
use thiserror::Error;

/// Why a graph says no ontology within the limits.
#[derive(Debug, Drop, Error)]
pub enum ReverseFault {
    /// The IRI has two kinds of properties, or is a class and a datatype.
    #[error("an IRI has two kinds that no IRI may share")]
    TwoKinds { iri: Iri },
    /// No node has the type owl:Ontology.
    #[error("no node is an ontology")]
    NoHeader,
    /// Two nodes or more have it.
    #[error("more than one node is an ontology")]
    TwoHeaders,
    /// The header has two versions, a version beside no IRI, or a version or an
    /// import that is no IRI.
    #[error("a version or an import of the ontology is not one")]
    BadHeader { node: Term },
    /// The node has the marks of two roles.
    #[error("a node has two roles")]
    Mixed { node: Label },
    /// The cell has not one first and one rest, or its rest is no list.
    #[error("a list is none")]
    BadList { node: Label },
    /// The node is below itself, or noted under itself.
    #[error("a node is below itself")]
    Cycle { node: Label },
    /// The node's triples are those of no expression, axiom or reification.
    #[error("the triples of a node are none of its role")]
    BadNode { node: Label },
    /// The reification is one of no axiom and no annotation.
    #[error("a reification is of nothing")]
    MainMissing { node: Label },
    /// The triple takes a reserved IRI for what it isn't.
    #[error("a reserved IRI is taken for what it is not")]
    Reserved { triple: Triple },
    /// No axiom reaches the node.
    #[error("a node is of no axiom")]
    Orphan { node: Label },
    /// A term of the triple is not what has to stand there.
    #[error("a triple names what it may not")]
    Untyped { triple: Triple },
    /// A cardinality is 2^64 or more.
    #[error("a cardinality is too large")]
    NumberTooLarge,
    /// An expression, an annotation or an axiom is more than 128 levels deep.
    #[error("an expression is too deep")]
    TooDeep,
    /// It has more than 2^24 nodes and leaves, or the ontology has.
    #[error("an expression is too heavy")]
    TooHeavy,
    /// Memory ran out.
    #[error("out of memory")]
    Memory,
}

impl From<NoMemory> for ReverseFault {
    ghost from_gives = { λ _ e. e ≡ Memory };

    fn from(_e: NoMemory) -> ReverseFault {
        ReverseFault::Memory
    }
}

impl From<OutlineFault> for ReverseFault {
    ghost from_gives = { λ fault e. e ≡ outline_fault fault };

    fn from(fault: OutlineFault) -> ReverseFault {
        match fault {
            OutlineFault::NoHeader => ReverseFault::NoHeader,
            OutlineFault::TwoHeaders => ReverseFault::TwoHeaders,
            OutlineFault::BadHeader { node } => ReverseFault::BadHeader { node },
            OutlineFault::Memory => ReverseFault::Memory,
        }
    }
}

impl From<NodeFault> for ReverseFault {
    ghost from_gives = { λ fault e. e ≡ node_fault fault };

    fn from(fault: NodeFault) -> ReverseFault {
        match fault {
            NodeFault::Mixed { node } => ReverseFault::Mixed { node },
            NodeFault::BadList { node } => ReverseFault::BadList { node },
            NodeFault::Cycle { node } => ReverseFault::Cycle { node },
            NodeFault::BadNode { node } => ReverseFault::BadNode { node },
            NodeFault::Memory => ReverseFault::Memory,
        }
    }
}

impl From<AssembleFault> for ReverseFault {
    ghost from_gives = { λ fault e. e ≡ assemble_fault fault };

    fn from(fault: AssembleFault) -> ReverseFault {
        match fault {
            AssembleFault::TooHeavy => ReverseFault::TooHeavy,
            AssembleFault::Memory => ReverseFault::Memory,
        }
    }
}
