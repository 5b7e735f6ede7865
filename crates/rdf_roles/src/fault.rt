//! Why the nodes of a graph are of no ontology.

ghost use Rattle.std.specs.Prelude.{◌≡◌};
ghost use Rattle.rdf_roles.specs.declared.fault.NodeFault.TheVariants.{Memory};

use owl_characters::NoMemory;
use rdf_terms::Label;
use std::alloc::{AllocError, AllocFailed};
use thiserror::Error;

/// Why the nodes of a graph are of no ontology.
#[derive(Debug, Drop, Error)]
pub enum NodeFault {
    /// The node has the marks of two roles.
    #[error("the node _:{} has the marks of two roles", .node.text())]
    Mixed { node: Label },
    /// The cell of a list has not exactly one first and one rest, or its rest is
    /// neither rdf:nil nor a cell.
    #[error("the node _:{} is no cell of a list", .node.text())]
    BadList { node: Label },
    /// The node is below itself, or is a reification that is noted under itself.
    #[error("the node _:{} is below itself", .node.text())]
    Cycle { node: Label },
    /// The node's own triples are those of no expression, axiom or reification.
    #[error("the triples of the node _:{} are those of no construct", .node.text())]
    BadNode { node: Label },
    /// Memory ran out.
    #[error("out of memory")]
    Memory,
}

impl From<NoMemory> for NodeFault {
    ghost from_gives = { λ _ e. e ≡ Memory };

    fn from(_e: NoMemory) -> NodeFault {
        NodeFault::Memory
    }
}

impl From<AllocError> for NodeFault {
    ghost from_gives = { λ _ e. e ≡ Memory };

    fn from(_e: AllocError) -> NodeFault {
        NodeFault::Memory
    }
}

impl<T: Drop> From<AllocFailed<T>> for NodeFault {
    ghost from_gives = { λ _ e. e ≡ Memory };

    fn from(_e: AllocFailed<T>) -> NodeFault {
        NodeFault::Memory
    }
}
