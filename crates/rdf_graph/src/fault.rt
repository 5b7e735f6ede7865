//! Why triples are made no graph.

ghost use Rattle.std.specs.Prelude.{◌≡◌};
ghost use Rattle.rdf_graph.specs.declared.fault.GraphFault.TheVariants.{Memory};

use owl_characters::NoMemory;
use std::alloc::AllocError;
use thiserror::Error;

/// Why triples are made no graph.
#[derive(Clone, Copy, Debug, PartialEq, Eq, Error)]
pub enum GraphFault {
    /// There are more than 2^24 of them.
    #[error("more than 2^24 triples")]
    TooMany,
    /// Memory ran out.
    #[error("out of memory")]
    Memory,
}

impl From<AllocError> for GraphFault {
    ghost from_gives = { λ _ e. e ≡ Memory };

    fn from(_e: AllocError) -> GraphFault {
        GraphFault::Memory
    }
}

impl From<NoMemory> for GraphFault {
    ghost from_gives = { λ _ e. e ≡ Memory };

    fn from(_e: NoMemory) -> GraphFault {
        GraphFault::Memory
    }
}
