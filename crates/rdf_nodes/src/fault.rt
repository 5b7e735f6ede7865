//! Why what the nodes of a graph stand for has no place in an arena.

ghost use Rattle.std.specs.Prelude.{◌≡◌};
ghost use Rattle.rdf_nodes.specs.declared.fault.DenoteFault.TheVariants.{Memory};
ghost use Rattle.rdf_nodes.specs.Nodes.{fault_of};

use owl_characters::NoMemory;
use thiserror::Error;
use tree_stores::TreeFault;

/// Why what the nodes of a graph stand for has no place in an arena.
#[derive(Clone, Copy, Debug, PartialEq, Eq, Error)]
pub enum DenoteFault {
    /// A cardinality is 2^64 or more.
    #[error("a cardinality is too large")]
    NumberTooLarge,
    /// A tree is more than 128 levels deep.
    #[error("an expression is too deep")]
    TooDeep,
    /// A tree has more than 2^24 nodes and leaves.
    #[error("an expression is too heavy")]
    TooHeavy,
    /// Memory ran out.
    #[error("out of memory")]
    Memory,
}

impl From<TreeFault<()>> for DenoteFault {
    ghost from_gives = { λ fault e. e ≡ fault_of fault };

    fn from(fault: TreeFault<()>) -> DenoteFault {
        match fault {
            TreeFault::TooDeep => DenoteFault::TooDeep,
            TreeFault::TooHeavy(()) => DenoteFault::TooHeavy,
            TreeFault::Memory => DenoteFault::Memory,
        }
    }
}

impl From<NoMemory> for DenoteFault {
    ghost from_gives = { λ _ e. e ≡ Memory };

    fn from(_e: NoMemory) -> DenoteFault {
        DenoteFault::Memory
    }
}
