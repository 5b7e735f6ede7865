//! Why a tree is not taken.

ghost use Rattle.std.specs.Prelude.{◌≡◌};
ghost use Rattle.tree_stores.specs.declared.fault.TreeFault.TheVariants.{Memory};

use owl_characters::NoMemory;
use std::alloc::AllocError;
use thiserror::Error;

/// Why a tree is not taken, by a store whose trees are too heavy by an `H`.
#[derive(Clone, Copy, Debug, PartialEq, Eq, Error)]
pub enum TreeFault<H> {
    /// The tree is more than 128 levels deep.
    #[error("the expression is too deep")]
    TooDeep,
    /// The tree has more than 2^24 nodes and leaves.
    #[error("the expression is too heavy")]
    TooHeavy(H),
    /// Memory ran out.
    #[error("out of memory")]
    Memory,
}

impl<H> From<NoMemory> for TreeFault<H> {
    ghost from_gives = { λ _ e. e ≡ Memory };

    fn from(_e: NoMemory) -> TreeFault<H> {
        TreeFault::Memory
    }
}

impl<H> From<AllocError> for TreeFault<H> {
    ghost from_gives = { λ _ e. e ≡ Memory };

    fn from(_e: AllocError) -> TreeFault<H> {
        TreeFault::Memory
    }
}
