//! Why a tree is not held.

ghost use Rattle.std.specs.Prelude.{◌≡◌};
ghost use Rattle.owl_arena.specs.declared.grow.Grow.TheVariants.{Memory};

use owl_characters::NoMemory;
use thiserror::Error;

/// Why an arena does not hold a tree.
#[derive(Clone, Copy, Debug, PartialEq, Eq, Error)]
pub enum Grow {
    /// The Structural Specification has no such tree.
    #[error("no tree has these parts")]
    BadShape,
    /// The tree is more than 128 levels deep.
    #[error("the expression is too deep")]
    TooDeep,
    /// The tree has more than 2^24 nodes and leaves.
    #[error("the expression is too heavy")]
    TooHeavy,
    /// There are 2^28 trees already.
    #[error("too many expressions")]
    TooMany,
    /// Memory ran out.
    #[error("out of memory")]
    Memory,
}

impl From<NoMemory> for Grow {
    ghost from_gives = { λ _ e. e ≡ Memory };

    fn from(_e: NoMemory) -> Grow {
        Grow::Memory
    }
}
