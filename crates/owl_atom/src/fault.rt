//! Why a call refused.

ghost use Rattle.std.specs.Prelude.{◌≡◌};
ghost use Rattle.owl_atom.specs.declared.fault.DeclareFault.TheVariants.{Memory as DeclareMemory};
ghost use Rattle.owl_atom.specs.declared.fault.ExpandFault.TheVariants.{Memory as ExpandMemory};

use owl_characters::NoMemory;
use thiserror::Error;

/// Why a prefix is not declared.
#[derive(Clone, Copy, Debug, PartialEq, Eq, Error)]
pub enum DeclareFault {
    /// The prefix was declared before.
    #[error("the prefix is declared twice")]
    PrefixTwice,
    /// The prefix is one of four that stand for one IRI alone.
    #[error("the prefix stands for another IRI")]
    PrefixFixed,
    /// Memory ran out.
    #[error("out of memory")]
    Memory,
}

impl From<NoMemory> for DeclareFault {
    ghost from_gives = { λ _ e. e ≡ DeclareMemory };

    fn from(_e: NoMemory) -> DeclareFault {
        DeclareFault::Memory
    }
}

/// Why a name is not expanded.
#[derive(Clone, Copy, Debug, PartialEq, Eq, Error)]
pub enum ExpandFault {
    /// There is no such prefix.
    #[error("no such prefix")]
    UnknownPrefix,
    /// Memory ran out.
    #[error("out of memory")]
    Memory,
}

impl From<NoMemory> for ExpandFault {
    ghost from_gives = { λ _ e. e ≡ ExpandMemory };

    fn from(_e: NoMemory) -> ExpandFault {
        ExpandFault::Memory
    }
}
