//! Why a call refused.

ghost use Rattle.std.specs.Prelude.{◌≡◌};
ghost use Rattle.rdf_terms.specs.declared.fault.IriFault.TheVariants.{Memory as IriMemory};
ghost use Rattle.rdf_terms.specs.declared.fault.LabelFault.TheVariants.{Memory as LabelMemory};
ghost use Rattle.rdf_terms.specs.declared.fault.LiteralFault.TheVariants.{Memory as LiteralMemory};

use owl_characters::NoMemory;
use thiserror::Error;

/// Why a text is not made an IRI.
#[derive(Clone, Copy, Debug, PartialEq, Eq, Error)]
pub enum IriFault {
    /// The text is no IRI with a scheme.
    #[error("no IRI")]
    BadIri,
    /// Memory ran out.
    #[error("out of memory")]
    Memory,
}

impl From<NoMemory> for IriFault {
    ghost from_gives = { λ _ e. e ≡ IriMemory };

    fn from(_e: NoMemory) -> IriFault {
        IriFault::Memory
    }
}

/// Why a text is not made a label.
#[derive(Clone, Copy, Debug, PartialEq, Eq, Error)]
pub enum LabelFault {
    /// The text is no label of a blank node.
    #[error("no label of a blank node")]
    BadLabel,
    /// Memory ran out.
    #[error("out of memory")]
    Memory,
}

impl From<NoMemory> for LabelFault {
    ghost from_gives = { λ _ e. e ≡ LabelMemory };

    fn from(_e: NoMemory) -> LabelFault {
        LabelFault::Memory
    }
}

/// Why a text is not made a literal.
#[derive(Clone, Copy, Debug, PartialEq, Eq, Error)]
pub enum LiteralFault {
    /// No literal is written so.
    #[error("no literal of this datatype")]
    BadLiteral,
    /// Memory ran out.
    #[error("out of memory")]
    Memory,
}

impl From<NoMemory> for LiteralFault {
    ghost from_gives = { λ _ e. e ≡ LiteralMemory };

    fn from(_e: NoMemory) -> LiteralFault {
        LiteralFault::Memory
    }
}
