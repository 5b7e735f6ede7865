//! Why a document could not be read.

ghost use Rattle.std.specs.Prelude.{◌≡◌};
ghost use Rattle.owl_reader.specs.Faults.{fault_at};
ghost use Rattle.owl_reader.specs.declared.fault.ReadFault.TheVariants as read;
ghost use Rattle.owl_reader.specs.declared.fault.TokenFault.TheVariants as token;

use owl_characters::NoMemory;
use std::alloc::AllocError;
use thiserror::Error;

/// What is wrong with a document at a place.
#[derive(Clone, Copy, Debug, PartialEq, Eq)]
pub enum Reason {
    /// No character begins there.
    BadUtf8,
    /// No token begins there.
    BadToken,
    /// What stands before it and the token there, or the end, begin nothing that may stand there.
    NotHere,
    /// The prefix of the name there was not declared before.
    UnknownPrefix,
    /// The prefix there was declared before.
    PrefixTwice,
    /// The IRI there is not the one that its prefix stands for.
    PrefixFixed,
    /// The datatype there has no literal of this form.
    BadLiteral,
    /// The bracket there ends a HasKey without a property.
    EmptyKey,
    /// The reference there has a character that no IRI has.
    BadIri,
    /// The reference there has no scheme, and no base was set before.
    RelativeWithoutBase,
}

/// Why a token is not taken.
#[derive(Clone, Copy, Debug, PartialEq, Eq)]
pub enum TokenFault {
    /// What is wrong at its place.
    Defect(Reason),
    /// What begins with it stands inside of too much that is open.
    TooDeep,
    /// With the item that it ends the document has more than 2^24 nodes and leaves.
    TooHeavy,
    /// It is a number above 2^64 - 1.
    NumberTooLarge,
    /// At the end the document has more than 2^24 triples.
    TooMany,
    /// Memory ran out.
    Memory,
}

impl TokenFault {
    /// The refusal of a document, where the token stands at the byte `at`, in the
    /// item that begins at the byte `item_at`.
    pub fn at(self, item_at: u64, at: u64) -> ReadFault
        ensures { result ≡ fault_at self item_at at }
    {
        match self {
            TokenFault::Defect(reason) => ReadFault::Refused {
                item_at,
                at,
                reason,
            },
            TokenFault::TooDeep => ReadFault::TooDeep,
            TokenFault::TooHeavy => ReadFault::TooHeavy,
            TokenFault::NumberTooLarge => ReadFault::NumberTooLarge,
            TokenFault::TooMany => ReadFault::TooMany,
            TokenFault::Memory => ReadFault::Memory,
        }
    }
}

impl From<NoMemory> for TokenFault {
    ghost from_gives = { λ _ e. e ≡ token.Memory };

    fn from(_e: NoMemory) -> TokenFault {
        TokenFault::Memory
    }
}

impl From<AllocError> for TokenFault {
    ghost from_gives = { λ _ e. e ≡ token.Memory };

    fn from(_e: AllocError) -> TokenFault {
        TokenFault::Memory
    }
}

/// Why a reader refused.
#[derive(Clone, Copy, Debug, PartialEq, Eq, Error)]
pub enum ReadFault {
    /// The first defect of the document, at the byte `at`, in the item that begins at the byte `item_at`.
    #[error("{reason:?} at byte {at}, in the item at byte {item_at}")]
    Refused {
        item_at: u64,
        at: u64,
        reason: Reason,
    },
    /// More than 2^27 bytes were fed.
    #[error("too long")]
    TooLong,
    /// Too much is open at once.
    #[error("too deep")]
    TooDeep,
    /// The document has more than 2^24 nodes and leaves.
    #[error("too heavy")]
    TooHeavy,
    /// A cardinality is above 2^64 - 1.
    #[error("a number is too large")]
    NumberTooLarge,
    /// The document has more than 2^24 triples.
    #[error("too many triples")]
    TooMany,
    /// Memory ran out.
    #[error("out of memory")]
    Memory,
}

impl From<AllocError> for ReadFault {
    ghost from_gives = { λ _ e. e ≡ read.Memory };

    fn from(_e: AllocError) -> ReadFault {
        ReadFault::Memory
    }
}
