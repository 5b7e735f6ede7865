//! Why a row can't be read or run.

use owl_characters::NoMemory;
use std::alloc::{AllocError, AllocFailed};
use thiserror::Error;

/// Why a row can't be read or run.
#[derive(Clone, Copy, Debug, PartialEq, Eq, Error)]
pub enum RowFault {
    /// No line begins so.
    #[error("no such line")]
    UnknownLine,
    /// A number was to stand here.
    #[error("no number")]
    NoNumber,
    /// A row says this once.
    #[error("said before")]
    Twice,
    /// A part of a text stands before any document and the output.
    #[error("part of no text")]
    NoText,
    /// A document stands behind the output.
    #[error("behind the output")]
    Late,
    /// A row has to say its words.
    #[error("no words")]
    NoWords,
    /// A row has to say its status.
    #[error("no status")]
    NoStatus,
    /// A row of tokens has to have a document.
    #[error("no document")]
    NoDocument,
    /// A document whose tokens are told is short.
    #[error("too long a document")]
    TooLong,
    /// Want of memory.
    #[error("out of memory")]
    Memory,
}

impl From<AllocError> for RowFault {
    fn from(_error: AllocError) -> RowFault {
        RowFault::Memory
    }
}

impl<T: Drop> From<AllocFailed<T>> for RowFault {
    fn from(_error: AllocFailed<T>) -> RowFault {
        RowFault::Memory
    }
}

impl From<NoMemory> for RowFault {
    fn from(_error: NoMemory) -> RowFault {
        RowFault::Memory
    }
}
