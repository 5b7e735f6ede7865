//! What comes of bytes in UTF-8.

use thiserror::Error;

/// What comes of a byte.
#[derive(Clone, Copy, Debug, PartialEq, Eq)]
pub enum Utf8Step {
    /// A character is begun, and not yet whole.
    More,
    /// This character is whole, and begins at this byte.
    Char { c: char, at: u64 },
    /// No character begins at this byte.
    Bad { at: u64 },
}

/// No character begins at this byte, or the end cuts it off.
#[derive(Clone, Copy, Debug, PartialEq, Eq, Error)]
#[error("no character begins at byte {at}")]
pub struct BadUtf8 {
    pub at: u64,
}
