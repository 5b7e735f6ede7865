//! The limit of documents and of what is written.

/// The most bytes of a document, and of an output: 2^27.
pub const MOST_BYTES: u64 = 1 << 27;
