//! Tokens at their places.

/// A token, and the byte where it begins.
#[derive(Debug, Drop, PartialEq, Eq)]
pub struct Placed<T> {
    pub token: T,
    pub at: u64,
}
