//! Which blank nodes of an RDF graph are written in brackets and as collections, and how deep.
#![tactic(auto)]

mod cells;
mod levels;
mod named;
mod nestable;
mod nests;
mod nodes;

pub use levels::MOST_LEVELS;
pub use nests::Nests;
