//! The outside of a program: a shelf of documents and a sink of bytes, as two
//! traits, two calls over them, and one of each in memory.
#![tactic(auto)]

mod document;
mod mem_shelf;
mod mem_sink;
mod outside;
mod turn;
mod whole;

pub use mem_shelf::MemShelf;
pub use mem_sink::MemSink;
pub use outside::{Failed, Shelf, Sink};
pub use whole::{ReadFault, put_all, read_all};
