//! Reads documents in Manchester Syntax whose bytes come in pieces.
#![tactic(auto)]

mod assembler;
mod atoms;
mod names;
mod reader;
mod refusals;
mod syntax;

pub use reader::Reader;
