//! Writes documents in Functional-Style Syntax.
#![tactic(auto)]

mod lines;
mod tree;
mod writer;

pub use owl_writing::WriteFault;
pub use writer::{axiom_text, write};
