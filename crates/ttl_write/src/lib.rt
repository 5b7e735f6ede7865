//! Writes graphs in Turtle. The text reads back to the same graph.
#![tactic(auto)]

mod lines;
mod terms;
mod writer;

pub use lines::add_prefixes;
pub use owl_writing::WriteFault;
pub use terms::{add_term, known};
pub use writer::{term_text, triple_text, write};
