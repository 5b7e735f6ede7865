//! Writes graphs in Turtle with brackets and collections.
#![tactic(auto)]

mod laws;
mod lines;
mod objects;
mod source;
mod writer;

pub use laws::{graphs_have_one_form, graphs_have_one_text};
pub use owl_writing::WriteFault;
pub use writer::write;
