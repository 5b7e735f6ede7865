//! Writes the lines and blocks of documents in Manchester Syntax (sections 2.1 to 2.6).
#![tactic(auto)]

mod block;
mod lines;
mod listed;
mod manner;
mod plan;
mod table;
mod tree;
mod words;
mod writer;

pub use man_sayable::can;
pub use owl_writing::WriteFault;
pub use writer::write;
