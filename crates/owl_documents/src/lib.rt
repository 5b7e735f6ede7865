//! Reads the documents that a command names, each to its end, from any shelf, and documents from memory.
#![tactic(auto)]

mod canonical;
mod document;
mod documents;
mod laws;
mod limits;
mod readers;
mod reading;
mod trouble;

pub use document::{Document, GraphDocument, Syntax};
pub use documents::read_documents;
pub use laws::documents_are_read_one_way;
pub use reading::read_text;
pub use trouble::{Refusal, Stop, Trouble};
