//! The text of a document in Manchester Syntax reads back to the document.
#![tactic(auto)]

mod laws;

pub use laws::{ontologies_read_back, texts_read_back};
