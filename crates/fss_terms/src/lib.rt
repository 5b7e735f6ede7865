//! What a document in Functional-Style Syntax says: keywords, brackets and
//! atoms, and what is written for an ontology.
#![tactic(auto)]

mod term;

pub use term::Term;
