//! Why bytes are no document in Functional-Style Syntax: definitions, and laws
//! as functions that do nothing.
#![tactic(auto)]

mod laws;

pub use laws::{defects_are_of_no_document, documents_are_read_one_way, one_first_defect};
