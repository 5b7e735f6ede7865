//! Which parts of an import closure break which rules of OWL 2 DL (Structural
//! Specification, sections 3 and 11).
#![tactic(auto)]

mod facts;
mod listing;
mod search;

pub use search::breaches;
