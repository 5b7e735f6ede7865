//! The first part of a document that a syntax cannot say.
#![tactic(auto)]

mod laws;
mod saying;
mod search;

pub use laws::{first_is_one, same_ontologies_are_said_alike};
pub use saying::Saying;
pub use search::first_unsaid;
