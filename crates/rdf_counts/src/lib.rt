//! How many triples the expressions of an ontology have in its graph, at least.
#![tactic(auto)]

mod count;
mod laws;

pub use count::{count_axiom, is_pair};
pub use laws::graphs_have_their_expressions;
