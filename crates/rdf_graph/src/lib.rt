//! RDF graphs: sets of triples in ascending order, in which triples are found by
//! subject and by object (RDF 1.1 Concepts and Abstract Syntax, section 3).
#![tactic(auto)]

mod by_object;
mod fault;
mod gather;
mod graph;
mod ranks;
mod term;
#[cfg(test)]
mod tests;
mod triple;

pub use fault::GraphFault;
pub use gather::Gather;
pub use graph::{Graph, MOST_TRIPLES};
pub use term::Term;
pub use triple::Triple;
