//! The annotations of an RDF graph, and the sets of them, as trees in a store
//! (Mapping to RDF Graphs, sections 2.3 and 3.3).
#![tactic(auto)]

mod annotated;
mod annotations;
mod hold_sets;
mod laws;
mod leaves;
mod noters;
mod places;
mod sets;
mod variants;

pub use annotated::Annotated;
pub use laws::annotations_are_of_their_nodes;
pub use noters::Noters;
pub use sets::Sets;
