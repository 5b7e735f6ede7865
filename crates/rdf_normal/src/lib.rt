//! The normal form of an ontology for an RDF graph: axioms that the mapping has
//! triples for, and nothing bare beside what says it with annotations (Mapping to
//! RDF Graphs, section 2).
#![tactic(auto)]

mod build;
mod copies;
mod fault;
mod laws;
mod making;
mod needless;
mod own;
mod settling;
mod spreading;
mod staying;
mod steps;
mod tidying;

pub use copies::copied;
pub use fault::NormFault;
pub use laws::{
    declarations_stay, leaves_stay, normal_forms_are_ontologies, normal_forms_stay, what_is_kept,
};
pub use making::make;
pub use staying::is_normal;
pub use steps::normal;
