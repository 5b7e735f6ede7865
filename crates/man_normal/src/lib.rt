//! The normal form of an ontology for Manchester Syntax: with the declaration of
//! each name that heads a block in which an axiom is written.
#![tactic(auto)]

mod declaring;
mod forming;
mod heads;
mod laws;
mod subjects;

pub use forming::normal;
pub use laws::normal_forms_can_be_written;
pub use rdf_normal::NormFault;
