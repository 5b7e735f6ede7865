//! The roles of the blank nodes of an RDF graph (Mapping to RDF Graphs, section 3).
#![tactic(auto)]

mod cells;
mod fault;
mod forms;
mod lengths;
mod nodes;
mod notes;
mod numbers;
mod order;
mod roles;
mod rows;
mod table;
mod wants;
mod ways;

pub use fault::NodeFault;
pub use roles::Roles;
