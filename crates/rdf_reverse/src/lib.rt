//! An RDF graph as an ontology (Mapping to RDF Graphs, section 3).
#![tactic(auto)]

mod fault;
mod guesses;
mod heights;
mod laws;
mod mapping;
mod scans;
mod trees;

pub use fault::ReverseFault;
pub use guesses::guess;
pub use laws::{
    graphs_are_read_one_way, guesses_are_said_one_way, guesses_make_no_clash,
    limits_are_those_of_ontologies, redundant_triples_name_and_declare_nothing,
};
pub use mapping::reverse;
pub use rdf_nodes::{DenoteFault, NodeFault, Nodes, Role, Roles, denote};
pub use rdf_scans::{OutlineFault, outline};
