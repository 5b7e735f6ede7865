//! An ontology as an RDF graph (Mapping to RDF Graphs, section 2): whether a graph can say it, its
//! normal form, and the graph.
#![tactic(auto)]

mod axiom;
mod below;
mod bounds;
mod drawn;
mod ends;
mod expression;
mod graph;
mod groups;
mod header;
mod labels;
mod notes;
mod statement;
mod writer;

pub use graph::forward;
pub use rdf_normal::{NormFault, is_normal, normal};
pub use rdf_sayable::can;
