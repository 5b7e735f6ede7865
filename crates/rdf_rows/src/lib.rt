//! What a triple, and the triples of one node, say by themselves under the
//! mapping of graphs to ontologies (Mapping to RDF Graphs, section 3).
#![tactic(auto)]

mod carried;
mod chosen;
mod fits;
mod iris;
mod laws;
mod literals;
mod roles;
mod site;

pub use carried::{carried_word, carries};
pub use chosen::{cell, is_reification, next_object, only_facet, only_object};
pub use fits::NodeWords;
pub use iris::{has_iri, is_facet, is_nil, is_nil_iri, is_spelled, is_type_iri};
pub use laws::{nodes_are_told_by_their_triples, only_ones_are_told};
pub use literals::{Cardinality, cardinality_of, is_digits, is_true};
pub use roles::{Marked, is_own, marked_role};
pub use site::site_of;
