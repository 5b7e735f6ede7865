//! Each axiom of an ontology is read back from its triples (Mapping to RDF Graphs, sections 2.1 and
//! 3.2), as laws.
#![tactic(auto)]

mod laws;

pub use laws::{
    axioms_are_read_back, axioms_are_well_drawn, axioms_have_rows,
    axioms_of_normal_forms_are_sayable,
};
