//! What is wrong with an RDF graph that says no ontology, as definitions and laws
//! (Mapping to RDF Graphs, section 3).
#![tactic(auto)]

mod laws;

pub use laws::{
    faults_are_worked_out, firsts_are_one, graphs_without_faults_say_an_ontology,
    headers_have_no_fault, nodes_are_formed, nodes_are_meant, nodes_belong, nodes_have_their_form,
    nodes_without_a_cycle_are_grounded, triples_have_no_fault,
};
