//! What the nodes and the triples of an RDF graph mean (Mapping to RDF Graphs).
#![tactic(auto)]

mod laws;
mod role;
mod row;
mod rows;
mod word;
mod words;

pub use laws::{
    annotations_are_of_triples, axioms_are_of_triples_and_nodes, denoted_nodes_are_grounded,
    denoted_nodes_are_sound, graphs_are_worked_out, graphs_state_one_ontology,
    kinds_are_told_apart, nodes_are_by_their_triples, rows_are_complete, rows_give_shapes,
    terms_denote_one_tree, words_are_told_apart,
};
pub use role::Role;
pub use row::{Part, Place, Row, Site, Want};
pub use rows::{axiom_rows, node_rows};
pub use word::Word;
pub use words::{axiom_predicates, axiom_types, class_word, predicate_word, words_of};
