//! What an ontology is as an RDF graph (Mapping to RDF Graphs, section 2): the graph, its laws, and
//! the terms and rows that it is made of.
#![tactic(auto)]

mod graph_laws;
mod laws;
mod note_laws;
mod rows;
mod words;

pub use graph_laws::{
    annotations_are_no_axioms, axioms_are_main_triples, forms_make_their_nodes, graphs_are_sorted,
    graphs_hold_what_is_made, headers_are_read_back, properties_are_free, roles_are_read_back,
    rows_make_their_nodes, trees_make_their_nodes,
};
pub use laws::{
    axioms_are_told_by_their_triples, axioms_with_nodes_are_drawn, expressions_have_rows,
    forms_are_kept_apart, graphs_keep_their_groups, groups_are_kept_apart, leaves_are_drawn,
    linked_axioms_are_drawn, lists_are_drawn, nodes_are_by_their_own_triples, nodes_are_drawn,
    nodes_are_of_the_rows_that_they_spell, parts_are_drawn, statements_are_kept, trees_are_drawn,
    trees_are_written_as_equivalent_ones,
};
pub use note_laws::{
    annotation_properties_make_no_node, annotation_sets_are_read_back,
    annotation_trees_are_read_back, annotations_are_read_back, entries_are_read_back,
    graphs_are_drawn_by_entries, graphs_have_their_entries, groups_are_of_axioms,
    groups_have_their_places, noters_are_of_entries, notes_are_drawn_by_entries, others_are_aside,
};
pub use rows::{row_for, singles};
pub use words::{arc_iri, nil, number_literal, true_literal, type_iri, word_iri};
