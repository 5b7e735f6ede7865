//! A law of how many triples a graph has, as a function that does nothing.

ghost use Rattle.std.specs.Prelude.{◌+◌, ◌*◌, ◌^◌, ◌≤◌, length};
ghost use Rattle.owl_tree.specs.Ontologies.{Ontology};
ghost use Rattle.rdf_mapping.specs.GraphEntries.{made_nodes};
ghost use Rattle.rdf_mapping.specs.Graphs.{graph_of, groups_of, labels_of};
ghost use Rattle.rdf_counts.specs.Counts.{groups_drawn};

/// Law: the graph of an ontology has as many triples as the nodes of its axioms'
/// expressions have, at least, where it has no more labels and other blank nodes
/// than there are fresh labels that are known to differ.
pub fn graphs_have_their_expressions()
    ensures { (o : Ontology) → made_nodes o + length (labels_of o) ≤ 9 * 10 ^ 18
        → groups_drawn (groups_of o.axioms) ≤ length (graph_of o) }
{}
