//! Laws of how many nodes the graph of an ontology has, as functions that do
//! nothing.

ghost use Rattle.std.specs.Prelude.{◌≡◌, ◌≤◌, ◌+◌, ◌*◌, ◌^◌, length};
ghost use Rattle.owl_arena.specs.Shared.{heaviest};
ghost use Rattle.owl_tree.specs.Ontologies.{Ontology, canonical_list, ontology_weight};
ghost use Rattle.rdf_mapping.specs.GraphEntries.{made_nodes};
ghost use Rattle.rdf_mapping.specs.Graphs.{labels_of};

/// Law: an ontology in canonical form that is not too heavy has no more labels
/// and other blank nodes in its graph than there are fresh labels that are known
/// to differ.
pub fn graphs_have_few_nodes()
    ensures { (o : Ontology) → ontology_weight o ≤ heaviest
        → canonical_list o.annotations ≡ o.annotations → canonical_list o.axioms ≡ o.axioms
        → made_nodes o + length (labels_of o) ≤ 9 * 10 ^ 18 }
{}
