//! Laws of what is redundant in the graph of an ontology, as functions that do nothing.

ghost use Rattle.std.specs.Prelude.{◌≡◌, ◌≤◌, ◌+◌, ◌*◌, ◌^◌, length};
ghost use Rattle.owl_arena.specs.Shared.{heaviest};
ghost use Rattle.owl_tree.specs.Ontologies.{IsOntology, Ontology, ontology_weight};
ghost use Rattle.rdf_mapping.specs.GraphEntries.{made_nodes};
ghost use Rattle.rdf_mapping.specs.Graphs.{graph_of, labels_of};
ghost use Rattle.rdf_normal.specs.NormalForms.{normal_form};
ghost use Rattle.rdf_sayable.specs.Sayable.{CanSayAll};
ghost use Rattle.rdf_thin.specs.Thinned.{thinned};

/// Laws: no triple is redundant in the graph of an ontology that is its own normal
/// form, well typed or not, if all of it can be said, and it has no more labels and
/// other blank nodes in its graph than there are fresh labels that are known to
/// differ. Nor is one in the graph of a normal form that weighs at most 2^24, if all of
/// its source can be said.
pub fn graphs_are_thin()
    ensures own { (o : Ontology) → IsOntology o → normal_form o ≡ o → CanSayAll o
        → made_nodes o + length (labels_of o) ≤ 9 * 10 ^ 18
        → thinned (graph_of o) ≡ graph_of o }
    ensures form { (o : Ontology) → IsOntology o → CanSayAll o
        → ontology_weight (normal_form o) ≤ heaviest
        → thinned (graph_of (normal_form o)) ≡ graph_of (normal_form o) }
{}
