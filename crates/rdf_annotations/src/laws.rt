//! Laws of the annotations of a graph, as functions that do nothing.

ghost use Rattle.std.specs.Prelude.{◌≡◌, ◌∷◌, [], IsTrue, List};
ghost use Rattle.owl_kind.specs.Kinds.{Entity};
ghost use Rattle.rdf_graph.specs.declared.term.Term.{Term};
ghost use Rattle.rdf_graph.specs.declared.triple.Triple.{Triple};
ghost use Rattle.rdf_meaning.specs.Nodes.{role_of};
ghost use Rattle.rdf_meaning.specs.Statements.{header_notes, headers, notes_of, is_noted};
ghost use Rattle.rdf_roles.specs.Refusals.{AreNodesFormed};
ghost use Rattle.rdf_annotations.specs.Annotations.{annotations_at};

/// Laws: the annotations that stand at a reification, or at a node that stands
/// for an axiom, are all its triples but those that make it what it is; those at
/// the header are the annotations of the ontology.
pub fn annotations_are_of_their_nodes()
    ensures nodes { (g : List Triple) (k : List Entity) (header x : Term) → headers g ≡ header ∷ []
        → AreNodesFormed g → IsTrue (is_noted (role_of g x))
        → annotations_at g k header x ≡ notes_of g x }
    ensures header { (g : List Triple) (k : List Entity) (header : Term)
        → header_notes g k header ≡ annotations_at g k header header }
{}
