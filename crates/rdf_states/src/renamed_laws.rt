//! Laws of what graphs whose blank nodes got other labels state, as functions that do nothing.

ghost use Rattle.std.specs.Prelude.{◌≡◌, ◌≤◌, ◌↔◌, ℕ, List, Contains, map};
ghost use Rattle.std.specs.List.{AllByRecursion};
ghost use Rattle.owl_arena.specs.Shared.{heaviest};
ghost use Rattle.owl_doc.specs.Entities.{AreWellTyped, entities, entities_of};
ghost use Rattle.owl_kind.specs.Kinds.{Entity};
ghost use Rattle.owl_list.specs.Ascending.{AreApart};
ghost use Rattle.owl_tree.specs.Ontologies.{IsOntology, Ontology, ontology_weight};
ghost use Rattle.owl_tree.specs.Trees.{kids_of};
ghost use Rattle.rdf_graph.specs.declared.term.Term.TheVariants.{Blank};
ghost use Rattle.rdf_graph.specs.declared.triple.Triple.{Triple};
ghost use Rattle.rdf_mapping.specs.Graphs.{graph_of, labels_of};
ghost use Rattle.rdf_meaning.specs.Kinds.{HaveNoClash};
ghost use Rattle.rdf_meaning.specs.Nodes.{role_of};
ghost use Rattle.rdf_meaning.specs.Statements.{Says};
ghost use Rattle.rdf_meaning.specs.declared.role.Role.TheVariants as role;
ghost use Rattle.rdf_normal.specs.NormalForms.{normal_form};
ghost use Rattle.rdf_sayable.specs.Sayable.{CanSayAll};
ghost use Rattle.rdf_thin.specs.Thinned.{thinned};
ghost use Rattle.rdf_states.specs.Renamed.{IsRenaming, renamed};
ghost use Rattle.rdf_states.specs.Stated.{CanBeDrawn, CanBeStated};

/// Laws: in the graph of an ontology that is its own normal form the labels of the
/// ontology are those of individuals. Where each of these labels stays, and the other
/// blank nodes of the graph get any labels, so that nodes that differ get labels that
/// do, it still says the ontology.
pub fn renamed_graphs_state_their_ontologies()
    ensures labels { (k : List Entity) (o : Ontology) → CanBeDrawn k o → (label : List ℕ)
        → Contains (labels_of o) label → role_of (graph_of o) (Blank label) ≡ role.Individual }
    ensures says { (k : List Entity) (o : Ontology) (rename : List ℕ → List ℕ) (g : List Triple)
        → CanBeStated k o → IsRenaming rename (graph_of o) (labels_of o) → AreApart g
        → ((t : Triple) → Contains g t ↔ Contains (map (renamed rename) (graph_of o)) t)
        → Says g k o }
{}

/// Laws: and so it is with the graph of a normal form that weighs at most 2^24, if all
/// of its source can be said. No triple is redundant under the other labels either.
pub fn renamed_normal_forms_are_stated()
    ensures labels { (o : Ontology) → IsOntology o → CanSayAll o
        → ontology_weight (normal_form o) ≤ heaviest → (label : List ℕ)
        → Contains (labels_of (normal_form o)) label
        → role_of (graph_of (normal_form o)) (Blank label) ≡ role.Individual }
    ensures says { (k : List Entity) (o : Ontology) → IsOntology o → CanSayAll o
        → ontology_weight (normal_form o) ≤ heaviest → HaveNoClash k
        → AreWellTyped k (entities_of (kids_of (normal_form o).annotations))
        → AllByRecursion (λ t. AreWellTyped k (entities t)) (normal_form o).axioms
        → (rename : List ℕ → List ℕ) (g : List Triple)
        → IsRenaming rename (graph_of (normal_form o)) (labels_of (normal_form o)) → AreApart g
        → ((t : Triple)
        → Contains g t ↔ Contains (map (renamed rename) (graph_of (normal_form o))) t)
        → Says g k (normal_form o) }
    ensures thin { (k : List Entity) (o : Ontology) → IsOntology o → CanSayAll o
        → ontology_weight (normal_form o) ≤ heaviest → HaveNoClash k
        → AreWellTyped k (entities_of (kids_of (normal_form o).annotations))
        → AllByRecursion (λ t. AreWellTyped k (entities t)) (normal_form o).axioms
        → (rename : List ℕ → List ℕ) (g : List Triple)
        → IsRenaming rename (graph_of (normal_form o)) (labels_of (normal_form o)) → AreApart g
        → ((t : Triple)
        → Contains g t ↔ Contains (map (renamed rename) (graph_of (normal_form o))) t)
        → thinned g ≡ g }
{}
