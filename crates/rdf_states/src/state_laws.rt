//! Laws of what the graph of an ontology states, as functions that do nothing.

ghost use Rattle.std.specs.Prelude.{◌≤◌, List};
ghost use Rattle.std.specs.List.{AllByRecursion};
ghost use Rattle.owl_arena.specs.Shared.{heaviest};
ghost use Rattle.owl_doc.specs.Entities.{AreWellTyped, entities, entities_of};
ghost use Rattle.owl_kind.specs.Kinds.{Entity};
ghost use Rattle.owl_tree.specs.Ontologies.{IsOntology, Ontology, ontology_weight};
ghost use Rattle.owl_tree.specs.Trees.{kids_of};
ghost use Rattle.rdf_mapping.specs.Graphs.{graph_of};
ghost use Rattle.rdf_meaning.specs.Kinds.{HaveNoClash};
ghost use Rattle.rdf_meaning.specs.Statements.{Says};
ghost use Rattle.rdf_normal.specs.NormalForms.{normal_form};
ghost use Rattle.rdf_sayable.specs.Sayable.{CanSayAll};
ghost use Rattle.rdf_states.specs.Stated.{CanBeStated};

/// Law: the graph of an ontology that is its own normal form says it, so it states
/// it, and no more, under all kinds without a clash by which it is well typed, if
/// all of it can be said.
pub fn graphs_state_their_ontologies()
    ensures { (k : List Entity) (o : Ontology) → CanBeStated k o → Says (graph_of o) k o }
{}

/// Laws: what can be said, or is well typed, is so in normal form. The graph of a
/// normal form that weighs at most 2^24 says it, so it states it, and no more, under
/// all kinds without a clash by which it is well typed, if all of its source can be
/// said.
pub fn normal_forms_are_stated()
    ensures said { (o : Ontology) → CanSayAll o → CanSayAll (normal_form o) }
    ensures typed { (k : List Entity) (o : Ontology)
        → AreWellTyped k (entities_of (kids_of o.annotations))
        → AllByRecursion (λ t. AreWellTyped k (entities t)) o.axioms
        → AreWellTyped k (entities_of (kids_of (normal_form o).annotations))
        × AllByRecursion (λ t. AreWellTyped k (entities t)) (normal_form o).axioms }
    ensures says { (k : List Entity) (o : Ontology) → IsOntology o → CanSayAll o
        → ontology_weight (normal_form o) ≤ heaviest → HaveNoClash k
        → AreWellTyped k (entities_of (kids_of (normal_form o).annotations))
        → AllByRecursion (λ t. AreWellTyped k (entities t)) (normal_form o).axioms
        → Says (graph_of (normal_form o)) k (normal_form o) }
{}
