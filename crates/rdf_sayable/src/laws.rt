//! Laws of what can be said in RDF, as functions that do nothing.

ghost use Rattle.std.specs.Prelude.{◌≡◌, ◌↔◌, Contains};
ghost use Rattle.owl_tree.specs.Equivalence.{IsEquivalent};
ghost use Rattle.owl_tree.specs.Ontologies.{IsSameOntology, Ontology};
ghost use Rattle.owl_tree.specs.Trees.{Tree};
ghost use Rattle.owl_doc.specs.Parts.{Leaf, Part, leaves_in, of_axiom, ontology_leaves};
ghost use Rattle.sayable_parts.specs.Reasons.{Objection};
ghost use Rattle.rdf_sayable.specs.Sayable.{AreSayable, CanSay, CanSayAll, IsFirstUnsayable};

/// Laws: an ontology can be said exactly where its leaves can. So can each part
/// whose leaves are among the leaves of such an ontology.
pub fn saying_depends_on_leaves()
    ensures ontology { (o : Ontology) → CanSayAll o ↔ AreSayable (ontology_leaves o) }
    ensures part { (o : Ontology) (part : Part) →
        ((l : Leaf) → Contains (leaves_in part) l → Contains (ontology_leaves o) l) →
        CanSayAll o → CanSay part }
{}

/// Laws: of axioms or ontologies that are structurally equivalent (Structural
/// Specification, section 2.1) all can be said, or none can.
pub fn equivalent_parts_are_said_alike()
    ensures axioms { (t u : Tree) → IsEquivalent t u → CanSay (of_axiom t) ↔ CanSay (of_axiom u) }
    ensures ontologies { (o p : Ontology) → IsSameOntology o p → CanSayAll o ↔ CanSayAll p }
    ensures first { (o p : Ontology) (part : Part) (why : Objection) →
        IsSameOntology o p → IsFirstUnsayable o part why → IsFirstUnsayable p part why }
{}

/// Laws: an ontology has one first objection at most, and has none where all
/// that it says can be said.
pub fn objections_are_first_once()
    ensures once { (o : Ontology) (part other : Part) (why because : Objection) →
        IsFirstUnsayable o part why → IsFirstUnsayable o other because →
        (part ≡ other) × (why ≡ because) }
    ensures none { (o : Ontology) (part : Part) (why : Objection) →
        IsFirstUnsayable o part why → CanSayAll o → ⊥ }
{}
