//! Laws of what a syntax can say, as functions that do nothing.

ghost use Rattle.std.specs.Prelude.{◌≡◌, ◌↔◌, Option};
ghost use Rattle.owl_tree.specs.Ontologies.{IsSameOntology, Ontology};
ghost use Rattle.owl_doc.specs.Parts.{Part};
ghost use Rattle.sayable_parts.specs.Reasons.{Objection};
ghost use Rattle.sayable_parts.specs.Unsaid.{IsFirstUnsaid, SaysAll};

/// Laws: of ontologies that are structurally equivalent (Structural Specification,
/// section 2.1) a syntax can say both or none, and the same part is the first that
/// it cannot say.
pub fn same_ontologies_are_said_alike()
    ensures all { (objection : Part → Option Objection) (o p : Ontology) →
        IsSameOntology o p → SaysAll objection o ↔ SaysAll objection p }
    ensures first { (objection : Part → Option Objection) (o p : Ontology) (part : Part) (why : Objection) →
        IsSameOntology o p → IsFirstUnsaid objection o part why →
        IsFirstUnsaid objection p part why }
{}

/// Laws: of an ontology a syntax cannot say one first part at most, for one reason,
/// and none where it can say all.
pub fn first_is_one()
    ensures once { (objection : Part → Option Objection) (o : Ontology)
        (part other : Part) (why because : Objection) →
        IsFirstUnsaid objection o part why → IsFirstUnsaid objection o other because →
        (part ≡ other) × (why ≡ because) }
    ensures none { (objection : Part → Option Objection) (o : Ontology) (part : Part) (why : Objection) →
        IsFirstUnsaid objection o part why → SaysAll objection o → ⊥ }
{}
