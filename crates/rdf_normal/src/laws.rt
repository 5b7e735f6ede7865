//! The laws of normal forms.

ghost use Rattle.owl_doc.specs.Entities.{Declares};
ghost use Rattle.owl_kind.specs.declared.kind.Kind.{Kind};
ghost use Rattle.std.specs.Prelude.{◌≡◌, ◌↔◌, List, ℕ, ◌⊎◌, Contains};
ghost use Rattle.owl_tree.specs.declared.atom.Atom.{Atom};
ghost use Rattle.owl_tree.specs.declared.tag.Tag.{Tag};
ghost use Rattle.owl_tree.specs.Ontologies.{IsOntology, Ontology};
ghost use Rattle.owl_tree.specs.Trees.{Tree};
ghost use Rattle.rdf_normal.specs.NormalForms.{normal_form, tidied, unsettled_annotations, unsettled_axioms};
ghost use Rattle.rdf_normal.specs.Tidied.{HasLeafIn, IsSaidFully, IsTidiedOf};

/// Laws: each axiom that stands behind the third step is in the normal form when
/// it is tidied, or is bare and another one there says it with annotations; and
/// nothing else is there. So it is with annotations of the ontology.
pub fn what_is_kept()
    ensures axioms { (o : Ontology) (t : Tree) → Contains (unsettled_axioms o) t
        → Contains (normal_form o).axioms (tidied t)
        ⊎ IsSaidFully (normal_form o).axioms (tidied t) }
    ensures no_other_axioms { (o : Ontology) (u : Tree) → Contains (normal_form o).axioms u
        → IsTidiedOf (unsettled_axioms o) u }
    ensures annotations { (o : Ontology) (t : Tree) → Contains (unsettled_annotations o) t
        → Contains (normal_form o).annotations (tidied t)
        ⊎ IsSaidFully (normal_form o).annotations (tidied t) }
    ensures no_other_annotations { (o : Ontology) (u : Tree)
        → Contains (normal_form o).annotations u → IsTidiedOf (unsettled_annotations o) u }
{}

/// Laws: each leaf of the normal form is one of the ontology. So what all leaves
/// of an ontology meet, as a test of names or of kinds, those of its normal form
/// meet.
pub fn leaves_stay()
    ensures axioms { (o : Ontology) (t : Tag) (a : Atom) → HasLeafIn (normal_form o).axioms t a
        → HasLeafIn o.axioms t a }
    ensures annotations { (o : Ontology) (t : Tag) (a : Atom)
        → HasLeafIn (normal_form o).annotations t a
        → HasLeafIn o.annotations t a ⊎ HasLeafIn o.axioms t a }
{}

/// Laws: a normal form declares all that the ontology declares, and nothing else.
pub fn declarations_stay()
    ensures { (o : Ontology) (kind : Kind) (iri : List ℕ)
        → Declares (normal_form o) kind iri ↔ Declares o kind iri }
{}

/// Law: the normal form of a normal form is that form.
pub fn normal_forms_stay()
    ensures { (o : Ontology) → IsOntology o → normal_form (normal_form o) ≡ normal_form o }
{}

/// Law: the normal form of an ontology is an ontology (Structural Specification,
/// section 3).
pub fn normal_forms_are_ontologies()
    ensures { (o : Ontology) → IsOntology o → IsOntology (normal_form o) }
{}
