//! The laws of normal forms for Manchester Syntax, as functions that do nothing.

ghost use Rattle.std.specs.Prelude.{◌≡◌, List};
ghost use Rattle.man_resolve.specs.Expressions.{Knows, knows};
ghost use Rattle.man_sayable.specs.Sayable.{CanSayAll};
ghost use Rattle.man_text.specs.Blocks.{normal_form};
ghost use Rattle.man_text.specs.Readable.{CanBeWritten, IsTypedUnder};
ghost use Rattle.owl_kind.specs.Kinds.{Entity};
ghost use Rattle.owl_tree.specs.Ontologies.{IsOntology, Ontology, canonical_ontology};

/// Laws: the normal form of an ontology in canonical form is an ontology
/// (Structural Specification, section 3), and its own normal form. Where all that
/// the ontology says can be said, its normal form can be written, and where all
/// that it names is well typed, so is all that its normal form names.
pub fn normal_forms_can_be_written()
    ensures ontologies { (ks : Knows) (o : Ontology) →
        IsOntology o → canonical_ontology o ≡ o →
        IsOntology (canonical_ontology (normal_form ks o)) }
    ensures stay { (ks : Knows) (o : Ontology) →
        IsOntology o → canonical_ontology o ≡ o →
        canonical_ontology (normal_form ks (canonical_ontology (normal_form ks o)))
        ≡ canonical_ontology (normal_form ks o) }
    ensures said { (kinds : List Entity) (o : Ontology) →
        IsOntology o → canonical_ontology o ≡ o → CanSayAll kinds o →
        CanBeWritten kinds (canonical_ontology (normal_form (knows kinds) o)) }
    ensures typed { (kinds : List Entity) (o : Ontology) →
        IsOntology o → canonical_ontology o ≡ o → IsTypedUnder kinds o →
        IsTypedUnder kinds (canonical_ontology (normal_form (knows kinds) o)) }
{}
