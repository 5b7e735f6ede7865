//! Laws of what can be said in Manchester Syntax, as functions that do nothing.

ghost use Rattle.std.specs.Prelude.{◌≡◌, ◌↔◌, Bool, ℕ, List, Some, false, true};
ghost use Rattle.std.specs.List.{AllByRecursion};
ghost use Rattle.owl_doc.specs.Parts.{Part, of_axiom};
ghost use Rattle.owl_kind.specs.declared.kind.Kind.{Kind};
ghost use Rattle.owl_kind.specs.Kinds.{Entity};
ghost use Rattle.owl_tree.specs.declared.atom.Atom.TheVariants as atom;
ghost use Rattle.owl_tree.specs.declared.tag.Tag.TheVariants as tag;
ghost use Rattle.owl_tree.specs.Ontologies.{IsSameOntology, Ontology};
ghost use Rattle.owl_tree.specs.Trees.{Tree, kids_in, leaf, tag_of};
ghost use Rattle.man_raw.specs.declared.form.Facet.{Facet};
ghost use Rattle.man_resolve.specs.Expressions.{Knows, knows};
ghost use Rattle.man_resolve.specs.Places.{facet_iri};
ghost use Rattle.sayable_parts.specs.Reasons.{Objection};
ghost use Rattle.man_sayable.specs.Facets.{facet_named};
ghost use Rattle.man_sayable.specs.FrameKinds.{frame_kind};
ghost use Rattle.man_sayable.specs.Sayable.{CanSay, CanSayAll, IsClear, IsFirstUnsayable, IsUnopposed, are_many, is_data_quantifier};

/// Laws: of ontologies that are structurally equivalent (Structural Specification,
/// section 2.1) all can be said, or of neither, and the same part is the first that
/// can't be said.
pub fn equivalent_ontologies_are_said_alike()
    ensures all { (kinds : List Entity) (o p : Ontology) →
        IsSameOntology o p → CanSayAll kinds o ↔ CanSayAll kinds p }
    ensures first { (kinds : List Entity) (o p : Ontology) (part : Part) (why : Objection) →
        IsSameOntology o p → IsFirstUnsayable kinds o part why →
        IsFirstUnsayable kinds p part why }
{}

/// Laws: an ontology has one first objection at most, and has none where all that
/// it says can be said.
pub fn objections_are_first_once()
    ensures once { (kinds : List Entity) (o : Ontology)
        (part other : Part) (why because : Objection) →
        IsFirstUnsayable kinds o part why → IsFirstUnsayable kinds o other because →
        (part ≡ other) × (why ≡ because) }
    ensures none { (kinds : List Entity) (o : Ontology) (part : Part) (why : Objection) →
        IsFirstUnsayable kinds o part why → CanSayAll kinds o → ⊥ }
{}

/// Laws: an axiom can be said exactly where nothing is to be said against its
/// subject, its frame, and what stands inside. Inside of a tree that is so, each
/// quantifier has one property, and each facet has a word or sign.
pub fn said_axioms_are_clear()
    ensures axiom { (kinds : List Entity) (t : Tree) →
        CanSay kinds (of_axiom t) ↔ IsUnopposed (knows kinds) t }
    ensures kids { (t : Tree) → IsClear t → AllByRecursion IsClear (kids_in t) }
    ensures quantifier { (t : Tree) →
        IsClear t → is_data_quantifier (tag_of t) ≡ true → are_many (kids_in t) ≡ false }
    ensures facet { (iri : List ℕ) → IsClear (leaf tag.Facet (atom.Iri iri)) →
        (f : Facet) × (facet_named iri ≡ Some f) × (facet_iri f ≡ iri) }
{}

/// Laws: the facet that an IRI names has that IRI, and is named by it.
pub fn facets_have_iris()
    ensures named { (iri : List ℕ) (f : Facet) →
        facet_named iri ≡ Some f → facet_iri f ≡ iri }
    ensures each { (f : Facet) → facet_named (facet_iri f) ≡ Some f }
{}

/// Laws: an IRI has the kind of the frame that is found for it, and a frame is found
/// for each IRI that has a kind.
pub fn frames_have_kinds()
    ensures found { (known : Knows) (iri : List ℕ) (kind : Kind) →
        frame_kind known iri ≡ Some kind → known kind iri ≡ true }
    ensures some { (known : Knows) (iri : List ℕ) (kind : Kind) →
        known kind iri ≡ true → (other : Kind) × (frame_kind known iri ≡ Some other) }
{}
