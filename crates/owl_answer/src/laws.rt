//! Laws of what is answered, as functions that do nothing.

ghost use Rattle.std.specs.Prelude.{◌≡◌, ◌↔◌, ℕ, List};
ghost use Rattle.owl_command.specs.Commands.{Source};
ghost use Rattle.owl_command.specs.declared.command.Layout.{Layout};
ghost use Rattle.owl_answer.specs.Guessing.{AreWithGuesses};
ghost use Rattle.owl_answer.specs.KindsAt.{AreClosureKinds};
ghost use Rattle.owl_answer.specs.ManchesterOutcome.{IsManchesterTranslation};
ghost use Rattle.owl_answer.specs.TurtleOutcome.{IsTurtleTranslation};
ghost use Rattle.owl_answer.specs.Typing.{AllAreWellTyped, DeclareSame, IsFirstUntyped};
ghost use Rattle.owl_answer.specs.Unreached.{UnreachedChangeNothing};
ghost use Rattle.owl_kind.specs.Kinds.{Entity, IsFirstClash};
ghost use Rattle.owl_documents.specs.Documents.{AreRead, Contents, IsSame, Parsed, Said};
ghost use Rattle.owl_tree.specs.Ontologies.{IsSameOntology, Ontology};
ghost use Rattle.owl_doc.specs.Parts.{Part};
ghost use Rattle.owl_messages.specs.Outcome.{Outcome};

/// A law: what becomes of documents that are read is the same, whatever a
/// document says that the main one does not reach.
pub fn unreached_documents_change_nothing()
    ensures { UnreachedChangeNothing }
{}

/// Law: guesses make no clash. Of documents that are read the same clash comes first,
/// with what is guessed of them and without.
pub fn guesses_make_no_clash()
    ensures { (contents : Contents) (sources : List Source) (documents guessed : List Parsed)
        (kinds more : List Entity) → AreRead contents sources documents →
        AreWithGuesses documents guessed → AreClosureKinds documents kinds →
        AreClosureKinds guessed more → (iri : List ℕ) →
        IsFirstClash more iri ↔ IsFirstClash kinds iri }
{}

/// Laws: there is one first clash at most. There is one first part at most that
/// is not well typed, and one first entity in it, and none where all are well
/// typed.
pub fn typing_is_refused_once()
    ensures clash { (kinds : List Entity) (iri other : List ℕ) →
        IsFirstClash kinds iri → IsFirstClash kinds other → iri ≡ other }
    ensures untyped { (kinds : List Entity) (o : Ontology) (part other : Part) (e f : Entity) →
        IsFirstUntyped kinds o part e → IsFirstUntyped kinds o other f → (part ≡ other) × (e ≡ f) }
    ensures none { (kinds : List Entity) (o : Ontology) (part : Part) (e : Entity) →
        IsFirstUntyped kinds o part e → AllAreWellTyped kinds o → ⊥ }
{}

/// Laws: of ontologies that are structurally equivalent (Structural
/// Specification, section 2.1) all are well typed, or none is, and then the
/// same part comes first.
pub fn equivalent_ontologies_are_typed_alike()
    ensures typed { (kinds : List Entity) (o p : Ontology) →
        IsSameOntology o p → AllAreWellTyped kinds o → AllAreWellTyped kinds p }
    ensures untyped { (kinds : List Entity) (o p : Ontology) (part : Part) (e : Entity) →
        IsSameOntology o p → IsFirstUntyped kinds o part e → IsFirstUntyped kinds p part e }
{}

/// Laws: where the same is declared, the same clash comes first, the same is
/// well typed, and the same part that is not comes first.
pub fn typing_depends_on_what_is_declared()
    ensures clash { (kinds others : List Entity) (iri : List ℕ) →
        DeclareSame kinds others → IsFirstClash kinds iri → IsFirstClash others iri }
    ensures typed { (kinds others : List Entity) (o : Ontology) →
        DeclareSame kinds others → AllAreWellTyped kinds o → AllAreWellTyped others o }
    ensures untyped { (kinds others : List Entity) (o : Ontology) (part : Part) (e : Entity) →
        DeclareSame kinds others → IsFirstUntyped kinds o part e → IsFirstUntyped others o part e }
{}

/// Laws: one thing at most becomes of a document that is translated to Turtle.
/// It depends on what the kinds declare, on the document's prefixes, and on its
/// ontology up to structural equivalence (Structural Specification, section
/// 2.1), and on nothing else.
pub fn turtle_translations_are_one()
    ensures once { (layout : Layout) (kinds : List Entity) (main : Said) (outcome other : Outcome)
        → IsTurtleTranslation layout kinds main outcome
        → IsTurtleTranslation layout kinds main other → outcome ≡ other }
    ensures same { (layout : Layout) (kinds others : List Entity) (main other : Said)
        (outcome : Outcome) → DeclareSame kinds others → IsSame main other
        → IsTurtleTranslation layout kinds main outcome
        → IsTurtleTranslation layout others other outcome }
{}

/// Laws: one thing at most becomes of a document that is translated to Manchester
/// Syntax. It depends on what the kinds declare, on the document's prefixes, and
/// on its ontology up to structural equivalence, and on nothing else.
pub fn manchester_translations_are_one()
    ensures once { (kinds : List Entity) (main : Said) (outcome other : Outcome) →
        IsManchesterTranslation kinds main outcome → IsManchesterTranslation kinds main other →
        outcome ≡ other }
    ensures same { (kinds others : List Entity) (main other : Said) (outcome : Outcome) →
        DeclareSame kinds others → IsSame main other →
        IsManchesterTranslation kinds main outcome →
        IsManchesterTranslation others other outcome }
{}
