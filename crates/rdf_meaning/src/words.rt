//! Words by their IRIs, and the words of each role and of axioms.

ghost use Rattle.std.specs.Prelude.{◌≡◌, false, true};
ghost use Rattle.std.specs.List.{find};
ghost use Rattle.std.specs.Str.{bytes_eq};
ghost use Rattle.rdf_meaning.specs.Denotation.{axiom_predicates, axiom_types};
ghost use Rattle.rdf_meaning.specs.Nodes.{words_of};
ghost use Rattle.rdf_meaning.specs.WordIris.{IsWordOf, word_in};
ghost use Rattle.rdf_meaning.specs.Words.{word_iri};

use crate::role::Role;
use crate::word::Word;
use rdf_terms::Iri;

/// The front of the IRIs of all words.
const FRONT: &str = "http://www.w3.org/";

/// The words that are classes.
const CLASSES: [Word; 21] = [
    Word::Class,
    Word::Datatype,
    Word::ObjectProperty,
    Word::DatatypeProperty,
    Word::AnnotationProperty,
    Word::NamedIndividual,
    Word::FunctionalProperty,
    Word::InverseFunctionalProperty,
    Word::ReflexiveProperty,
    Word::IrreflexiveProperty,
    Word::SymmetricProperty,
    Word::AsymmetricProperty,
    Word::TransitiveProperty,
    Word::Restriction,
    Word::AllDisjointClasses,
    Word::AllDisjointProperties,
    Word::AllDifferent,
    Word::NegativePropertyAssertion,
    Word::Axiom,
    Word::Annotation,
    Word::Ontology,
];

/// The words that are predicates. Those that most graphs have stand in front.
const PREDICATES: [Word; 48] = [
    Word::SubClassOf,
    Word::OnProperty,
    Word::SomeValuesFrom,
    Word::First,
    Word::Rest,
    Word::EquivalentClass,
    Word::IntersectionOf,
    Word::AllValuesFrom,
    Word::UnionOf,
    Word::DisjointWith,
    Word::SubPropertyOf,
    Word::Domain,
    Word::Range,
    Word::InverseOf,
    Word::HasValue,
    Word::OneOf,
    Word::AnnotatedSource,
    Word::AnnotatedProperty,
    Word::AnnotatedTarget,
    Word::OnClass,
    Word::Members,
    Word::ComplementOf,
    Word::OnProperties,
    Word::HasSelf,
    Word::MinCardinality,
    Word::MaxCardinality,
    Word::Cardinality,
    Word::MinQualifiedCardinality,
    Word::MaxQualifiedCardinality,
    Word::QualifiedCardinality,
    Word::OnDataRange,
    Word::DatatypeComplementOf,
    Word::OnDatatype,
    Word::WithRestrictions,
    Word::DistinctMembers,
    Word::SourceIndividual,
    Word::AssertionProperty,
    Word::TargetIndividual,
    Word::TargetValue,
    Word::VersionIri,
    Word::Imports,
    Word::DisjointUnionOf,
    Word::HasKey,
    Word::PropertyChainAxiom,
    Word::EquivalentProperty,
    Word::PropertyDisjointWith,
    Word::SameAs,
    Word::DifferentFrom,
];

// The words of each role's own triples.

const LIST_WORDS: [Word; 2] = [Word::First, Word::Rest];

const PROPERTY_WORDS: [Word; 1] = [Word::InverseOf];

const CLASS_WORDS: [Word; 20] = [
    Word::Class,
    Word::Restriction,
    Word::IntersectionOf,
    Word::UnionOf,
    Word::ComplementOf,
    Word::OneOf,
    Word::OnProperty,
    Word::OnProperties,
    Word::SomeValuesFrom,
    Word::AllValuesFrom,
    Word::HasValue,
    Word::HasSelf,
    Word::MinCardinality,
    Word::MaxCardinality,
    Word::Cardinality,
    Word::MinQualifiedCardinality,
    Word::MaxQualifiedCardinality,
    Word::QualifiedCardinality,
    Word::OnClass,
    Word::OnDataRange,
];

const RANGE_WORDS: [Word; 7] = [
    Word::Datatype,
    Word::IntersectionOf,
    Word::UnionOf,
    Word::DatatypeComplementOf,
    Word::OneOf,
    Word::OnDatatype,
    Word::WithRestrictions,
];

const MAIN_WORDS: [Word; 10] = [
    Word::AllDisjointClasses,
    Word::AllDisjointProperties,
    Word::AllDifferent,
    Word::NegativePropertyAssertion,
    Word::Members,
    Word::DistinctMembers,
    Word::SourceIndividual,
    Word::AssertionProperty,
    Word::TargetIndividual,
    Word::TargetValue,
];

const NOTE_WORDS: [Word; 5] = [
    Word::Axiom,
    Word::Annotation,
    Word::AnnotatedSource,
    Word::AnnotatedProperty,
    Word::AnnotatedTarget,
];

/// Classes that say, as an object of rdf:type, which axiom a triple is.
const AXIOM_TYPES: [Word; 13] = [
    Word::Class,
    Word::Datatype,
    Word::ObjectProperty,
    Word::DatatypeProperty,
    Word::AnnotationProperty,
    Word::NamedIndividual,
    Word::FunctionalProperty,
    Word::InverseFunctionalProperty,
    Word::ReflexiveProperty,
    Word::IrreflexiveProperty,
    Word::SymmetricProperty,
    Word::AsymmetricProperty,
    Word::TransitiveProperty,
];

/// Predicates that say it.
const AXIOM_PREDICATES: [Word; 14] = [
    Word::SubClassOf,
    Word::EquivalentClass,
    Word::DisjointWith,
    Word::DisjointUnionOf,
    Word::HasKey,
    Word::SubPropertyOf,
    Word::PropertyChainAxiom,
    Word::EquivalentProperty,
    Word::PropertyDisjointWith,
    Word::InverseOf,
    Word::Domain,
    Word::Range,
    Word::SameAs,
    Word::DifferentFrom,
];

/// The word that is a class with this IRI. Takes no memory.
pub fn class_word(iri: &Iri) -> Option<Word>
    ensures { IsWordOf true iri.now result }
{
    word_in(&CLASSES, iri.text())
}

/// The word that is a predicate with this IRI. Takes no memory.
pub fn predicate_word(iri: &Iri) -> Option<Word>
    ensures { IsWordOf false iri.now result }
{
    word_in(&PREDICATES, iri.text())
}

/// The word of these with this IRI.
fn word_in(words: &[Word], iri: &str) -> Option<Word>
    ensures { result ≡ word_in words.now iri.now }
{
    if iri.starts_with(FRONT) {
        find_word(words, iri)
    } else {
        None
    }
}

fn find_word(words: &[Word], iri: &str) -> Option<Word>
    ensures { result ≡ find (λ w. bytes_eq (word_iri w) iri.now) words.now }
{
    words.iter().copied().find(|word| word.iri() == iri)
}

/// The words of the role's own triples.
#[tactic(auto, unfolding(crate::specs::Nodes::words_of))]
pub fn words_of(role: Role) -> &'static [Word]
    ensures { result.now ≡ words_of role }
{
    match role {
        Role::List => &LIST_WORDS,
        Role::Property => &PROPERTY_WORDS,
        Role::Class => &CLASS_WORDS,
        Role::Range => &RANGE_WORDS,
        Role::Main => &MAIN_WORDS,
        Role::Note => &NOTE_WORDS,
        Role::Facet | Role::Header | Role::Individual => &[],
    }
}

/// The classes that say, as an object of rdf:type, which axiom a triple is
/// (Mapping to RDF Graphs, table 16).
#[tactic(auto, unfolding(crate::specs::Denotation::axiom_types))]
pub fn axiom_types() -> &'static [Word]
    ensures { result.now ≡ axiom_types }
{
    &AXIOM_TYPES
}

/// The predicates that say it.
#[tactic(auto, unfolding(crate::specs::Denotation::axiom_predicates))]
pub fn axiom_predicates() -> &'static [Word]
    ensures { result.now ≡ axiom_predicates }
{
    &AXIOM_PREDICATES
}
