//! The word that a triple carries.

ghost use Rattle.std.specs.Prelude.{◌≡◌, ◌↔◌, true, false, Some};
ghost use Rattle.rdf_graph.specs.declared.term.Term.TheVariants as held;
ghost use Rattle.rdf_meaning.specs.declared.word.Word.{Word};
ghost use Rattle.rdf_meaning.specs.Nodes.{carries, is_iri, is_same};
ghost use Rattle.rdf_meaning.specs.Words.{is_type, word_iri};
ghost use Rattle.rdf_rows.specs.Carrying.{may_have};

use crate::iris::{has_iri, is_type_iri};
use rdf_graph::{Term, Triple};
use rdf_meaning::{Word, class_word, predicate_word};

/// The word that the triple carries: rdf:type and its class, or its predicate
/// (Mapping to RDF Graphs, section 3). Takes no memory.
pub fn carried_word(triple: &Triple) -> Option<Word>
    ensures { (w : Word) → (carries w triple.now ≡ true) ↔ (result ≡ Some w) }
{
    if is_type_iri(&triple.predicate) {
        word_of_class(&triple.object)
    } else {
        word_of_link(triple)
    }
}

/// Whether the triple carries the word. Takes no memory.
pub fn carries(triple: &Triple, word: Word) -> bool
    ensures { result ≡ carries word triple.now }
{
    if word.is_type() {
        is_type_iri(&triple.predicate) && is_class(&triple.object, word)
    } else {
        has_iri(&triple.predicate, word) && may_have(word, &triple.object)
    }
}

/// The word that is the class.
pub(crate) fn word_of_class(class: &Term) -> Option<Word>
    ensures { (w : Word) →
        ((is_type w ≡ true) × (class.now ≡ held.Iri (word_iri w))) ↔ (result ≡ Some w) }
{
    match class {
        Term::Iri(iri) => class_word(iri),
        Term::Blank(_) | Term::Literal(_) => None,
    }
}

/// The word that the triple carries by its predicate.
fn word_of_link(triple: &Triple) -> Option<Word>
    ensures { (w : Word) →
        ((is_type w ≡ false) × (carries w triple.now ≡ true)) ↔ (result ≡ Some w) }
{
    let word = predicate_word(&triple.predicate)?;
    if may_have(word, &triple.object) {
        Some(word)
    } else {
        None
    }
}

/// Whether the object may stand beside the predicate: an inverse is that of a
/// named property.
#[tactic(auto, unfolding(crate::specs::Carrying::may_have))]
fn may_have(word: Word, object: &Term) -> bool
    ensures { result ≡ may_have word object.now }
{
    word != Word::InverseOf || is_iri(object)
}

/// Whether the term is an IRI.
fn is_iri(term: &Term) -> bool
    ensures { result ≡ is_iri term.now }
{
    match term {
        Term::Iri(_) => true,
        Term::Blank(_) | Term::Literal(_) => false,
    }
}

/// Whether the term is the word's IRI.
fn is_class(term: &Term, word: Word) -> bool
    ensures { result ≡ is_same term.now (held.Iri (word_iri word)) }
{
    match term {
        Term::Iri(iri) => has_iri(iri, word),
        Term::Blank(_) | Term::Literal(_) => false,
    }
}
