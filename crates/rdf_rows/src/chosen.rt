//! What the triples of one node name.

ghost use Rattle.std.specs.Prelude.{◌≡◌, ◌↔◌, ◌<◌, [], ◌∷◌, IfSome, IsNone, IsTrue, length, option_map};
ghost use Rattle.std.specs.List.{find};
ghost use Rattle.rdf_meaning.specs.Nodes.{carries};
ghost use Rattle.rdf_meaning.specs.declared.word.Word.TheVariants as word;
ghost use Rattle.rdf_rows.specs.Chosen.{IsReificationOf, carriers, facets, has_facet, objects_with, the_cell, the_only};

use crate::carried::carries;
use crate::iris::is_facet;
use rdf_graph::{Term, Triple};
use rdf_meaning::Word;

/// The object of the only one of the triples that carries the word. Takes no
/// memory.
pub fn only_object(triples: &[Triple], word: Word) -> Option<&Term>
    ensures { option_map (λ y. y.now) result ≡ the_only (objects_with word triples.now) }
{
    match first_carrier(triples, word) {
        Some(triple) if count(triples, word) == 1 => Some(&triple.object),
        _ => None,
    }
}

/// The first of the triples that carries the word.
fn first_carrier(triples: &[Triple], word: Word) -> Option<&Triple>
    ensures { option_map (λ t. t.now) result ≡ find (carries word) triples.now }
{
    triples.iter().find(|triple| carries(*triple, word))
}

/// The first object of the triples that carry the word, and the triples behind
/// its own, where the others are. Takes no memory.
pub fn next_object(triples: &[Triple], word: Word) -> Option<(&Term, &[Triple])>
    ensures some { IfSome result (λ next.
        objects_with word triples.now ≡ next.0.now ∷ objects_with word next.1.now) }
    ensures behind { IfSome result (λ next. length next.1.now < length triples.now) }
    ensures none { IsNone result → objects_with word triples.now ≡ [] }
{
    for (place, triple) in triples.iter().enumerate() {
        if carries(triple, word) {
            let (_, behind) = triples.split_at(place + 1);
            return Some((&triple.object, behind));
        }
    }
    None
}

/// The only one of the triples whose predicate is that of a facet. Takes no
/// memory.
pub fn only_facet(triples: &[Triple]) -> Option<&Triple>
    ensures { option_map (λ t. t.now) result ≡ the_only (facets triples.now) }
{
    match first_facet(triples) {
        Some(triple) if count_facets(triples) == 1 => Some(triple),
        _ => None,
    }
}

/// The first of the triples whose predicate is that of a facet.
fn first_facet(triples: &[Triple]) -> Option<&Triple>
    ensures { option_map (λ t. t.now) result ≡ find has_facet triples.now }
{
    triples.iter().find(|triple| has_facet(*triple))
}

/// The first element and the rest of a cell of a list, where the triples have
/// one of each. Takes no memory.
pub fn cell(triples: &[Triple]) -> Option<(&Term, &Term)>
    ensures { option_map (λ cell. (cell.0.now, cell.1.now)) result ≡ the_cell triples.now }
{
    match only_object(triples, Word::First) {
        Some(first) => match only_object(triples, Word::Rest) {
            Some(rest) => Some((first, rest)),
            None => None,
        },
        None => None,
    }
}

/// Whether the triples are those of a reification: one type, source, property
/// and target (Mapping to RDF Graphs, section 2.3). Takes no memory.
pub fn is_reification(triples: &[Triple]) -> bool
    ensures { IsTrue result ↔ IsReificationOf triples.now }
{
    let axioms = count(triples, Word::Axiom);
    let annotations = count(triples, Word::Annotation);
    (axioms == 1 && annotations == 0 || axioms == 0 && annotations == 1)
        && count(triples, Word::AnnotatedSource) == 1
        && count(triples, Word::AnnotatedProperty) == 1
        && count(triples, Word::AnnotatedTarget) == 1
}

/// How many of the triples carry the word.
fn count(triples: &[Triple], word: Word) -> usize
    ensures { result ≡ length (carriers word triples.now) }
{
    triples
        .iter()
        .filter(|triple| carries(*triple, word))
        .count()
}

/// How many of the triples have the predicate of a facet.
fn count_facets(triples: &[Triple]) -> usize
    ensures { result ≡ length (facets triples.now) }
{
    triples.iter().filter(|triple| has_facet(*triple)).count()
}

/// Whether the predicate is that of a facet.
#[tactic(auto, unfolding(crate::specs::Chosen::has_facet))]
fn has_facet(triple: &Triple) -> bool
    ensures { result ≡ has_facet triple.now }
{
    is_facet(&triple.predicate)
}
