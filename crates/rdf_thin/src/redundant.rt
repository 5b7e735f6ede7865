//! Redundant triples.

ghost use Rattle.std.specs.Prelude.{◌≡◌, ◌↔◌, IfOk, IsTrue, not};
ghost use Rattle.std.specs.List.{list_all, list_any};
ghost use Rattle.rdf_graph.specs.declared.term.Term.TheVariants as held;
ghost use Rattle.rdf_meaning.specs.Nodes.{carries_some, is_blank, of_subject};
ghost use Rattle.rdf_thin.specs.Thinned.{is_redundant, thinned, words_beside, words_beside_type};

use owl_characters::NoMemory;
use rdf_graph::{Gather, Graph, GraphFault, Term, Triple};
use rdf_meaning::Word;
use rdf_rows::{carries, has_iri, is_spelled, is_type_iri};
use rdf_terms::{Iri, rdf, rdfs};
use std::alloc::Global;

const ELEMENT_WORDS: [Word; 1] = [Word::First];

const CLASS_WORDS: [Word; 3] = [Word::Class, Word::Datatype, Word::Restriction];

const PROPERTY_WORDS: [Word; 3] = [
    Word::ObjectProperty,
    Word::DatatypeProperty,
    Word::AnnotationProperty,
];

const RESTRICTION_WORDS: [Word; 1] = [Word::Restriction];

const INVERSE_WORDS: [Word; 1] = [Word::InverseOf];

/// The graph without its redundant triples, which are types that tools of OWL 1 write:
/// rdf:List of a blank node that has an rdf:first; rdfs:Class of what is a class, a
/// datatype or a restriction; rdf:Property of what is a property; owl:Class of a blank
/// node that is a restriction; owl:ObjectProperty of a blank node that is the inverse
/// of an IRI. Each is tested in the whole graph.
pub fn thin(alloc: Global, graph: &Graph) -> Result<Graph, NoMemory>
    ensures { IfOk result (λ thin. thin ≡ thinned graph.now) }
{
    let mut gather = Gather::new(alloc);
    'triples: for triple in graph.triples() {
        if !is_redundant(graph, triple) {
            gather.add(triple.copy(alloc)?)?;
        }
    }
    match gather.finish() {
        Ok(graph) => Ok(graph),
        Err(GraphFault::TooMany) => unreachable!(),
        Err(GraphFault::Memory) => Err(NoMemory),
    }
}

/// Whether no triple of the graph is redundant. Takes no memory.
pub fn is_thin(graph: &Graph) -> bool
    ensures { IsTrue result ↔ (thinned graph.now ≡ graph.now) }
{
    none_is_redundant(graph, graph.triples())
}

/// Whether none of the triples is redundant in the graph.
fn none_is_redundant(graph: &Graph, triples: &[Triple]) -> bool
    ensures { result ≡ list_all (λ t. not (is_redundant graph.now t)) triples.now }
{
    triples.iter().all(|triple| !is_redundant(graph, triple))
}

/// Whether the triple is a type that is redundant in the graph.
#[tactic(auto, unfolding(crate::specs::Thinned::is_redundant))]
fn is_redundant(graph: &Graph, triple: &Triple) -> bool
    ensures { result ≡ is_redundant graph.now triple.now }
{
    is_type_iri(&triple.predicate) && is_said_beside(graph, triple)
}

/// Whether another triple of the subject says what the type says, where it is one. Most
/// types are those of IRIs, which none is beside, and so their subjects are not looked up.
fn is_said_beside(graph: &Graph, triple: &Triple) -> bool
    ensures { result ≡ list_any
        (carries_some (words_beside_type triple.now.subject triple.now.object))
        (of_subject graph.now triple.now.subject) }
{
    let words = words_of(triple);
    if words.is_empty() {
        return false;
    }
    has_some(graph.about(&triple.subject), words)
}

/// The words beside which the object, as a type, is redundant.
fn words_of(triple: &Triple) -> &'static [Word]
    ensures { result.now ≡ words_beside_type triple.now.subject triple.now.object }
{
    match &triple.object {
        Term::Iri(class) => words_beside(is_blank(&triple.subject), class),
        Term::Blank(_) | Term::Literal(_) => &[],
    }
}

/// The words beside which the class, as the type of a blank node or of another term, is
/// redundant.
#[tactic(auto, unfolding(crate::specs::Thinned::words_beside))]
fn words_beside(of_blank: bool, class: &Iri) -> &'static [Word]
    ensures { result.now ≡ words_beside of_blank class.now }
{
    if of_blank && is_spelled(class, rdf!("List")) {
        &ELEMENT_WORDS
    } else if is_spelled(class, rdfs!("Class")) {
        &CLASS_WORDS
    } else if is_spelled(class, rdf!("Property")) {
        &PROPERTY_WORDS
    } else if of_blank && has_iri(class, Word::Class) {
        &RESTRICTION_WORDS
    } else if of_blank && has_iri(class, Word::ObjectProperty) {
        &INVERSE_WORDS
    } else {
        &[]
    }
}

fn is_blank(term: &Term) -> bool
    ensures { result ≡ is_blank term.now }
{
    matches!(term, Term::Blank(_))
}

/// Whether one of the triples carries one of the words.
fn has_some(triples: &[Triple], words: &[Word]) -> bool
    ensures { result ≡ list_any (carries_some words.now) triples.now }
{
    triples.iter().any(|triple| carries_some(triple, words))
}

fn carries_some(triple: &Triple, words: &[Word]) -> bool
    ensures { result ≡ carries_some words.now triple.now }
{
    words.iter().any(|word| carries(triple, *word))
}
