//! Annotation properties that are guessed.

ghost use Rattle.std.specs.Prelude.{◌≡◌, IfOk};
ghost use Rattle.rdf_faults.specs.Faults.{is_property};
ghost use Rattle.rdf_reverse.specs.Guesses.{guessed, may_be_guessed};
ghost use Rattle.rdf_thin.specs.Thinned.{thinned};

use owl_characters::NoMemory;
use owl_kind::{Kind, Kinds};
use owl_list::arrange;
use rdf_asked::has_kind;
use rdf_graph::Graph;
use rdf_terms::{Iri, reserved};
use std::alloc::{AllocError, Global};

/// The annotation properties that are guessed of the graph, where IRIs have these
/// kinds: its predicates that are not reserved (Structural Specification, section
/// 2.4) and are no properties, each once, in order of bytes.
pub fn guess(alloc: Global, graph: &Graph, kinds: &Kinds) -> Result<Vec<Iri>, NoMemory>
    ensures { IfOk result (λ names. names.items ≡ guessed (thinned graph.now) kinds.now) }
{
    let mut names = Vec::new(alloc);
    'triples: for triple in graph.triples() {
        if may_be_guessed(kinds, &triple.predicate) {
            let name = triple.predicate.copy(alloc)?;
            names.push(name).map_err(AllocError::from)?;
        }
    }
    arrange(&mut names);
    Ok(names)
}

/// Whether the IRI may be guessed to be an annotation property.
fn may_be_guessed(kinds: &Kinds, iri: &Iri) -> bool
    ensures { result ≡ may_be_guessed kinds.now iri.now }
{
    !reserved(iri) && !is_property(kinds, iri)
}

/// Whether the IRI is a property of some kind.
fn is_property(kinds: &Kinds, iri: &Iri) -> bool
    ensures { result ≡ is_property kinds.now iri.now }
{
    has_kind(kinds, Kind::ObjectProperty, iri)
        || has_kind(kinds, Kind::DataProperty, iri)
        || has_kind(kinds, Kind::AnnotationProperty, iri)
}
