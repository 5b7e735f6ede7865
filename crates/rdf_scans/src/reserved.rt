//! Triples that take reserved IRIs for what these aren't.

ghost use Rattle.std.specs.Prelude.{◌≡◌, IfSome, IsNone};
ghost use Rattle.rdf_faults.specs.Faults.{is_property};
ghost use Rattle.rdf_faults.specs.Firsts.{HoldsForNone, IsFirst};
ghost use Rattle.rdf_scans.specs.Reserved.{IsReservedIn, is_reserved, takes_class, takes_declared, takes_property, takes_reserved};
ghost use Rattle.rdf_scans.specs.Sorts.{IsReading};

use crate::declarations::kind_declared;
use crate::reading::Reading;
use crate::sorts::{is_main, sort_of};
use owl_kind::{Kind, Kinds};
use rdf_asked::{has_kind, may_be_declared};
use rdf_graph::{Term, Triple};
use rdf_meaning::Site;
use rdf_rows::site_of;
use rdf_terms::{Iri, reserved};

/// The first triple of the graph that would be an axiom, but takes a reserved IRI
/// for a property or a class that it is not, or declares one (Structural
/// Specification, sections 2.4 and 5). Takes no memory.
pub fn first_reserved<'a>(reading: &Reading<'a>) -> Option<&'a Triple>
    requires { IsReading reading.now }
    ensures some { IfSome result (λ t.
        IsFirst (IsReservedIn reading.now) reading.now.graph.now t.now) }
    ensures none { IsNone result → HoldsForNone (IsReservedIn reading.now) reading.now.graph.now }
{
    'triples: for triple in reading.graph.triples() {
        if is_reserved(reading, triple) {
            return Some(triple);
        }
    }
    None
}

/// Whether the triple would be an axiom, but takes a reserved IRI for what it
/// isn't.
fn is_reserved(reading: &Reading, triple: &Triple) -> bool
    requires { IsReading reading.now }
    ensures { result ≡ is_reserved reading.now triple.now }
{
    is_main(sort_of(reading, triple)) && takes_reserved(reading.kinds, triple)
}

/// Whether the triple takes a reserved IRI for what it isn't.
fn takes_reserved(kinds: &Kinds, triple: &Triple) -> bool
    ensures { result ≡ takes_reserved kinds.now triple.now }
{
    match site_of(triple) {
        Site::OtherLink => takes_property(kinds, &triple.predicate),
        Site::OtherType => takes_class(kinds, &triple.object),
        Site::TypedBy(word) => takes_declared(kind_declared(word), &triple.subject),
        Site::Node(_) | Site::LinkedBy(_) => false,
    }
}

/// Whether the IRI is reserved, and no property.
fn takes_property(kinds: &Kinds, iri: &Iri) -> bool
    ensures { result ≡ takes_property kinds.now iri.now }
{
    reserved(iri) && !is_property(kinds, iri)
}

/// Whether the IRI is a property of some kind.
fn is_property(kinds: &Kinds, iri: &Iri) -> bool
    ensures { result ≡ is_property kinds.now iri.now }
{
    has_kind(kinds, Kind::ObjectProperty, iri)
        || has_kind(kinds, Kind::DataProperty, iri)
        || has_kind(kinds, Kind::AnnotationProperty, iri)
}

/// Whether the term is a reserved IRI, and no class.
fn takes_class(kinds: &Kinds, term: &Term) -> bool
    ensures { result ≡ takes_class kinds.now term.now }
{
    match term {
        Term::Iri(iri) => reserved(iri) && !has_kind(kinds, Kind::Class, iri),
        Term::Blank(_) | Term::Literal(_) => false,
    }
}

/// Whether the term is an IRI that may not be declared as this kind.
fn takes_declared(declared: Option<Kind>, term: &Term) -> bool
    ensures { result ≡ takes_declared declared term.now }
{
    match (declared, term) {
        (Some(kind), Term::Iri(iri)) => !may_be_declared(kind, iri),
        _ => false,
    }
}
