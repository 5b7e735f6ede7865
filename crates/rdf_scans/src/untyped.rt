//! Triples that are not the axioms or annotations that they would be.

ghost use Rattle.std.specs.Prelude.{◌↔◌, Contains, IfSome, IsNone, IsTrue};
ghost use Rattle.rdf_faults.specs.Asked.{IsTypedNote};
ghost use Rattle.rdf_faults.specs.Firsts.{HoldsForNone, IsFirst};
ghost use Rattle.rdf_scans.specs.Sorts.{IsReading};
ghost use Rattle.rdf_scans.specs.Statements.{IsNoAxiom, IsNoNote, IsUntypedIn};

use crate::reading::Reading;
use crate::sorts::{is_annotation, is_main, sort_of};
use crate::statements::is_typed_axiom;
use owl_tree::Sort;
use rdf_asked::{is_of_sort, names_tree};
use rdf_graph::Triple;

/// The first triple of the graph that is no part of a node, and is not the axiom or
/// the annotation that it would be, by what its terms stand for (Mapping to RDF
/// Graphs, section 3.2). Takes no memory.
pub fn first_untyped_statement<'a>(reading: &Reading<'a>) -> Option<&'a Triple>
    requires { IsReading reading.now }
    ensures some { IfSome result (λ t.
        IsFirst (IsUntypedIn reading.now) reading.now.graph.now t.now) }
    ensures none { IsNone result → HoldsForNone (IsUntypedIn reading.now) reading.now.graph.now }
{
    'triples: for triple in reading.graph.triples() {
        if is_untyped(reading, triple) {
            return Some(triple);
        }
    }
    None
}

/// Whether the triple is not the axiom or the annotation that it would be.
fn is_untyped(reading: &Reading, triple: &Triple) -> bool
    requires { IsReading reading.now }
    ensures { Contains reading.now.graph.now triple.now →
        (IsTrue result ↔ IsUntypedIn reading.now triple.now) }
{
    is_no_axiom(reading, triple) || is_no_note(reading, triple)
}

/// Whether the triple would be an axiom, and is none.
fn is_no_axiom(reading: &Reading, triple: &Triple) -> bool
    requires { IsReading reading.now }
    ensures { IsTrue result ↔ IsNoAxiom reading.now triple.now }
{
    is_main(sort_of(reading, triple)) && !is_typed_axiom(reading, triple)
}

/// Whether the triple would be an annotation, and is none.
fn is_no_note(reading: &Reading, triple: &Triple) -> bool
    requires { IsReading reading.now }
    ensures { IsTrue result ↔ IsNoNote reading.now triple.now }
{
    is_annotation(reading, triple) && !is_typed_note(reading, triple)
}

/// Whether the triple is an annotation by its terms.
fn is_typed_note(reading: &Reading, triple: &Triple) -> bool
    requires { IsReading reading.now }
    ensures { IsTrue result ↔ IsTypedNote reading.now.graph.now reading.now.kinds.now triple.now }
{
    names_tree(reading.kinds, Sort::AnnotationProperty, &triple.predicate)
        && is_of_sort(
            reading.roles,
            reading.kinds,
            Sort::AnnotationValue,
            &triple.object,
        )
}
