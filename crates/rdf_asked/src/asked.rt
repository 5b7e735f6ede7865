//! Whether a triple of a node names what the node's row asks for.

ghost use Rattle.std.specs.Prelude.{◌≡◌, ◌↔◌, IsTrue};
ghost use Rattle.std.specs.List.{AllByRecursion};
ghost use Rattle.rdf_meaning.specs.Nodes.{carries_some, of_subject};
ghost use Rattle.rdf_meaning.specs.Rows.{row_seen};
ghost use Rattle.rdf_faults.specs.Asked.{IsAskedFor, SuitsProperties, by_property, is_place_of, rows};
ghost use Rattle.rdf_faults.specs.DecidedLaws.{HasSome};
ghost use Rattle.rdf_rows.specs.Fits.{CountsWords};
ghost use Rattle.rdf_asked.specs.Asking.{IsSuited, IsTold, SuitsPart, SuitsProperty};
ghost use Rattle.rdf_asked.specs.Listed.{IsSource};

use crate::lists::meets;
use crate::sorts::role_of_term;
use crate::source::Source;
use rdf_graph::Triple;
use rdf_meaning::{Part, Place, Row, Word, axiom_rows, node_rows};
use rdf_rows::{NodeWords, carries};

/// Whether a row of the node asks for the object of its triple, if need be one
/// that its property suits, or its property suits no row (Mapping to RDF Graphs,
/// section 3.2). The node's words are given.
pub fn is_asked_for(source: &Source, words: &NodeWords, triple: &Triple) -> bool
    requires source { IsSource source.now }
    requires words { CountsWords words.now (of_subject source.now.graph.now triple.now.subject) }
    ensures { IsTrue result ↔ IsAskedFor source.now.graph.now source.now.kinds.now triple.now }
{
    has_suited(source, words, triple) || is_by_property(triple) && !has_told(source, words, triple)
}

/// Whether a row of the node asks for the object.
fn has_suited(source: &Source, words: &NodeWords, triple: &Triple) -> bool
    requires source { IsSource source.now }
    requires words { CountsWords words.now (of_subject source.now.graph.now triple.now.subject) }
    ensures { IsTrue result ↔ HasSome
        (IsSuited source.now.graph.now source.now.kinds.now triple.now) rows }
{
    has_suited_row(source, words, node_rows(), triple)
        || has_suited_row(source, words, axiom_rows(), triple)
}

/// Whether the properties of the triple's node suit a row of it.
fn has_told(source: &Source, words: &NodeWords, triple: &Triple) -> bool
    requires source { IsSource source.now }
    requires words { CountsWords words.now (of_subject source.now.graph.now triple.now.subject) }
    ensures { IsTrue result ↔ HasSome
        (IsTold source.now.graph.now source.now.kinds.now triple.now) rows }
{
    has_told_row(source, words, node_rows(), triple)
        || has_told_row(source, words, axiom_rows(), triple)
}

/// Whether one of the rows asks for the object.
fn has_suited_row(source: &Source, words: &NodeWords, rows: &[Row], triple: &Triple) -> bool
    requires source { IsSource source.now }
    requires words { CountsWords words.now (of_subject source.now.graph.now triple.now.subject) }
    ensures { IsTrue result
        ↔ HasSome (λ row. IsSuited source.now.graph.now source.now.kinds.now triple.now
        (row_seen row)) rows.now }
{
    for row in rows {
        if is_suited(source, words, row, triple) {
            return true;
        }
    }
    false
}

/// Whether the properties of the triple's node suit one of the rows.
fn has_told_row(source: &Source, words: &NodeWords, rows: &[Row], triple: &Triple) -> bool
    requires source { IsSource source.now }
    requires words { CountsWords words.now (of_subject source.now.graph.now triple.now.subject) }
    ensures { IsTrue result
        ↔ HasSome (λ row. IsTold source.now.graph.now source.now.kinds.now triple.now
        (row_seen row)) rows.now }
{
    for row in rows {
        if is_told(source, words, row, triple) {
            return true;
        }
    }
    false
}

/// Whether the row is one of the node with these words, and asks for the object.
fn is_suited(source: &Source, words: &NodeWords, row: &Row, triple: &Triple) -> bool
    requires source { IsSource source.now }
    requires words { CountsWords words.now (of_subject source.now.graph.now triple.now.subject) }
    ensures { IsTrue result ↔ IsSuited source.now.graph.now source.now.kinds.now triple.now
        (row_seen row.now) }
{
    if is_by_property(triple) {
        is_told(source, words, row, triple) && suits(source, row.parts, triple)
    } else {
        words.fit(role_of_term(source.roles, &triple.subject), row)
            && suits(source, row.parts, triple)
    }
}

/// Whether the row is one of the node with these words, and its properties suit it.
fn is_told(source: &Source, words: &NodeWords, row: &Row, triple: &Triple) -> bool
    requires source { IsSource source.now }
    requires words { CountsWords words.now (of_subject source.now.graph.now triple.now.subject) }
    ensures { IsTrue result ↔ IsTold source.now.graph.now source.now.kinds.now triple.now
        (row_seen row.now) }
{
    words.fit(role_of_term(source.roles, &triple.subject), row)
        && suits_properties(source, row, triple)
}

/// Whether the row asks for each property of the triple's node.
fn suits_properties(source: &Source, row: &Row, triple: &Triple) -> bool
    requires source { IsSource source.now }
    ensures { IsTrue result
        ↔ SuitsProperties source.now.graph.now source.now.kinds.now (row_seen row.now)
        triple.now.subject }
{
    for other in source.graph.about(&triple.subject) {
        if !suits_property(source, row, other) {
            return false;
        }
    }
    true
}

/// Whether the row asks for the object, if the triple is that of a property.
fn suits_property(source: &Source, row: &Row, triple: &Triple) -> bool
    requires source { IsSource source.now }
    ensures { IsTrue result ↔ SuitsProperty source.now.graph.now source.now.kinds.now
        (row_seen row.now) triple.now }
{
    !carries(triple, Word::OnProperty) || suits(source, row.parts, triple)
}

/// Whether the object is what is wanted at the parts of the triple.
pub fn suits(source: &Source, parts: &[Part], triple: &Triple) -> bool
    requires source { IsSource source.now }
    ensures { IsTrue result ↔ AllByRecursion
        (SuitsPart source.now.graph.now source.now.kinds.now triple.now) parts.now }
{
    for part in parts {
        if !suits_part(source, part, triple) {
            return false;
        }
    }
    true
}

/// Whether the object is what is wanted at the part, if it stands there.
fn suits_part(source: &Source, part: &Part, triple: &Triple) -> bool
    requires source { IsSource source.now }
    ensures { IsTrue result
        ↔ SuitsPart source.now.graph.now source.now.kinds.now triple.now part.now }
{
    !is_place_of(triple, part.place) || meets(source, part.want, &triple.object)
}

/// Whether the place is that of the triple's object.
fn is_place_of(triple: &Triple, place: Place) -> bool
    ensures { result ≡ is_place_of triple.now place }
{
    match place {
        Place::At(word) => carries(triple, word),
        Place::Subject | Place::Predicate | Place::Object => false,
    }
}

/// Whether the kind of the property tells what the object has to be.
fn is_by_property(triple: &Triple) -> bool
    ensures { result ≡ carries_some by_property triple.now }
{
    carries(triple, Word::SomeValuesFrom)
        || carries(triple, Word::AllValuesFrom)
        || carries(triple, Word::HasValue)
}
