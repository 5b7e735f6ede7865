//! Literals that the mapping asks for.

ghost use Rattle.std.specs.Prelude.{◌≡◌, ◌↔◌, IsTrue, None, Some, nat_eq, not, true};
ghost use Rattle.std.specs.Char.{is_ascii_digit};
ghost use Rattle.std.specs.List.{list_all};
ghost use Rattle.std.specs.Prelude.{codes, length};
ghost use Rattle.std.specs.Str.{bytes_eq, chars};
ghost use Rattle.std.specs.Str.Parse.{digits_value};
ghost use Rattle.rdf_graph.specs.declared.term.Term.TheVariants as held;
ghost use Rattle.rdf_terms.specs.Vocabulary.{xsd};
ghost use Rattle.rdf_meaning.specs.Denotation.{is_digits, number_leaf, true_literal};
ghost use Rattle.rdf_rows.specs.Cardinalities.{cardinality, cardinality_of};

use crate::iris::is_spelled;
use rdf_graph::Term;
use rdf_terms::{Iri, Literal, xsd};

/// A number of things, as restrictions name it.
#[derive(Clone, Copy, Debug, PartialEq, Eq)]
pub enum Cardinality {
    Number(u64),
    /// It is 2^64 or more.
    TooLarge,
}

/// The cardinality that the term is: one digit or more, of the datatype
/// xsd:nonNegativeInteger (Mapping to RDF Graphs, table 13). Takes no memory.
pub fn cardinality_of(term: &Term) -> Option<Cardinality>
    ensures { result ≡ cardinality_of (number_leaf term.now) }
{
    match term {
        Term::Literal(literal) => cardinality_of_literal(literal),
        Term::Iri(_) | Term::Blank(_) => None,
    }
}

/// The cardinality that the literal is.
fn cardinality_of_literal(literal: &Literal) -> Option<Cardinality>
    ensures { result ≡ cardinality_of (number_leaf (held.Literal literal.now)) }
{
    if is_non_negative_integer(literal.datatype()) && is_digits(literal.lexical()) {
        Some(value_of(literal.lexical()))
    } else {
        None
    }
}

/// Whether the IRI is the datatype of cardinalities.
fn is_non_negative_integer(datatype: &Iri) -> bool
    ensures { result ≡ bytes_eq datatype.now (xsd (codes "nonNegativeInteger")) }
{
    is_spelled(datatype, xsd!("nonNegativeInteger"))
}

/// The number that the digits write.
fn value_of(digits: &str) -> Cardinality
    requires { is_digits (chars digits.now) ≡ true }
    ensures { result ≡ cardinality (digits_value 10 (chars digits.now)) }
{
    match digits.parse::<u64>() {
        Ok(number) => Cardinality::Number(number),
        Err(_) => Cardinality::TooLarge,
    }
}

/// Whether the text is one digit or more. Takes no memory.
pub fn is_digits(text: &str) -> bool
    ensures { result ≡ is_digits (chars text.now) }
{
    is_some_text(text) && are_digits(text)
}

/// Whether the text has a character.
fn is_some_text(text: &str) -> bool
    ensures { result ≡ not (nat_eq (length (chars text.now)) 0) }
{
    !text.is_empty()
}

fn are_digits(text: &str) -> bool
    ensures { result ≡ list_all is_ascii_digit (chars text.now) }
{
    text.chars().all(|c| c.is_ascii_digit())
}

/// Whether the term is the literal "true" of xsd:boolean. Takes no memory.
pub fn is_true(term: &Term) -> bool
    ensures { IsTrue result ↔ (term.now ≡ held.Literal true_literal) }
{
    match term {
        Term::Literal(literal) => is_true_literal(literal),
        Term::Iri(_) | Term::Blank(_) => false,
    }
}

fn is_true_literal(literal: &Literal) -> bool
    ensures { IsTrue result ↔ (literal.now ≡ true_literal) }
{
    is_word_true(literal) && is_boolean(literal.datatype()) && literal.tag().is_none()
}

/// Whether the lexical form is "true".
fn is_word_true(literal: &Literal) -> bool
    ensures { IsTrue result ↔ (literal.now.lexical ≡ codes "true") }
{
    literal.lexical() == "true"
}

fn is_boolean(datatype: &Iri) -> bool
    ensures { result ≡ bytes_eq datatype.now (xsd (codes "boolean")) }
{
    is_spelled(datatype, xsd!("boolean"))
}
