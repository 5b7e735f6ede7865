//! Cardinalities that do not fit 64 bits.

ghost use Rattle.std.specs.Prelude.{◌≡◌, ◌↔◌, IsTrue, Some};
ghost use Rattle.rdf_meaning.specs.declared.role.Role.TheVariants as role;
ghost use Rattle.rdf_meaning.specs.Nodes.{role_of};
ghost use Rattle.rdf_meaning.specs.Denotation.{number_leaf};
ghost use Rattle.rdf_rows.specs.Cardinalities.{cardinality_of};
ghost use Rattle.rdf_rows.specs.declared.literals.Cardinality.TheVariants.{TooLarge};
ghost use Rattle.rdf_roles.specs.Tables.{IsTableOf};
ghost use Rattle.rdf_nodes.specs.Large.{HasLargeNumber, IsLarge, is_counting};

use crate::source::Source;
use rdf_graph::{Term, Triple};
use rdf_meaning::{Role, Word};
use rdf_rows::{Cardinality, cardinality_of, carried_word};

impl<'a> Source<'a> {
    /// Whether some cardinality of a class expression is 2^64 or more. Takes no
    /// memory.
    pub fn has_large_number(&self) -> bool
        requires { IsTableOf self.now.graph.now self.now.roles.now }
        ensures { IsTrue result ↔ HasLargeNumber self.now.graph.now }
    {
        let mut rest = self.graph.triples();
        while let Some((triple, behind)) = rest.split_first() {
            if self.is_large(triple) {
                return true;
            }
            rest = behind;
        }
        false
    }

    /// Whether the triple of a class expression names a cardinality of 2^64 or
    /// more (Mapping to RDF Graphs, table 13). Takes no memory.
    fn is_large(&self, triple: &Triple) -> bool
        requires { IsTableOf self.now.graph.now self.now.roles.now }
        ensures { IsTrue result ↔ IsLarge self.now.graph.now triple.now }
    {
        match carried_word(triple) {
            Some(word) => is_counting(word)
                && self.is_class(&triple.subject)
                && is_too_large(&triple.object),
            None => false,
        }
    }

    /// Whether the node is a class expression.
    fn is_class(&self, node: &Term) -> bool
        requires { IsTableOf self.now.graph.now self.now.roles.now }
        ensures { IsTrue result ↔ (role_of self.now.graph.now node.now ≡ role.Class) }
    {
        match node {
            Term::Blank(label) => self.roles.role(label) == Role::Class,
            Term::Iri(_) | Term::Literal(_) => false,
        }
    }
}

/// Whether the term is a cardinality of 2^64 or more.
fn is_too_large(term: &Term) -> bool
    ensures { IsTrue result ↔ (cardinality_of (number_leaf term.now) ≡ Some TooLarge) }
{
    match cardinality_of(term) {
        Some(Cardinality::TooLarge) => true,
        Some(Cardinality::Number(_)) | None => false,
    }
}

/// Whether the word is of the number of a restriction.
fn is_counting(word: Word) -> bool
    ensures { result ≡ is_counting word }
{
    match word {
        Word::MinCardinality
        | Word::MaxCardinality
        | Word::Cardinality
        | Word::MinQualifiedCardinality
        | Word::MaxQualifiedCardinality
        | Word::QualifiedCardinality => true,
        _ => false,
    }
}
