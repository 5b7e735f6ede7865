//! Terms.

ghost use Rattle.std.specs.Prelude.{◌≡◌, IfOk};

use owl_characters::NoMemory;
use rdf_terms::{Iri, Label, Literal};
use std::alloc::Global;

/// A term: an IRI, a blank node, which is known by its label, or a literal (RDF
/// 1.1 Concepts and Abstract Syntax, section 3.1).
///
/// IRIs come before blank nodes, and these before literals; those of one kind
/// have their own order.
#[derive(Debug, Drop, PartialEq, Eq, PartialOrd, Ord)]
pub enum Term {
    Iri(Iri),
    Blank(Label),
    Literal(Literal),
}

impl Term {
    /// An equal term.
    pub fn copy(&self, alloc: Global) -> Result<Term, NoMemory>
        ensures { IfOk result (λ term. term ≡ self.now) }
    {
        match self {
            Term::Iri(iri) => Ok(Term::Iri(iri.copy(alloc)?)),
            Term::Blank(label) => Ok(Term::Blank(label.copy(alloc)?)),
            Term::Literal(literal) => Ok(Term::Literal(literal.copy(alloc)?)),
        }
    }
}
