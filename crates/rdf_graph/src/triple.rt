//! Triples.

ghost use Rattle.std.specs.Prelude.{◌≡◌, IfOk};

use crate::term::Term;
use owl_characters::NoMemory;
use rdf_terms::Iri;
use std::alloc::Global;

/// A triple (RDF 1.1 Concepts and Abstract Syntax, section 3.1). A subject that
/// is a literal stands in no graph.
///
/// Triples are ordered by subject, predicate and object.
#[derive(Debug, Drop, PartialEq, Eq, PartialOrd, Ord)]
pub struct Triple {
    pub subject: Term,
    pub predicate: Iri,
    pub object: Term,
}

impl Triple {
    /// An equal triple.
    pub fn copy(&self, alloc: Global) -> Result<Triple, NoMemory>
        ensures { IfOk result (λ triple. triple ≡ self.now) }
    {
        let subject = self.subject.copy(alloc)?;
        let predicate = self.predicate.copy(alloc)?;
        let object = self.object.copy(alloc)?;
        Ok(Triple {
            subject,
            predicate,
            object,
        })
    }
}
