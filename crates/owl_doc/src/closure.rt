//! Documents with what they import.

ghost use Rattle.std.specs.Prelude.{◌≡◌};

use crate::document::Doc;
use owl_kind::Kinds;
use std::alloc::Global;
use std::marker::Model;

/// A document with all that it imports, and what they declare (Structural
/// Specification, sections 3.4 and 5.8), which contracts see as the documents
/// and a list of entities.
#[derive(Debug, Drop)]
pub struct Closure {
    docs: Vec<Doc>,
    kinds: Kinds,
}

impl Model for Closure {
    ghost use Rattle.owl_doc.specs.Closures.{ImportClosure, closure_code};

    ghost Value = { ImportClosure };

    ghost coded = { closure_code };

    ghost view = { λ c. record { documents = c.docs.items; kinds = c.kinds } };
}

impl Closure {
    /// These documents, the main one first, and these kinds. Takes no memory.
    pub fn new(_alloc: Global, docs: Vec<Doc>, kinds: Kinds) -> Closure
        ensures docs { result.documents ≡ docs.items }
        ensures kinds { result.kinds ≡ kinds }
    {
        Closure { docs, kinds }
    }

    /// The documents, the main one first.
    pub fn docs(&self) -> &[Doc]
        ensures { result.now ≡ self.now.documents }
    {
        &self.docs
    }

    /// What the documents declare.
    pub fn kinds(&self) -> &Kinds
        ensures { result.now ≡ self.now.kinds }
    {
        &self.kinds
    }
}
