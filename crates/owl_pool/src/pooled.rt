//! What documents say, by numbers.

ghost use Rattle.std.specs.Prelude.{◌≡◌, IfOk};
ghost use Rattle.owl_doc.specs.Documents.{ontology_of};
ghost use Rattle.owl_pool.specs.Pooling.{IsPooled};

use owl_arena::ExprId;
use owl_characters::NoMemory;
use owl_doc::Doc;
use std::alloc::Global;
use std::marker::Model;

/// The annotations and axioms of a document, by their numbers in an arena.
#[derive(Debug, Drop)]
pub struct Pooled {
    pub(crate) notes: Vec<ExprId>,
    pub(crate) axioms: Vec<ExprId>,
}

impl Model for Pooled {
    ghost use Rattle.owl_pool.specs.Pooling.{Numbered, numbered_code};

    ghost Value = { Numbered };

    ghost coded = { numbered_code };

    ghost view = { λ p. record { notes = p.notes.items; axioms = p.axioms.items } };
}

impl Pooled {
    /// Those of the document in its own arena.
    pub fn of(alloc: Global, doc: &Doc) -> Result<Pooled, NoMemory>
        ensures { IfOk result (IsPooled doc.now.arena.trees (ontology_of doc.now)) }
    {
        Ok(Pooled {
            notes: Vec::from_slice(alloc, doc.notes())?,
            axioms: Vec::from_slice(alloc, doc.axioms())?,
        })
    }

    /// The annotations of the ontology.
    pub fn notes(&self) -> &[ExprId]
        ensures { result.now ≡ self.now.notes }
    {
        &self.notes
    }

    /// The axioms.
    pub fn axioms(&self) -> &[ExprId]
        ensures { result.now ≡ self.now.axioms }
    {
        &self.axioms
    }
}
