//! Documents.

ghost use Rattle.std.specs.Prelude.{◌≡◌, ◌↔◌, ◌<◌, IsTrue, length};
ghost use Rattle.owl_doc.specs.Documents.{IsDocument};
ghost use Rattle.owl_doc.specs.Heads.{StandsBeside, head_of};

use crate::head::Head;
use owl_arena::{Arena, ExprId};
use owl_atom::Prefixes;
use std::marker::Model;

/// An ontology in canonical form over an arena, with the prefixes that it was
/// written with (Structural Specification, section 3).
#[derive(Debug, Drop)]
pub struct Doc {
    pub(crate) arena: Arena,
    pub(crate) prefixes: Prefixes,
    pub(crate) head: Head,
    pub(crate) notes: Vec<ExprId>,
    pub(crate) axioms: Vec<ExprId>,
    pub(crate) weight: u64,
}

impl Model for Doc {
    ghost use Rattle.owl_doc.specs.Documents.{Document, document_code};

    ghost Value = { Document };

    ghost coded = { document_code };

    ghost use Rattle.owl_doc.specs.Kept.{IsKept, document_of};

    ghost view = { document_of };

    ghost invariant = { IsKept };
}

impl Doc {
    /// How the ontology is called, and what it imports.
    pub fn head(&self) -> &Head
        ensures head { head_of result.now ≡ self.now.head }
        ensures version { StandsBeside result.now.version result.now.iri }
        ensures document { IsDocument self.now }
    {
        &self.head
    }

    /// The prefixes.
    pub fn prefixes(&self) -> &Prefixes
        ensures { result.now ≡ self.now.prefixes }
    {
        &self.prefixes
    }

    /// The arena that holds its annotations and axioms.
    pub fn arena(&self) -> &Arena
        ensures { result.now ≡ self.now.arena }
    {
        &self.arena
    }

    /// The annotations of the ontology, in canonical order, each once.
    pub fn notes(&self) -> &[ExprId]
        ensures notes { result.now ≡ self.now.notes }
        ensures document { IsDocument self.now }
    {
        &self.notes
    }

    /// The axioms, in canonical order, each once.
    pub fn axioms(&self) -> &[ExprId]
        ensures axioms { result.now ≡ self.now.axioms }
        ensures document { IsDocument self.now }
    {
        &self.axioms
    }
}
