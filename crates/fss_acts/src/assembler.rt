//! Assemblers of documents.

ghost use Rattle.std.specs.Prelude.{IfOk, []};
ghost use Rattle.owl_doc.specs.Documents.{ontology_of};
ghost use Rattle.owl_tree.specs.Ontologies.{IsSameOntology};
ghost use Rattle.fss_terms.specs.Functional.{IsTableOf, IsWithinLimits};
ghost use Rattle.fss_grammar.specs.Making.{Maker as Written};
ghost use Rattle.fss_acts.specs.Assembling.{Assembles, Made};

use crate::kept::Kept;
use owl_arena::Arena;
use owl_atom::{Iri, Prefixes};
use owl_characters::NoMemory;
use owl_doc::{Builder, Doc};
use owl_maker::Maker;
use std::alloc::Global;

/// What was made of a document so far.
#[derive(Drop)]
pub struct Assembler {
    pub(crate) alloc: Global,
    pub(crate) prefixes: Prefixes,
    pub(crate) maker: Maker,
    pub(crate) kept: Kept,
    /// The IRI of the ontology, as long as there is no version.
    pub(crate) name: Option<Iri>,
}

impl Assembler {
    /// Nothing was read.
    pub fn new(alloc: Global) -> Result<Assembler, NoMemory>
        ensures { IfOk result (Made []) }
    {
        let prefixes = Prefixes::fixed(alloc)?;
        // What is looked up in a table tells that it is one.
        prefixes.len();
        let arena = Arena::new(alloc);
        let builder = Builder::new(alloc, Prefixes::empty(alloc), arena);
        Ok(Assembler {
            alloc,
            prefixes,
            maker: Maker::new(alloc, builder),
            kept: Kept::Nothing,
            name: None,
        })
    }

    /// The document that was put together. It needs no
    /// memory, and is quicker where there is some.
    pub fn finish(self) -> Doc
        ensures prefixes { (m : Written) → Assembles self m
            → IsTableOf m.document.declarations result.prefixes }
        ensures same { (m : Written) → Assembles self m
            → IsSameOntology m.document.ontology (ontology_of result) }
        ensures within { IsWithinLimits (ontology_of result) }
    {
        let mut maker = self.maker;
        maker.set_prefixes(self.prefixes);
        let doc = maker.finish();
        // What every document and every arena is.
        doc.head();
        doc.arena().distinct();
        doc
    }
}
