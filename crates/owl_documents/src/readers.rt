//! The readers of all syntaxes, as readers of documents.

ghost use Rattle.std.specs.Prelude.{◌≡◌, ◌≢◌, ◌++◌, ℕ, List, [], Option, Err, IfOk, IfErr};
ghost use Rattle.std.specs.Option.{option_copied};
ghost use Rattle.fss_read.specs.Reading as fss;
ghost use Rattle.man_read.specs.Reading as man;
ghost use Rattle.man_grammar.specs.Documents.{ReadsManchester};
ghost use Rattle.ttl_grammar.specs.Documents.{ReadsTurtle};
ghost use Rattle.ttl_read.specs.NameTables.{ArePlain};
ghost use Rattle.ttl_read.specs.Reading as ttl;
ghost use Rattle.rdf_scans.specs.Outlines.{IsOutlineFault};
ghost use Rattle.owl_documents.specs.Documents.{ReadsFrames, ReadsGraph, graph_read_of, parsed_of};
ghost use Rattle.owl_documents.specs.declared.document.Syntax.{Syntax};
ghost use Rattle.owl_documents.specs.Reading.{AreReadAgainst, IsDefectAgainst, IsProper};

use crate::document::{Document, GraphDocument};
use crate::trouble::Trouble;
use man_raw::RawDoc;
use owl_atom::Iri;
use owl_characters::NoMemory;
use rdf_scans::{OutlineFault, graph_head};
use std::alloc::Global;
use ttl_read::TtlDoc;

/// A reader of documents in one syntax, whose bytes come in pieces.
///
/// Contracts see the syntax, and relate the reader to the base IRI that it was begun
/// with, if any, and to the bytes that it was fed.
pub trait DocumentReader: Sized + Drop {
    ghost syntax: { Syntax };

    ghost Fed: { Option (List ℕ) → Self → List ℕ → Type 0 };

    /// A reader that was fed nothing, of a document with this base IRI, if any.
    fn begin(alloc: Global, base: Option<&Iri>) -> Result<Self, NoMemory>
        ensures { IfOk result (λ reader. Fed (option_copied base.entry) reader []) };

    /// Takes the next bytes, and drops them where it has refused.
    fn take(&mut self, piece: &[u8])
        ensures { (base : Option (List ℕ)) (bytes : List ℕ) → Fed base self.old bytes
            → Fed base self.new (bytes ++ piece.now) };

    /// The document that all the bytes fed are, or why they are none.
    fn document(self, alloc: Global) -> Result<Document, Trouble>
        ensures reads { IfOk result (λ document. (base : Option (List ℕ)) (bytes : List ℕ)
            → Fed base self bytes → AreReadAgainst base syntax bytes (parsed_of document)) }
        ensures refuses { IfErr result (λ trouble. (base : Option (List ℕ)) (bytes : List ℕ)
            → Fed base self bytes → IsDefectAgainst base syntax bytes trouble) }
        ensures proper { IfErr result IsProper }
        ensures read { result ≢ Err Trouble.ReadFailed };
}

impl DocumentReader for fss_read::Reader {
    ghost syntax = { Syntax.Functional };

    ghost Fed = { λ _ reader bytes. fss.HasRead reader bytes };

    fn begin(alloc: Global, _base: Option<&Iri>) -> Result<fss_read::Reader, NoMemory> {
        fss_read::Reader::new(alloc)
    }

    fn take(&mut self, piece: &[u8]) {
        // The reader keeps a refusal.
        let _ = self.feed(piece);
    }

    fn document(self, _alloc: Global) -> Result<Document, Trouble> {
        Ok(Document::Ontology(self.finish()?))
    }
}

impl DocumentReader for ttl_read::Reader {
    ghost syntax = { Syntax.Turtle };

    ghost Fed = { ttl.HasRead };

    fn begin(alloc: Global, base: Option<&Iri>) -> Result<ttl_read::Reader, NoMemory> {
        match base {
            Some(base) => ttl_read::Reader::with_base(alloc, base),
            None => ttl_read::Reader::new(alloc),
        }
    }

    fn take(&mut self, piece: &[u8]) {
        // The reader keeps a refusal.
        let _ = self.feed(piece);
    }

    fn document(self, alloc: Global) -> Result<Document, Trouble> {
        let doc = self.finish()?;
        Ok(Document::Graph(with_head(alloc, doc)?))
    }
}

impl DocumentReader for man_read::Reader {
    ghost syntax = { Syntax.Manchester };

    ghost Fed = { λ _ reader bytes. man.HasRead reader bytes };

    fn begin(alloc: Global, _base: Option<&Iri>) -> Result<man_read::Reader, NoMemory> {
        man_read::Reader::new(alloc)
    }

    fn take(&mut self, piece: &[u8]) {
        // The reader keeps a refusal.
        let _ = self.feed(piece);
    }

    fn document(self, _alloc: Global) -> Result<Document, Trouble> {
        let doc = self.finish()?;
        Ok(Document::Frames(with_table(doc)))
    }
}

/// The document, of which it is told that the names of its prefixes ascend.
fn with_table(doc: RawDoc) -> RawDoc
    ensures reads { (bytes : List ℕ) → ReadsManchester bytes doc → ReadsFrames bytes result }
{
    let RawDoc {
        prefixes,
        head,
        notes,
        items,
    } = doc;
    prefixes.len();
    RawDoc {
        prefixes,
        head,
        notes,
        items,
    }
}

/// The graph with the head of the ontology that its header gives.
fn with_head(alloc: Global, doc: TtlDoc) -> Result<GraphDocument, OutlineFault>
    ensures head { IfOk result (λ document. (base : Option (List ℕ)) (bytes : List ℕ)
        → ReadsTurtle base bytes doc.prefixes doc.graph
        → ArePlain doc.prefixes → ReadsGraph base bytes (graph_read_of document)) }
    ensures fault { IfErr result (IsOutlineFault doc.graph) }
{
    let head = graph_head(alloc, &doc.graph)?;
    let TtlDoc { graph, prefixes } = doc;
    // The table's names ascend.
    prefixes.len();
    Ok(GraphDocument {
        graph,
        prefixes,
        head,
        guessed: Vec::new(alloc),
    })
}
