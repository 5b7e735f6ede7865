//! Reads a document whose bytes come in pieces.

ghost use Rattle.std.specs.Prelude.{◌≡◌, ◌≢◌, ◌++◌, [], List, ℕ, Option, None, Some, Err, IfErr, IfOk, IsOk, OnOk};
ghost use Rattle.owl_reader.specs.declared.fault.ReadFault.{ReadFault};
ghost use Rattle.ttl_grammar.specs.Documents.{IsFirstDefect, ReadsTurtle};
ghost use Rattle.ttl_read.specs.NameTables.{ArePlain};
ghost use Rattle.ttl_read.specs.Reading.{HasRead, Refuses, TellsEarly};

use crate::assembler::Assembler;
use iri_references::Base;
use owl_atom::{Iri, Prefixes};
use owl_characters::NoMemory;
use owl_reader::ReadFault;
use rdf_graph::Graph;
use std::alloc::Global;
use std::marker::Model;

/// What a document of Turtle says: its graph, and the prefixes that it leaves,
/// each with the IRI that was declared last for it.
#[derive(Debug, Drop)]
pub struct TtlDoc {
    pub graph: Graph,
    pub prefixes: Prefixes,
}

/// Reads a document of Turtle (RDF 1.1 Turtle, sections 6 and 7) from bytes that
/// come in pieces.
///
/// Contracts relate it to the base IRI that it was begun with, if any, and to the
/// bytes that were fed (`HasRead`).
#[derive(Drop)]
pub struct Reader {
    shell: owl_reader::Reader<Assembler>,
}

impl Model for Reader {
    ghost use Rattle.ttl_read.specs.declared.assembler.Assembler.{Assembler};
    ghost use Rattle.owl_reader.specs.Readings.{Reading};

    ghost Value = { Reading Assembler };

    ghost view = { λ r. r.shell };
}

impl Reader {
    /// A reader that was fed nothing, of a document without a base IRI.
    pub fn new(alloc: Global) -> Result<Reader, NoMemory>
        ensures { IfOk result (λ reader. HasRead None reader []) }
    {
        let assembler = Assembler::new(alloc, None);
        Ok(Reader {
            shell: owl_reader::Reader::new(alloc, assembler)?,
        })
    }

    /// A reader that was fed nothing, of a document with this base IRI. It holds until
    /// the document declares its own (RDF 1.1 Turtle, section 6.3).
    pub fn with_base(alloc: Global, base: &Iri) -> Result<Reader, NoMemory>
        ensures { IfOk result (λ reader. HasRead (Some base.now) reader []) }
    {
        let base = Base::of(alloc, base)?;
        let assembler = Assembler::new(alloc, Some(base));
        Ok(Reader {
            shell: owl_reader::Reader::new(alloc, assembler)?,
        })
    }

    /// Takes the next bytes, and drops them where it has refused.
    ///
    /// A refusal other than `Memory` is the first defect of all bytes that were
    /// fed, with these, whatever follows. A reader that has refused answers the
    /// same refusal from then on. A defect at a token that white space follows
    /// is told at once, where the bytes hold no quotes of long strings. An empty
    /// piece takes no memory.
    pub fn feed(&mut self, piece: &[u8]) -> Result<(), ReadFault>
        ensures reads { (base : Option (List ℕ)) (bytes : List ℕ) → HasRead base self.old bytes
            → HasRead base self.new (bytes ++ piece.now) }
        ensures refuses { IfErr result (λ fault. fault ≢ ReadFault.Memory
            → (base : Option (List ℕ)) (bytes : List ℕ) → HasRead base self.old bytes
            → Refuses base (bytes ++ piece.now) fault) }
        ensures early { OnOk result ((base : Option (List ℕ)) → TellsEarly base self.new) }
        ensures empty { self.old.refused ≡ None → piece.now ≡ [] → IsOk result }
        ensures keeps { IfErr result (λ fault. self.new.refused ≡ Some fault) }
        ensures same { (fault : ReadFault) → self.old.refused ≡ Some fault → result ≡ Err fault }
    {
        self.shell.feed(piece)
    }

    /// What the document says that all the bytes fed are.
    ///
    /// A refusal other than `Memory` is the first defect of these bytes. A
    /// reader that has refused answers the same refusal.
    pub fn finish(self) -> Result<TtlDoc, ReadFault>
        ensures reads { IfOk result (λ doc. (base : Option (List ℕ)) (bytes : List ℕ)
            → HasRead base self bytes → ReadsTurtle base bytes doc.prefixes doc.graph) }
        ensures plain { IfOk result (λ doc. (base : Option (List ℕ)) (bytes : List ℕ)
            → HasRead base self bytes → ArePlain doc.prefixes) }
        ensures refuses { IfErr result (λ fault. fault ≢ ReadFault.Memory
            → (base : Option (List ℕ)) (bytes : List ℕ)
            → HasRead base self bytes → IsFirstDefect base bytes fault) }
        ensures same { (fault : ReadFault) → self.refused ≡ Some fault → result ≡ Err fault }
    {
        let assembler = self.shell.finish()?;
        Ok(TtlDoc {
            graph: assembler.graph,
            prefixes: assembler.names.into_prefixes(),
        })
    }
}
