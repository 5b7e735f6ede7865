//! Reads a document whose bytes come in pieces.

ghost use Rattle.std.specs.Prelude.{◌≡◌, ◌≢◌, ◌++◌, [], List, ℕ, None, Some, Err, IfErr, IfOk, IsOk, OnOk};
ghost use Rattle.owl_reader.specs.declared.fault.ReadFault.{ReadFault};
ghost use Rattle.man_grammar.specs.Documents.{IsFirstDefect, ReadsManchester};
ghost use Rattle.man_read.specs.Reading.{HasRead, Refuses, TellsEarly};

use crate::assembler::Assembler;
use man_raw::RawDoc;
use owl_characters::NoMemory;
use owl_reader::ReadFault;
use std::alloc::Global;
use std::marker::Model;

/// Reads a document in Manchester Syntax (sections 2.1 to 2.6) from bytes that
/// come in pieces.
///
/// Contracts relate it to the bytes that were fed (`HasRead`).
#[derive(Drop)]
pub struct Reader {
    shell: owl_reader::Reader<Assembler>,
}

impl Model for Reader {
    ghost use Rattle.man_read.specs.declared.assembler.Assembler.{Assembler};
    ghost use Rattle.owl_reader.specs.Readings.{Reading};

    ghost Value = { Reading Assembler };

    ghost use Rattle.std.specs.Coded.{codes};
    ghost use Rattle.man_raw.specs.Raws.{coded_raw};

    ghost coded = { Prim.hlevel (codes, coded_raw) };

    ghost view = { λ r. r.shell };
}

impl Reader {
    /// A reader that was fed nothing.
    pub fn new(alloc: Global) -> Result<Reader, NoMemory>
        ensures { IfOk result (λ reader. HasRead reader []) }
    {
        let assembler = Assembler::new(alloc)?;
        Ok(Reader {
            shell: owl_reader::Reader::new(alloc, assembler)?,
        })
    }

    /// Takes the next bytes, and drops them where it has refused.
    ///
    /// A refusal other than `Memory` is the first defect of all bytes that were
    /// fed, with these, whatever follows. A reader that has refused answers the
    /// same refusal from then on. A defect at a token that white space follows
    /// is told at once. An empty piece takes no memory.
    pub fn feed(&mut self, piece: &[u8]) -> Result<(), ReadFault>
        ensures reads { (bytes : List ℕ) → HasRead self.old bytes
            → HasRead self.new (bytes ++ piece.now) }
        ensures refuses { IfErr result (λ fault. fault ≢ ReadFault.Memory → (bytes : List ℕ)
            → HasRead self.old bytes → Refuses (bytes ++ piece.now) fault) }
        ensures early { OnOk result (TellsEarly self.new) }
        ensures empty { self.old.refused ≡ None → piece.now ≡ [] → IsOk result }
        ensures keeps { IfErr result (λ fault. self.new.refused ≡ Some fault) }
        ensures same { (fault : ReadFault) → self.old.refused ≡ Some fault → result ≡ Err fault }
    {
        self.shell.feed(piece)
    }

    /// What the document says that all the bytes fed are.
    ///
    /// A refusal other than `Memory` is the first defect of these bytes. A
    /// reader that has refused answers the same refusal.
    pub fn finish(self) -> Result<RawDoc, ReadFault>
        ensures reads { IfOk result (λ doc. (bytes : List ℕ) → HasRead self bytes
            → ReadsManchester bytes doc) }
        ensures refuses { IfErr result (λ fault. fault ≢ ReadFault.Memory → (bytes : List ℕ)
            → HasRead self bytes → IsFirstDefect bytes fault) }
        ensures same { (fault : ReadFault) → self.refused ≡ Some fault → result ≡ Err fault }
    {
        let assembler = self.shell.finish()?;
        Ok(assembler.into_document())
    }
}
