//! The reader of documents of canonical bytes.

ghost use Rattle.std.specs.Prelude.{◌≡◌, ◌≢◌, ◌++◌, ℕ, List, Option, Err, IfOk, IfErr, IfSome};
ghost use Rattle.owl_documents.specs.Documents.{ReadsBytes, parsed_of, said_of};
ghost use Rattle.owl_documents.specs.declared.document.Syntax.{Syntax};
ghost use Rattle.owl_documents.specs.Reading.{AreReadAgainst, IsDefectAgainst, IsProper};

use crate::document::Document;
use crate::readers::DocumentReader;
use crate::trouble::Trouble;
use owl_atom::Iri;
use owl_characters::NoMemory;
use std::alloc::Global;

/// A reader of canonical bytes. It keeps what it is fed, since they are read as a
/// whole, and nothing once memory ran out.
#[derive(Drop)]
pub struct BytesReader {
    bytes: Option<Vec<u8>>,
}

impl DocumentReader for BytesReader {
    ghost syntax = { Syntax.Canonical };

    ghost Fed = { λ _ reader bytes. IfSome reader.bytes (λ kept. kept.items ≡ bytes) };

    fn begin(alloc: Global, _base: Option<&Iri>) -> Result<BytesReader, NoMemory> {
        Ok(BytesReader {
            bytes: Some(Vec::new(alloc)),
        })
    }

    fn take(&mut self, piece: &[u8]) {
        if let Some(bytes) = self.bytes.take() {
            self.bytes = extended(bytes, piece);
        }
    }

    fn document(self, alloc: Global) -> Result<Document, Trouble> {
        match self.bytes {
            Some(bytes) => document_of(alloc, bytes.as_slice()),
            None => Err(Trouble::Memory),
        }
    }
}

/// The bytes and the piece behind them, unless memory runs out.
fn extended(bytes: Vec<u8>, piece: &[u8]) -> Option<Vec<u8>>
    ensures { IfSome result (λ kept. kept.items ≡ bytes.items ++ piece.now) }
{
    let mut kept = bytes;
    match kept.extend_from_slice(piece) {
        Ok(()) => Some(kept),
        Err(_) => None,
    }
}

/// The document that has these canonical bytes, or why there is none.
fn document_of(alloc: Global, bytes: &[u8]) -> Result<Document, Trouble>
    ensures reads { IfOk result (λ document. (base : Option (List ℕ))
        → AreReadAgainst base Syntax.Canonical bytes.now (parsed_of document)) }
    ensures refuses { IfErr result (λ trouble. (base : Option (List ℕ))
        → IsDefectAgainst base Syntax.Canonical bytes.now trouble) }
    ensures proper { IfErr result IsProper }
    ensures read { result ≢ Err Trouble.ReadFailed }
{
    Ok(Document::Canonical(owl_canon::read(alloc, bytes)?))
}
