//! Canonical bytes and digests of documents, and documents of canonical bytes.

ghost use Rattle.std.specs.Prelude.{◌≡◌, ◌<◌, ◌≤◌, ◌^◌, ◌↔◌, IfErr, IfOk, IsErrOf, IsOk, IsTrue, OnOk, length};
ghost use Rattle.hex.specs.Hex.{encode_lower};
ghost use Rattle.owl_atom.specs.Prefixes.{fixed_prefixes};
ghost use Rattle.owl_canon.specs.Bytes.{canonical_bytes, ontology_bytes};
ghost use Rattle.owl_canon.specs.Limits.{HasBytes, IsWithinLimits, ReadsCanonical};
ghost use Rattle.owl_canon.specs.declared.fault.CanonFault.{CanonFault};
ghost use Rattle.owl_canon.specs.declared.fault.WriteFault.{WriteFault};
ghost use Rattle.owl_doc.specs.Documents.{ontology_of};
ghost use Rattle.owl_tree.specs.Ontologies.{Ontology, canonical_ontology};
ghost use Rattle.sha2.specs.Sha256.{sha256};

use crate::documents::read_document;
use crate::fault::{CanonFault, WriteFault};
use crate::sink::Sink;
use crate::writing::put_document;
use owl_characters::{MOST_BYTES, NoMemory, Text};
use owl_doc::Doc;
use sha2::{Digest, Sha256};
use std::alloc::Global;

/// The canonical bytes of the ontology, which are the same for structurally
/// equivalent ontologies and differ for others.
///
/// `TooLong` exactly where they are more than 2^27, unless memory runs out.
pub fn write(alloc: Global, doc: &Doc) -> Result<Vec<u8>, WriteFault>
    ensures bytes { IfOk result (λ bytes. bytes.items ≡ canonical_bytes (ontology_of doc.now)) }
    ensures reads { IfOk result (λ bytes. ReadsCanonical bytes.items (ontology_of doc.now)) }
    ensures short { OnOk result (length (canonical_bytes (ontology_of doc.now)) ≤ 2 ^ 27) }
    ensures too_long { IsErrOf result WriteFault.TooLong
        → 2 ^ 27 < length (canonical_bytes (ontology_of doc.now)) }
{
    let bytes = kept(alloc, doc, MOST_BYTES as usize)?;
    keeps_limits(doc);
    Ok(bytes)
}

/// The SHA-256 digest of the canonical bytes of the ontology, however many they
/// are. Takes no memory.
pub fn digest(_alloc: Global, doc: &Doc) -> Result<[u8; 32], NoMemory>
    ensures digest { IfOk result
        (λ digest. digest ≡ sha256 (canonical_bytes (ontology_of doc.now))) }
    ensures always { IsOk result }
    ensures within { IsWithinLimits (canonical_ontology (ontology_of doc.now)) }
{
    let digest = hashed(doc);
    keeps_limits(doc);
    Ok(digest)
}

/// The SHA-256 digest of the canonical bytes of the ontology, as 64 hexadecimal
/// digits.
pub fn digest_text(alloc: Global, doc: &Doc) -> Result<Text, NoMemory>
    ensures { IfOk result
        (λ text. text ≡ encode_lower (sha256 (canonical_bytes (ontology_of doc.now)))) }
{
    let digest = digest(alloc, doc)?;
    let digits = hex::encode(alloc, digest)?;
    Text::of(alloc, digits.as_str())
}

/// The document whose ontology has these canonical bytes, with the prefixes that
/// are declared beforehand.
///
/// `NotCanon` exactly where they are the canonical bytes of no ontology within
/// the limits of documents, unless memory runs out. Takes no memory for what a
/// number in the bytes says before as many bytes are read.
pub fn read(alloc: Global, bytes: &[u8]) -> Result<Doc, CanonFault>
    ensures reads { IfOk result (λ doc. ReadsCanonical bytes.now (ontology_of doc)) }
    ensures prefixes { IfOk result (λ doc. doc.prefixes ≡ fixed_prefixes) }
    ensures not_canon { IsErrOf result CanonFault.NotCanon
        → (o : Ontology) → ReadsCanonical bytes.now o → ⊥ }
{
    let doc = read_document(alloc, bytes)?;
    if has_bytes(alloc, &doc, bytes)? {
        Ok(doc)
    } else {
        Err(CanonFault::NotCanon)
    }
}

/// Whether these are the canonical bytes of the ontology.
fn has_bytes(alloc: Global, doc: &Doc, bytes: &[u8]) -> Result<bool, CanonFault>
    ensures same { IfOk result
        (λ same. IsTrue same ↔ ReadsCanonical bytes.now (ontology_of doc.now)) }
    ensures memory { IfErr result (λ fault. fault ≡ CanonFault.Memory) }
{
    match kept(alloc, doc, bytes.len()) {
        Ok(written) => {
            keeps_limits(doc);
            Ok(written.as_slice() == bytes)
        }
        Err(WriteFault::TooLong) => Ok(false),
        Err(WriteFault::Memory) => Err(CanonFault::Memory),
    }
}

/// The canonical bytes of the ontology, where they are at most so many.
fn kept(alloc: Global, doc: &Doc, limit: usize) -> Result<Vec<u8>, WriteFault>
    ensures bytes { IfOk result (λ bytes. bytes.items ≡ canonical_bytes (ontology_of doc.now)) }
    ensures has { OnOk result (HasBytes (ontology_of doc.now)) }
    ensures short { OnOk result (length (canonical_bytes (ontology_of doc.now)) ≤ limit) }
    ensures too_long { IsErrOf result WriteFault.TooLong
        → limit < length (canonical_bytes (ontology_of doc.now)) }
{
    // Every document is its own canonical form.
    let _axioms = doc.axioms();
    let mut sink = Sink::Kept(Vec::new(alloc), limit);
    put_document(&mut sink, doc)?;
    match sink {
        Sink::Kept(bytes, _) => Ok(bytes),
        Sink::Hashed(_) => unreachable!(),
    }
}

/// The digest of the canonical bytes of the ontology.
fn hashed(doc: &Doc) -> [u8; 32]
    ensures digest { result ≡ sha256 (canonical_bytes (ontology_of doc.now)) }
    ensures has { HasBytes (ontology_of doc.now) }
{
    // Every document is its own canonical form.
    let _axioms = doc.axioms();
    let mut sink = Sink::Hashed(Sha256::new());
    match put_document(&mut sink, doc) {
        Ok(()) => {}
        Err(_) => unreachable!(),
    }
    match sink {
        Sink::Hashed(hasher) => hasher.finalize(),
        Sink::Kept(_, _) => unreachable!(),
    }
}

/// Law: the ontology of a document is within the limits. It does nothing.
fn keeps_limits(doc: &Doc)
    requires { HasBytes (ontology_of doc.now) }
    ensures { IsWithinLimits (canonical_ontology (ontology_of doc.now)) }
{
    let _axioms = doc.axioms();
    let _trees = doc.arena().distinct();
}
