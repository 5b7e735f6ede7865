//! The text of a document.

ghost use Rattle.std.specs.Prelude.{◌≡◌, ◌<◌, ◌≤◌, length, List, IfOk, IsErrOf};
ghost use Rattle.std.specs.Str.{encode_utf8_all};
ghost use Rattle.man_resolve.specs.Expressions.{knows};
ghost use Rattle.man_text.specs.Readable.{CanBeWritten, IsTypedUnder, ReadsOntology};
ghost use Rattle.man_text.specs.Text.{manchester_text};
ghost use Rattle.owl_characters.specs.Limit.{most_bytes};
ghost use Rattle.owl_doc.specs.Documents.{ontology_of};
ghost use Rattle.owl_kind.specs.Kinds.{Entity};
ghost use Rattle.owl_writing.specs.declared.fault.WriteFault.{WriteFault};

use crate::lines::add_document;
use crate::table::manchester_prefixes;
use owl_characters::Text;
use owl_doc::Doc;
use owl_kind::Kinds;
use owl_writing::{Draft, WriteFault};
use std::alloc::Global;

/// The text of the document in Manchester Syntax (sections 2.1 to 2.6), where
/// an IRI that annotations are of has these kinds. Where the document can be
/// written, the text reads back to the same ontology, under all kinds by which
/// all that it names is well typed.
///
/// `TooLong` exactly where it has more than 2^27 bytes, and `Memory` where
/// memory runs out.
pub fn write(alloc: Global, doc: &Doc, kinds: &Kinds) -> Result<Text, WriteFault>
    ensures text { IfOk result (λ text. text
        ≡ manchester_text (knows kinds.now) doc.now.prefixes (ontology_of doc.now)) }
    ensures within { IfOk result (λ text. length (encode_utf8_all text) ≤ most_bytes) }
    ensures too_long { IsErrOf result WriteFault.TooLong → most_bytes < length (encode_utf8_all
        (manchester_text (knows kinds.now) doc.now.prefixes (ontology_of doc.now))) }
    ensures reads_back { IfOk result (λ text. CanBeWritten kinds.now (ontology_of doc.now)
        → (others : List Entity) → IsTypedUnder others (ontology_of doc.now)
        → ReadsOntology (encode_utf8_all text) others doc.now.prefixes (ontology_of doc.now)) }
{
    // What is known of every document and of every arena.
    doc.arena().distinct();
    doc.head();
    doc.prefixes().len();
    let prefixes = manchester_prefixes(alloc, doc.prefixes())?;
    let mut draft = Draft::new(alloc);
    add_document(&mut draft, kinds, &prefixes, doc)?;
    let text = draft.into_text();
    text.as_str();
    Ok(text)
}
