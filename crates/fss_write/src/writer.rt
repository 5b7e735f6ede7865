//! The texts of documents and of axioms.

ghost use Rattle.std.specs.Prelude.{◌≡◌, ◌<◌, ◌≤◌, length, IfOk, IsErrOf};
ghost use Rattle.std.specs.Str.{encode_utf8_all};
ghost use Rattle.owl_characters.specs.Limit.{most_bytes};
ghost use Rattle.owl_arena.specs.Held.{tree_at};
ghost use Rattle.owl_doc.specs.Documents.{ontology_of};
ghost use Rattle.fss_terms.specs.Functional.{ReadsFunctional};
ghost use Rattle.owl_writing.specs.Tables.{declared_prefixes};
ghost use Rattle.owl_writing.specs.declared.fault.WriteFault.{WriteFault};
ghost use Rattle.fss_write.specs.Text.{axiom_text, text_of};

use crate::lines::add_document;
use crate::tree::add_item;
use owl_arena::ExprId;
use owl_atom::Prefixes;
use owl_characters::Text;
use owl_doc::Doc;
use owl_writing::{Draft, WriteFault, written_prefixes};
use std::alloc::Global;

/// The text of the document in Functional-Style Syntax (Structural Specification, section 3.7). It reads back to the
/// same ontology under the same prefixes.
///
/// `TooLong` exactly where it has more than 2^27 bytes, and `Memory` where memory runs out.
pub fn write(alloc: Global, doc: &Doc) -> Result<Text, WriteFault>
    ensures text { IfOk result (λ text. text ≡ text_of doc.now.prefixes (ontology_of doc.now)) }
    ensures within { IfOk result (λ text. length (encode_utf8_all text) ≤ most_bytes) }
    ensures too_long { IsErrOf result WriteFault.TooLong → most_bytes < length (encode_utf8_all (text_of doc.now.prefixes (ontology_of doc.now))) }
    ensures reads_back { IfOk result (λ text. ReadsFunctional (encode_utf8_all text) (declared_prefixes doc.now.prefixes) (ontology_of doc.now)) }
{
    // What is known of every document and of every arena.
    doc.arena().distinct();
    doc.head();
    doc.prefixes().len();
    let prefixes = written_prefixes(alloc, doc.prefixes())?;
    let mut draft = Draft::new(alloc);
    add_document(&mut draft, &prefixes, doc)?;
    let text = draft.into_text();
    text.as_str();
    Ok(text)
}

/// The text of an axiom in Functional-Style Syntax, with all IRIs in full.
///
/// `TooLong` exactly where it has more than 2^27 bytes, and `Memory` where memory runs out.
pub fn axiom_text(alloc: Global, doc: &Doc, id: ExprId) -> Result<Text, WriteFault>
    requires { id < length doc.now.arena.trees }
    ensures text { IfOk result (λ text. text ≡ axiom_text (tree_at doc.now.arena.trees id)) }
    ensures within { IfOk result (λ text. length (encode_utf8_all text) ≤ most_bytes) }
    ensures too_long { IsErrOf result WriteFault.TooLong → most_bytes < length (encode_utf8_all (axiom_text (tree_at doc.now.arena.trees id))) }
{
    let mut draft = Draft::new(alloc);
    add_item(&mut draft, doc.arena(), &Prefixes::empty(alloc), id)?;
    Ok(draft.into_text())
}
