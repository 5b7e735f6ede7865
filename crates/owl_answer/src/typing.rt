//! Parts of a document that are not well typed, and what is answered of them.

ghost use Rattle.std.specs.Prelude.{◌↔◌, IfOk, IfSome, IsNone, map};
ghost use Rattle.owl_doc.specs.Documents.{ontology_of};
ghost use Rattle.owl_doc.specs.Entities.{IsHeldItem};
ghost use Rattle.owl_doc.specs.Parts.{of_axiom, part_at};
ghost use Rattle.owl_answer.specs.Answers.{IsTyping};
ghost use Rattle.owl_answer.specs.Typing.{AllAreWellTyped, FindsUntyped, IsFirstUntyped, entity_found};

use owl_atom::Iri;
use owl_characters::NoMemory;
use owl_doc::{Doc, Item, undeclared};
use owl_messages::{Answer, refuse_kinds, refuse_undeclared};
use owl_tree::{Kind, Kinds};
use std::alloc::Global;

/// An entity that is neither declared nor built in, and the part of a document
/// that it stands in.
#[derive(Clone, Copy, Debug)]
pub struct Untyped<'a> {
    pub item: Item,
    pub kind: Kind,
    pub iri: &'a Iri,
}

/// The first part of the document that is not well typed (Structural
/// Specification, section 5.8.1), its header before its axioms in canonical
/// order, with the first entity in it that is neither declared nor built in.
/// `None` exactly where all are well typed. Takes no memory.
pub fn first_untyped<'a>(doc: &'a Doc, kinds: &Kinds) -> Option<Untyped<'a>>
    ensures none { IsNone result ↔ AllAreWellTyped kinds.now (ontology_of doc.now) }
    ensures some { IfSome result (λ found. IsFirstUntyped kinds.now (ontology_of doc.now)
        (part_at doc.now found.item) (entity_found found)) }
    ensures held { IfSome result (λ found. IsHeldItem doc.now found.item) }
{
    // What is known of every document.
    doc.notes();
    match undeclared(doc, Item::Header, kinds) {
        Some((kind, iri)) => Some(Untyped {
            item: Item::Header,
            kind,
            iri,
        }),
        None => untyped_axiom(doc, kinds),
    }
}

/// The first axiom that is not well typed.
fn untyped_axiom<'a>(doc: &'a Doc, kinds: &Kinds) -> Option<Untyped<'a>>
    ensures { FindsUntyped kinds.now doc.now (map of_axiom (ontology_of doc.now).axioms) result }
{
    'axioms: for id in doc.axioms() {
        if let Some((kind, iri)) = undeclared(doc, Item::Axiom(*id), kinds) {
            return Some(Untyped {
                item: Item::Axiom(*id),
                kind,
                iri,
            });
        }
    }
    None
}

/// What is answered where the document is not well typed under these kinds: the
/// first IRI with a clash, or else the first part with an entity that is neither
/// declared nor built in. `None` exactly where it is well typed.
pub fn typing_refusal(alloc: Global, kinds: &Kinds, doc: &Doc) -> Result<Option<Answer>, NoMemory>
    ensures { IfOk result (IsTyping kinds.now (ontology_of doc.now)) }
{
    if let Some(iri) = kinds.clash() {
        return Ok(Some(refuse_kinds(alloc, iri)?));
    }
    match first_untyped(doc, kinds) {
        Some(untyped) => {
            let Untyped { item, kind, iri } = untyped;
            Ok(Some(refuse_undeclared(alloc, doc, item, kind, iri)?))
        }
        None => Ok(None),
    }
}
