//! The search for the first part that a syntax cannot say.

ghost use Rattle.std.specs.Prelude.{◌↔◌, IfSome, IsNone, map};
ghost use Rattle.owl_doc.specs.Documents.{ontology_of};
ghost use Rattle.owl_doc.specs.Entities.{IsHeldItem};
ghost use Rattle.owl_doc.specs.Parts.{of_axiom, part_at};
ghost use Rattle.sayable_parts.specs.Reasons.{why_seen};
ghost use Rattle.sayable_parts.specs.Unsaid.{FindsUnsaid, IsFirstUnsaid, SaysAll};

use crate::saying::Saying;
use owl_doc::{Cant, Doc, Item};

/// The first part of the document that the syntax cannot say, its header before
/// its axioms in canonical order, with what is to be said first against it. `None`
/// exactly where it can say all.
pub fn first_unsaid<'a, S: Saying>(doc: &'a Doc, syntax: &S) -> Option<Cant<'a>>
    ensures none { IsNone result ↔ SaysAll (S.objection syntax.now) (ontology_of doc.now) }
    ensures some { IfSome result (λ cant. IsFirstUnsaid (S.objection syntax.now)
        (ontology_of doc.now) (part_at doc.now cant.item) (why_seen cant.why)) }
    ensures held { IfSome result (λ cant. IsHeldItem doc.now cant.item) }
{
    match syntax.header_objection(doc.arena(), doc.notes()) {
        Some(why) => Some(Cant {
            item: Item::Header,
            why,
        }),
        None => unsaid_axiom(doc, syntax),
    }
}

/// The first axiom that the syntax cannot say.
fn unsaid_axiom<'a, S: Saying>(doc: &'a Doc, syntax: &S) -> Option<Cant<'a>>
    ensures { FindsUnsaid (S.objection syntax.now) doc.now
        (map of_axiom (ontology_of doc.now).axioms) result }
{
    'axioms: for id in doc.axioms() {
        if let Some(why) = syntax.axiom_objection(doc.arena(), *id) {
            return Some(Cant {
                item: Item::Axiom(*id),
                why,
            });
        }
    }
    None
}
