//! Whether documents can be said in RDF.

ghost use Rattle.std.specs.Prelude.{◌≡◌, ◌↔◌, ◌<◌, IfSome, IsNone, length};
ghost use Rattle.std.specs.Option.{option_map};
ghost use Rattle.owl_arena.specs.Held.{AreHeld, tree_at};
ghost use Rattle.owl_doc.specs.Documents.{ontology_of};
ghost use Rattle.owl_doc.specs.Entities.{IsHeldItem};
ghost use Rattle.owl_doc.specs.Parts.{leaves, leaves_at, part_at};
ghost use Rattle.sayable_parts.specs.Reasons.{why_seen};
ghost use Rattle.rdf_sayable.specs.Sayable.{CanSayAll, IsFirstUnsayable, first_objection, part_objection};

use crate::objection::atom_objection;
use owl_arena::{Arena, ExprId};
use owl_doc::{Cant, Doc, Why};
use sayable_parts::{Saying, first_unsaid};

/// RDF, as a syntax.
struct Rdf;

impl Saying for Rdf {
    ghost objection = { λ _. part_objection };

    fn header_objection<'a>(&self, arena: &'a Arena, notes: &[ExprId]) -> Option<Why<'a>> {
        trees_objection(arena, notes)
    }

    fn axiom_objection<'a>(&self, arena: &'a Arena, id: ExprId) -> Option<Why<'a>> {
        tree_objection(arena, id)
    }
}

/// The first part of the document that cannot be said in RDF (Mapping to RDF
/// Graphs, section 2), its header before its axioms in canonical order, with
/// what is to be said first against it, from left to right. `None` exactly
/// where all can be said. Takes no memory.
pub fn can<'a>(doc: &'a Doc) -> Option<Cant<'a>>
    ensures none { IsNone result ↔ CanSayAll (ontology_of doc.now) }
    ensures some { IfSome result (λ cant.
        IsFirstUnsayable (ontology_of doc.now) (part_at doc.now cant.item) (why_seen cant.why)) }
    ensures held { IfSome result (λ cant. IsHeldItem doc.now cant.item) }
{
    first_unsaid(doc, &Rdf)
}

/// What is to be said first against a tree.
#[cycle(objections)]
fn tree_objection<'a>(arena: &'a Arena, id: ExprId) -> Option<Why<'a>>
    requires { id < length arena.now.trees }
    ensures { option_map why_seen result ≡ first_objection (leaves (tree_at arena.now.trees id)) }
{
    match arena.atom(id) {
        Some(atom) => atom_objection(arena.tag(id), atom),
        None => trees_objection(arena, arena.kids(id)),
    }
}

/// What is to be said first against these trees.
#[cycle(objections)]
fn trees_objection<'a>(arena: &'a Arena, ids: &[ExprId]) -> Option<Why<'a>>
    requires { AreHeld arena.now.trees ids.now }
    ensures { option_map why_seen result ≡ first_objection (leaves_at arena.now.trees ids.now) }
{
    'ids: for id in ids {
        if let Some(why) = tree_objection(arena, *id) {
            return Some(why);
        }
    }
    None
}
