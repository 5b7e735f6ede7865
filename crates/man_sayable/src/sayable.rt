//! Whether documents can be said in Manchester Syntax.

ghost use Rattle.std.specs.Prelude.{◌≡◌, ◌↔◌, ◌<◌, IfSome, IsNone, length};
ghost use Rattle.std.specs.Option.{option_map};
ghost use Rattle.owl_arena.specs.Held.{tree_at};
ghost use Rattle.owl_doc.specs.Documents.{ontology_of};
ghost use Rattle.owl_doc.specs.Entities.{IsHeldItem};
ghost use Rattle.owl_doc.specs.Parts.{part_at};
ghost use Rattle.sayable_parts.specs.Reasons.{why_seen};
ghost use Rattle.man_resolve.specs.Expressions.{knows};
ghost use Rattle.man_sayable.specs.Sayable.{CanSayAll, IsFirstUnsayable, axiom_objection, part_objection};

use crate::frames::frame_objection;
use crate::inside::{Look, inner_objection};
use crate::subjects::subject_objection;
use owl_arena::{Arena, ExprId};
use owl_doc::{Cant, Doc, Why};
use owl_kind::Kinds;
use sayable_parts::{Saying, first_unsaid};

/// Manchester Syntax under these kinds, as a syntax.
#[derive(Clone, Copy)]
struct Manchester<'k> {
    kinds: &'k Kinds,
}

impl<'k> Saying for Manchester<'k> {
    ghost objection = { λ syntax. part_objection (knows syntax.kinds.now) };

    fn header_objection<'a>(&self, _arena: &'a Arena, _notes: &[ExprId]) -> Option<Why<'a>> {
        None
    }

    fn axiom_objection<'a>(&self, arena: &'a Arena, id: ExprId) -> Option<Why<'a>> {
        axiom_objection(self.kinds, arena, id)
    }
}

/// The first part of the document that cannot be said in Manchester Syntax under
/// these kinds (sections 2.3 to 2.6), its header before its axioms in canonical
/// order, with what is to be said first against it. `None` exactly where all can
/// be said. Takes no memory.
pub fn can<'a>(doc: &'a Doc, kinds: &Kinds) -> Option<Cant<'a>>
    ensures none { IsNone result ↔ CanSayAll kinds.now (ontology_of doc.now) }
    ensures some { IfSome result (λ cant. IsFirstUnsayable kinds.now (ontology_of doc.now)
        (part_at doc.now cant.item) (why_seen cant.why)) }
    ensures held { IfSome result (λ cant. IsHeldItem doc.now cant.item) }
{
    first_unsaid(doc, &Manchester { kinds })
}

/// What is to be said first against the axiom.
fn axiom_objection<'a>(kinds: &Kinds, arena: &'a Arena, id: ExprId) -> Option<Why<'a>>
    requires { id < length arena.now.trees }
    ensures { option_map why_seen result
        ≡ axiom_objection (knows kinds.now) (tree_at arena.now.trees id) }
{
    let tag = arena.tag(id);
    let kids = arena.kids(id);
    if let Some(why) = subject_objection(arena, tag, kids) {
        return Some(why);
    }
    if let Some(why) = inner_objection(arena, id, Look::Properties) {
        return Some(why);
    }
    if let Some(why) = inner_objection(arena, id, Look::Facets) {
        return Some(why);
    }
    frame_objection(kinds, arena, tag, kids)
}
