//! What is to be said against axioms by the frames that there are.

ghost use Rattle.std.specs.Prelude.{◌≡◌, ◌<◌, Some, length};
ghost use Rattle.std.specs.Option.{option_map};
ghost use Rattle.std.specs.List.{slice_get};
ghost use Rattle.owl_arena.specs.Held.{AreHeld, tree_at, trees_at};
ghost use Rattle.sayable_parts.specs.Reasons.{why_seen};
ghost use Rattle.man_resolve.specs.Expressions.{knows};
ghost use Rattle.man_sayable.specs.Sayable.{annotated_iri_objection, annotated_objection, frame_objection, has_kids};

use crate::frame_kinds::frame_kind;
use crate::subjects::against;
use owl_arena::{Arena, ExprId};
use owl_doc::Why;
use owl_kind::Kinds;
use owl_tree::{Atom, Tag};

/// What is to be said against an axiom with this tag and these kids by the frames
/// that there are.
#[tactic(auto, unfolding(crate::specs::Sayable::frame_objection), using(crate::proofs::FrameRows::any_frame))]
pub fn frame_objection<'a>(
    kinds: &Kinds,
    arena: &'a Arena,
    tag: Tag,
    kids: &[ExprId],
) -> Option<Why<'a>>
    requires { AreHeld arena.now.trees kids.now }
    ensures { option_map why_seen result
        ≡ frame_objection (knows kinds.now) tag (trees_at arena.now.trees kids.now) }
{
    match tag {
        Tag::Declaration => against(has_kids_at(arena, 0, kids), &Why::AnnotatedDeclaration),
        Tag::AnnotationAssertion => match kids.get(2) {
            Some(id) => annotated_objection(kinds, arena, *id),
            None => None,
        },
        _ => None,
    }
}

/// Whether the kid at this place has kids.
fn has_kids_at(arena: &Arena, place: usize, kids: &[ExprId]) -> bool
    requires { AreHeld arena.now.trees kids.now }
    ensures { result ≡ has_kids (slice_get (trees_at arena.now.trees kids.now) place) }
{
    match kids.get(place) {
        Some(id) => !arena.kids(*id).is_empty(),
        None => false,
    }
}

/// What is to be said against the subject of an annotation: that it is an IRI
/// that has the kind of no frame.
fn annotated_objection<'a>(kinds: &Kinds, arena: &'a Arena, id: ExprId) -> Option<Why<'a>>
    requires { id < length arena.now.trees }
    ensures { option_map why_seen result
        ≡ annotated_objection (knows kinds.now) (Some (tree_at arena.now.trees id)) }
{
    match arena.atom(id) {
        Some(atom) => annotated_iri_objection(kinds, atom),
        None => None,
    }
}

/// What is to be said against the IRI of the subject of an annotation.
fn annotated_iri_objection<'a>(kinds: &Kinds, atom: &'a Atom) -> Option<Why<'a>>
    ensures { option_map why_seen result ≡ annotated_iri_objection (knows kinds.now) atom.now }
{
    let Atom::Iri(iri) = atom else {
        return None;
    };
    match frame_kind(kinds, iri) {
        Some(_) => None,
        None => Some(Why::UndeclaredSubject(iri)),
    }
}
