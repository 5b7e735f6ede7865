//! The subjects of axioms: that of which the block of an axiom is.

ghost use Rattle.std.specs.Prelude.{◌≡◌, ◌<◌, IfSome, length};
ghost use Rattle.std.specs.Option.{option_map};
ghost use Rattle.owl_arena.specs.Held.{AreHeld, tree_at, trees_at};
ghost use Rattle.owl_tree.specs.Trees.{kids_in, tag_of};
ghost use Rattle.man_normal.specs.Subjects.{is_behind_chain, subject_in, subject_place};

use owl_arena::{Arena, ExprId};
use owl_tree::Tag;

/// The subject of the axiom, where its block is of something.
pub fn subject(arena: &Arena, id: ExprId) -> Option<ExprId>
    requires { id < length arena.now.trees }
    ensures subject { option_map (tree_at arena.now.trees) result
        ≡ subject_in (tag_of (tree_at arena.now.trees id))
        (kids_in (tree_at arena.now.trees id)) }
    ensures held { IfSome result (λ subject. subject < length arena.now.trees) }
{
    let kids = arena.kids(id);
    let place = subject_place(arena.tag(id), is_behind_chain(arena, kids))?;
    kids.get(place).copied()
}

/// Whether a property chain stands behind the annotations of an axiom with these kids.
fn is_behind_chain(arena: &Arena, kids: &[ExprId]) -> bool
    requires { AreHeld arena.now.trees kids.now }
    ensures { result ≡ is_behind_chain (trees_at arena.now.trees kids.now) }
{
    match kids.get(1) {
        Some(kid) => arena.tag(*kid) == Tag::ObjectPropertyChain,
        None => false,
    }
}

/// The place of the subject among the kids of an axiom with the tag.
#[tactic(auto, unfolding(crate::specs::Subjects::subject_place), using(crate::proofs::SubjectRows::second_subject))]
fn subject_place(tag: Tag, behind_chain: bool) -> Option<usize>
    ensures { result ≡ subject_place tag behind_chain }
{
    match tag {
        Tag::EquivalentClasses
        | Tag::DisjointClasses
        | Tag::EquivalentObjectProperties
        | Tag::DisjointObjectProperties
        | Tag::EquivalentDataProperties
        | Tag::DisjointDataProperties
        | Tag::SameIndividual
        | Tag::DifferentIndividuals => None,
        Tag::ClassAssertion
        | Tag::ObjectPropertyAssertion
        | Tag::NegativeObjectPropertyAssertion
        | Tag::DataPropertyAssertion
        | Tag::NegativeDataPropertyAssertion
        | Tag::AnnotationAssertion => Some(2),
        Tag::SubObjectPropertyOf => Some(if behind_chain { 2 } else { 1 }),
        _ => Some(1),
    }
}
