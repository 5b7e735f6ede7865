//! Which kids a node may have.

ghost use Rattle.std.specs.Prelude.{◌≡◌, ◌↔◌, ◌<◌, ◌⊎◌, IsTrue, drop, length};
ghost use Rattle.owl_arena.specs.Held.{AreHeld, tree_at, trees_at};
ghost use Rattle.owl_arena.specs.Members.{are_at_most_two, are_either, are_one_other, tags_at};
ghost use Rattle.owl_tree.specs.Places.{admits_from};
ghost use Rattle.owl_tree.specs.Rows.{fits, row_of, row_seen};
ghost use Rattle.owl_tree.specs.Shape.{AreAtMostTwo, FitsRow, HasKeyProperty};
ghost use Rattle.owl_tree.specs.ShapeTests.{IsKeyGroup};
ghost use Rattle.owl_tree.specs.declared.tag.Tag.TheVariants as variant;

use crate::arena::Arena;
use crate::expr_id::ExprId;
use owl_tree::{Row, Tag};

impl Arena {
    /// The kids have the sorts of the tag's row, and the numbers that no row
    /// says.
    pub(crate) fn fits(&self, tag: Tag, kids: &[ExprId]) -> bool
        requires { AreHeld self.now.trees kids.now }
        ensures { IsTrue result ↔ FitsRow tag (trees_at self.now.trees kids.now) }
    {
        self.fits_row(tag, kids) && self.fits_inverses(tag, kids) && self.fits_keys(tag, kids)
    }

    fn fits_row(&self, tag: Tag, kids: &[ExprId]) -> bool
        requires { AreHeld self.now.trees kids.now }
        ensures { result ≡ fits (row_of tag) (tags_at self.now.trees kids.now) }
    {
        let row = tag.row();
        row.takes_count(kids.len()) && self.admits_all(row, kids)
    }

    /// Each kid may stand at its place.
    #[tactic(auto, using(crate::proofs::Shapes::held_at, crate::proofs::Shapes::kid_admitted, crate::proofs::Shapes::kid_refused, crate::proofs::Shapes::kids_admitted))]
    fn admits_all(&self, row: Row, kids: &[ExprId]) -> bool
        requires { AreHeld self.now.trees kids.now }
        ensures { result ≡ admits_from (row_seen row) 0 (tags_at self.now.trees kids.now) }
    {
        for (place, kid) in kids.iter().enumerate() {
            if !row.admits(place, kids.len() - place - 1, self.tag(*kid)) {
                return false;
            }
        }
        true
    }

    fn fits_inverses(&self, tag: Tag, kids: &[ExprId]) -> bool
        requires { AreHeld self.now.trees kids.now }
        ensures { IsTrue result ↔ (tag ≡ variant.InverseObjectProperties → AreAtMostTwo (drop 1 (trees_at self.now.trees kids.now))) }
    {
        tag != Tag::InverseObjectProperties || self.has_at_most_two(kids)
    }

    /// The kids behind the first, counted without repeats, are at most two.
    fn has_at_most_two(&self, kids: &[ExprId]) -> bool
        requires { AreHeld self.now.trees kids.now }
        ensures { IsTrue result ↔ AreAtMostTwo (drop 1 (trees_at self.now.trees kids.now)) }
    {
        // Equal trees have one number.
        self.distinct();
        are_at_most_two(behind_first(kids))
    }

    fn fits_keys(&self, tag: Tag, kids: &[ExprId]) -> bool
        requires { AreHeld self.now.trees kids.now }
        ensures { IsTrue result ↔ (tag ≡ variant.HasKey → HasKeyProperty (trees_at self.now.trees kids.now)) }
    {
        tag != Tag::HasKey || self.some_has_key(kids)
    }

    fn some_has_key(&self, kids: &[ExprId]) -> bool
        requires { AreHeld self.now.trees kids.now }
        ensures { IsTrue result ↔ HasKeyProperty (trees_at self.now.trees kids.now) }
    {
        for kid in kids {
            if self.has_key(*kid) {
                return true;
            }
        }
        false
    }

    /// The tree is a group of keys that has a member.
    fn has_key(&self, id: ExprId) -> bool
        requires { id < length self.now.trees }
        ensures { IsTrue result ↔ IsKeyGroup (tree_at self.now.trees id) }
    {
        is_key_tag(self.tag(id)) && !self.kids(id).is_empty()
    }
}

fn is_key_tag(tag: Tag) -> bool
    ensures { IsTrue result ↔ (tag ≡ variant.ObjectKeys) ⊎ (tag ≡ variant.DataKeys) }
{
    tag == Tag::ObjectKeys || tag == Tag::DataKeys
}

fn behind_first(kids: &[ExprId]) -> &[ExprId]
    ensures { result.now ≡ drop 1 kids.now }
{
    match kids {
        [] => kids,
        [_, others @ ..] => others,
    }
}

fn are_at_most_two(members: &[ExprId]) -> bool
    ensures { result ≡ are_at_most_two members.now }
{
    match members {
        [] => true,
        [one, others @ ..] => are_one_other(*one, others),
    }
}

/// The numbers that are not this one are one other.
#[tactic(auto, using(crate::proofs::Shapes::is_one, crate::proofs::Shapes::is_other, crate::proofs::Shapes::no_other))]
fn are_one_other(one: ExprId, members: &[ExprId]) -> bool
    ensures { result ≡ are_one_other one members.now }
{
    for (place, member) in members.iter().enumerate() {
        if *member != one {
            return are_either(one, *member, &members[place + 1..]);
        }
    }
    true
}

fn are_either(one: ExprId, other: ExprId, members: &[ExprId]) -> bool
    ensures { result ≡ are_either one other members.now }
{
    members
        .iter()
        .all(|member| *member == one || *member == other)
}
