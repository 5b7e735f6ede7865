//! Sets of trees as lists of numbers.

ghost use Rattle.std.specs.Prelude.{◌≡◌, ◌<◌, ◌++◌, slice_get, take, drop, length, nat_eq};
ghost use Rattle.std.specs.List.{dedup};
ghost use Rattle.std.specs.Option.{option_cmp};
ghost use Rattle.std.specs.List.Sorted.{IsPermutation};
ghost use Rattle.owl_list.specs.Ascending.{ascending, HoldSame};
ghost use Rattle.owl_arena.specs.Held.{AreHeld, trees_at};
ghost use Rattle.owl_arena.specs.InOrder.{AreInOrder, in_order_from, numbers_cmp};
ghost use Rattle.owl_tree.specs.Canonical.{arranged};
ghost use Rattle.owl_tree.specs.Order.{tree_cmp};
ghost use Rattle.owl_tree.specs.Rows.{row_of, set_start};

use crate::arena::Arena;
use crate::expr_id::ExprId;
use owl_tree::Tag;
use std::cmp::Ordering;

impl Arena {
    /// Puts the trees in ascending order, each once. Takes no memory.
    pub fn sort_set(&self, kids: &mut Vec<ExprId>)
        requires { AreHeld self.now.trees kids.old.items }
        ensures ascending { trees_at self.now.trees kids.new.items ≡ ascending tree_cmp (trees_at self.now.trees kids.old.items) }
        ensures same { HoldSame kids.new.items kids.old.items }
        ensures held { AreHeld self.now.trees kids.new.items }
    {
        // Equal trees have one number.
        self.distinct();
        self.arrange_from(kids, 0);
    }

    /// Puts the set part of the kids of a node in ascending order, each once.
    #[tactic(auto, using(crate::proofs::Ordering::trees_in_order, crate::proofs::Ordering::held_in_order))]
    pub(crate) fn arrange(&self, tag: Tag, kids: &mut Vec<ExprId>)
        requires { AreHeld self.now.trees kids.old.items }
        ensures arranged { trees_at self.now.trees kids.new.items ≡ arranged (set_start (row_of tag)) (trees_at self.now.trees kids.old.items) }
        ensures held { AreHeld self.now.trees kids.new.items }
    {
        // Equal trees have one number.
        self.distinct();
        match tag.set_start() {
            Some(front) => self.arrange_from(kids, front),
            None => {}
        }
    }

    /// Puts the numbers behind the front in ascending order, each once.
    #[tactic(auto, using(crate::proofs::Ordering::none_behind))]
    fn arrange_from(&self, kids: &mut Vec<ExprId>, front: usize)
        ensures { kids.new.items ≡ in_order_from self.now.trees front kids.old.items }
    {
        if front < kids.len() {
            self.order_from(kids, front);
            drop_repeats(kids, front);
        }
    }

    fn order_from(&self, kids: &mut Vec<ExprId>, front: usize)
        requires { front < length kids.old.items }
        ensures front { take front kids.new.items ≡ take front kids.old.items }
        ensures moved { IsPermutation (drop front kids.old.items) (drop front kids.new.items) }
        ensures sorted { AreInOrder self.now.trees (drop front kids.new.items) }
        ensures long { length kids.new.items ≡ length kids.old.items }
    {
        self.order(&mut kids[front..]);
    }

    /// Puts the numbers in order, and keeps repeats.
    pub(crate) fn order(&self, kids: &mut [ExprId])
        ensures moved { IsPermutation kids.old kids.new }
        ensures sorted { AreInOrder self.now.trees kids.new }
        ensures long { length kids.new ≡ length kids.old }
    {
        kids.sort_unstable_by(|a, b| self.compare_any(*a, *b));
    }

    /// The order of numbers: those of no tree first, then by tree. No two
    /// numbers tie.
    pub(crate) fn compare_any(&self, a: ExprId, b: ExprId) -> Ordering
        ensures { result ≡ numbers_cmp self.now.trees a b }
    {
        self.compare_held(a, b).then(a.cmp(&b))
    }

    fn compare_held(&self, a: ExprId, b: ExprId) -> Ordering
        ensures { result ≡ option_cmp tree_cmp (slice_get self.now.trees a) (slice_get self.now.trees b) }
    {
        match (self.holds(a), self.holds(b)) {
            (true, true) => self.compare(a, b),
            (true, false) => Ordering::Greater,
            (false, true) => Ordering::Less,
            (false, false) => Ordering::Equal,
        }
    }
}

/// Drops repeats that stand side by side behind the front.
fn drop_repeats(kids: &mut Vec<ExprId>, front: usize)
    requires { front < length kids.old.items }
    ensures { kids.new.items ≡ take front kids.old.items ++ dedup nat_eq (drop front kids.old.items) }
{
    let mut kept = front + 1;
    for place in front + 1..kids.len() {
        let kid = kids[place];
        if kids[kept - 1] != kid {
            kids[kept] = kid;
            kept += 1;
        }
    }
    kids.truncate(kept);
}
