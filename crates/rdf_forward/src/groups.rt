//! Axioms that differ in their annotations alone.

ghost use Rattle.std.specs.Prelude.{◌≡◌, ◌↔◌, ◌<◌, IfOk, IsTrue, OnOk, length};
ghost use Rattle.owl_arena.specs.Held.{AreHeld, tree_at, trees_at};
ghost use Rattle.owl_tree.specs.Order.{kids_cmp, tree_cmp};
ghost use Rattle.owl_tree.specs.Trees.{kids_of};
ghost use Rattle.rdf_mapping.specs.Graphs.{bare, groups_of};
ghost use Rattle.rdf_forward.specs.AxiomWalks.{WritesGroups};
ghost use Rattle.rdf_forward.specs.BareOrder.{AreOrdered, AreSorted, IsGroup};
ghost use Rattle.rdf_forward.specs.BareOrder.{bare_cmp, numbers_cmp};

use crate::writer::Writer;
use owl_arena::{Arena, ExprId};
use owl_characters::NoMemory;
use std::alloc::Global;
use std::cmp::Ordering;

fn compare_trees(arena: &Arena, a: ExprId, b: ExprId) -> Ordering
    requires a { a < length arena.now.trees }
    requires b { b < length arena.now.trees }
    ensures { result ≡ tree_cmp (tree_at arena.now.trees a) (tree_at arena.now.trees b) }
{
    // Equal trees have one number.
    arena.distinct();
    if a == b {
        return Ordering::Equal;
    }
    if arena.before(a, b) {
        Ordering::Less
    } else {
        Ordering::Greater
    }
}

/// The order of kids as words.
fn compare_kids(arena: &Arena, kids: &[ExprId], others: &[ExprId]) -> Ordering
    requires kids { AreHeld arena.now.trees kids.now }
    requires others { AreHeld arena.now.trees others.now }
    ensures { result ≡ kids_cmp (kids_of (trees_at arena.now.trees kids.now))
        (kids_of (trees_at arena.now.trees others.now)) }
{
    let mut left = kids;
    let mut right = others;
    while let [kid, kids @ ..] = left {
        let [other, others @ ..] = right else {
            return Ordering::Greater;
        };
        let order = compare_trees(arena, *kid, *other);
        if order != Ordering::Equal {
            return order;
        }
        left = kids;
        right = others;
    }
    if right.is_empty() {
        Ordering::Equal
    } else {
        Ordering::Less
    }
}

/// The order of two axioms without their annotations.
fn compare_bare(arena: &Arena, a: ExprId, b: ExprId) -> Ordering
    requires a { a < length arena.now.trees }
    requires b { b < length arena.now.trees }
    ensures { result ≡ bare_cmp (tree_at arena.now.trees a) (tree_at arena.now.trees b) }
{
    let [_notes, kids @ ..] = arena.kids(a) else {
        return compare_trees(arena, a, b);
    };
    let [_others, others @ ..] = arena.kids(b) else {
        return compare_trees(arena, a, b);
    };
    arena
        .tag(a)
        .cmp(&arena.tag(b))
        .then(compare_kids(arena, kids, others))
}

/// The same of any numbers, of which those of no tree come first.
fn compare_any(arena: &Arena, a: ExprId, b: ExprId) -> Ordering
    ensures { result ≡ numbers_cmp arena.now.trees a b }
{
    match (arena.holds(a), arena.holds(b)) {
        (true, true) => compare_bare(arena, a, b),
        (true, false) => Ordering::Greater,
        (false, true) => Ordering::Less,
        (false, false) => Ordering::Equal,
    }
}

/// The axioms in this order, where those that differ in their annotations alone
/// stand as they stood.
pub fn sorted(alloc: Global, arena: &Arena, axioms: &[ExprId]) -> Result<Vec<ExprId>, NoMemory>
    ensures { IfOk result (λ ids. AreSorted arena.now.trees axioms.now ids.items) }
{
    let mut ids = axioms.to_vec(alloc)?;
    ids.sort_by(|a, b| compare_any(arena, *a, *b))?;
    Ok(ids)
}

/// Whether two axioms are the same but for their annotations.
fn same_but_for_notes(arena: &Arena, a: ExprId, b: ExprId) -> bool
    requires a { a < length arena.now.trees }
    requires b { b < length arena.now.trees }
    ensures { IsTrue result ↔ (bare (tree_at arena.now.trees a)
        ≡ bare (tree_at arena.now.trees b)) }
{
    compare_bare(arena, a, b) == Ordering::Equal
}

/// How many of the axioms are the same as the first but for their annotations.
pub fn group_len(arena: &Arena, axioms: &[ExprId]) -> usize
    requires held { AreHeld arena.now.trees axioms.now }
    requires some { 0 < length axioms.now }
    ensures { IsGroup arena.now.trees axioms.now result }
{
    for place in 1..axioms.len() {
        if !same_but_for_notes(arena, axioms[0], axioms[place]) {
            return place;
        }
    }
    axioms.len()
}

impl Writer {
    /// Adds the triples of a document's axioms.
    pub fn write_all_axioms(&mut self, arena: &Arena, axioms: &[ExprId]) -> Result<(), NoMemory>
        requires { AreHeld arena.now.trees axioms.now }
        ensures { OnOk result (WritesGroups self.old self.new
            (groups_of (trees_at arena.now.trees axioms.now))) }
    {
        let axioms = sorted(self.alloc, arena, axioms)?;
        self.write_groups(arena, &axioms)
    }

    /// Adds the triples of axioms that are in order, group by group.
    fn write_groups(&mut self, arena: &Arena, axioms: &[ExprId]) -> Result<(), NoMemory>
        requires held { AreHeld arena.now.trees axioms.now }
        requires ordered { AreOrdered (trees_at arena.now.trees axioms.now) }
        ensures { OnOk result (WritesGroups self.old self.new
            (groups_of (trees_at arena.now.trees axioms.now))) }
    {
        let mut left = axioms;
        while let [first, ..] = left {
            let (group, others) = left.split_at(group_len(arena, left));
            self.write_axioms(arena, *first, group)?;
            left = others;
        }
        Ok(())
    }
}
