//! The order of the trees of an arena.

ghost use Rattle.std.specs.Prelude.{◌≡◌, ◌↔◌, ◌<◌, IsTrue, length};
ghost use Rattle.std.specs.Option.{option_map};
ghost use Rattle.std.specs.declared.cmp.Ordering.TheVariants.{Less};
ghost use Rattle.owl_arena.specs.Differences.{first_difference};
ghost use Rattle.owl_arena.specs.Roots.{atoms_cmp, roots_cmp};
ghost use Rattle.owl_arena.specs.Held.{tree_at};
ghost use Rattle.owl_tree.specs.Order.{tree_cmp};

use crate::arena::Arena;
use crate::expr_id::ExprId;
use owl_tree::Atom;
use std::cmp::Ordering;

impl Arena {
    /// Whether the tree of the one comes before that of the other: by tag, then
    /// by atom or kids, the kids as words.
    pub fn before(&self, a: ExprId, b: ExprId) -> bool
        requires a { a < length self.now.trees }
        requires b { b < length self.now.trees }
        ensures { IsTrue result ↔ (tree_cmp (tree_at self.now.trees a) (tree_at self.now.trees b) ≡ Less) }
    {
        self.compare(a, b) == Ordering::Less
    }

    /// The order of trees. Equal trees have one number, so only the first kids
    /// whose numbers differ have to be compared.
    #[tactic(auto, using(crate::proofs::Comparing::itself_ties, crate::proofs::Differences::differ_among))]
    pub(crate) fn compare(&self, a: ExprId, b: ExprId) -> Ordering
        requires a { a < length self.now.trees }
        requires b { b < length self.now.trees }
        ensures { result ≡ tree_cmp (tree_at self.now.trees a) (tree_at self.now.trees b) }
    {
        // Equal trees have one number.
        self.distinct();
        if a == b {
            return Ordering::Equal;
        }
        let roots = self.compare_roots(a, b);
        if roots != Ordering::Equal {
            return roots;
        }
        let kids = self.kids(a);
        let others = self.kids(b);
        match first_difference(kids, others) {
            Some((kid, other)) => self.compare(kid, other),
            None => kids.len().cmp(&others.len()),
        }
    }

    /// By tag, then by atom, a leaf before a node.
    fn compare_roots(&self, a: ExprId, b: ExprId) -> Ordering
        requires a { a < length self.now.trees }
        requires b { b < length self.now.trees }
        ensures { result ≡ roots_cmp (tree_at self.now.trees a) (tree_at self.now.trees b) }
    {
        self.tag(a)
            .cmp(&self.tag(b))
            .then(compare_atoms(self.atom(a), self.atom(b)))
    }
}

fn compare_atoms(a: Option<&Atom>, b: Option<&Atom>) -> Ordering
    ensures { result ≡ atoms_cmp (option_map (λ atom. atom.now) a.entry) (option_map (λ atom. atom.now) b.entry) }
{
    match (a, b) {
        (Some(a), Some(b)) => a.cmp(b),
        (Some(_), None) => Ordering::Less,
        (None, Some(_)) => Ordering::Greater,
        (None, None) => Ordering::Equal,
    }
}

/// The numbers at the first place where both lists have one and they differ.
#[tactic(auto, using(crate::proofs::Differences::further))]
fn first_difference(kids: &[ExprId], others: &[ExprId]) -> Option<(ExprId, ExprId)>
    ensures { result ≡ first_difference kids.now others.now }
{
    for place in 0..kids.len().min(others.len()) {
        if kids[place] != others[place] {
            return Some((kids[place], others[place]));
        }
    }
    None
}
