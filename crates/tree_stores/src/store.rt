//! Stores of trees.

ghost use Rattle.std.specs.Prelude.{◌≡◌, ◌∷◌, [], IfErr, IfOk, IfSome, List, ℕ};
ghost use Rattle.owl_tree.specs.Trees.{Tree, kids_of, leaf, node};
ghost use Rattle.tree_stores.specs.Stores.{AreStanding, IsFirstFault, IsNew, IsSumWith, IsSumWithFirst, IsTreeFault, Keeps, PassesWith, StandFor};

use crate::fault::TreeFault;
use owl_arena::HEAVIEST;
use owl_characters::NoMemory;
use owl_tree::{Atom, Tag};

/// What takes trees, kids before their node, and gives a number for each.
pub trait TreeStore {
    type Number: Copy;

    /// What is told beside `TooHeavy`: of a store that never tells it, a type of no
    /// values.
    type Heavy: Copy;

    /// The number is one that was given for the tree.
    ghost stands: { Self → Tree → Self.Number → Type 0 };

    /// So many trees are in it.
    ghost size: { Self → ℕ };

    /// How many trees are in it; 0 where it holds none.
    fn count(&self) -> usize
        ensures { result ≡ size self.now };

    /// How many kids the canonical form of the tree has, and what is told where it is
    /// too heavy; none where the tree is one of the first so many.
    fn new_kids(&self, before: usize, number: Self::Number) -> Option<(u64, Self::Heavy)>
        requires { AreStanding (stands self.now) (number ∷ []) }
        ensures { IfSome result (λ found. (old : Self) → size old ≡ before →
            Keeps (stands old) (stands self.now) → (t : Tree) → stands self.now t number →
            IsNew (stands old) t found.0) };

    /// The number of the leaf.
    fn hold_leaf(&mut self, tag: Tag, atom: Atom) -> Result<Self::Number, NoMemory>
        ensures held { IfOk result (stands self.new (leaf tag atom)) }
        ensures kept { Keeps (stands self.old) (stands self.new) };

    /// The number of the node with the tag over the trees that have these numbers.
    ///
    /// `TooDeep` where it is more than 128 levels deep, `TooHeavy` where it has
    /// more than 2^24 nodes and leaves.
    fn hold_node(
        &mut self,
        tag: Tag,
        kids: Vec<Self::Number>,
    ) -> Result<Self::Number, TreeFault<Self::Heavy>>
        requires { AreStanding (stands self.old) kids.items }
        ensures held { (ts : List Tree) → StandFor (stands self.old) ts kids.items →
            IfOk result (stands self.new (node tag (kids_of ts))) }
        ensures fault { (ts : List Tree) → StandFor (stands self.old) ts kids.items →
            IfErr result (IsTreeFault (node tag (kids_of ts))) }
        ensures kept { Keeps (stands self.old) (stands self.new) };
}

/// The sum with the kids of the tree, where it is none of the first so many trees; what
/// is told beside `TooHeavy`, where that is more than 2^24.
pub fn add_kids<S: TreeStore>(
    store: &S,
    before: usize,
    number: S::Number,
    sum: u64,
) -> Result<u64, S::Heavy>
    requires { AreStanding (S.stands store.now) (number ∷ []) }
    ensures sum { (old : S) (t : Tree) → S.size old ≡ before →
        Keeps (S.stands old) (S.stands store.now) → S.stands store.now t number →
        IfOk result (IsSumWith (S.stands old) t sum) }
    ensures heavy { (old : S) (t : Tree) → S.size old ≡ before →
        Keeps (S.stands old) (S.stands store.now) → S.stands store.now t number →
        IfErr result (λ _. PassesWith (S.stands old) t sum) }
{
    match store.new_kids(before, number) {
        Some((kids, heavy)) => {
            if HEAVIEST.saturating_sub(sum) < kids {
                Err(heavy)
            } else {
                Ok(sum + kids)
            }
        }
        None => Ok(sum),
    }
}

/// The sum with the kids of the tree that the first of the numbers stands for, where
/// that is none of the first so many trees of the store; `TooHeavy` where that is more
/// than 2^24.
///
/// The others are left out, since two of them may stand for the same tree.
pub fn add_first_kids<S: TreeStore>(
    store: &S,
    before: usize,
    numbers: &[S::Number],
    sum: u64,
) -> Result<u64, TreeFault<S::Heavy>>
    requires { AreStanding (S.stands store.now) numbers.now }
    ensures sum { (old : S) (ts : List Tree) → S.size old ≡ before
        → Keeps (S.stands old) (S.stands store.now) → StandFor (S.stands store.now) ts numbers.now →
        IfOk result (IsSumWithFirst (S.stands old) ts sum) }
    ensures fault { (old : S) (ts : List Tree) → S.size old ≡ before
        → Keeps (S.stands old) (S.stands store.now) → StandFor (S.stands store.now) ts numbers.now →
        IfErr result (IsFirstFault (S.stands old) ts sum) }
{
    match numbers {
        [first, ..] => match add_kids(store, before, *first, sum) {
            Ok(more) => Ok(more),
            Err(heavy) => Err(TreeFault::TooHeavy(heavy)),
        },
        [] => Ok(sum),
    }
}
