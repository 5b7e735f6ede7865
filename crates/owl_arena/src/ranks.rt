//! Ranks of trees: numbers that put most trees in order with no look at their
//! texts. No contract speaks of them, since what they put in order is put in order
//! once more by the trees themselves, which a list that ascends already makes
//! cheap.

ghost use Rattle.std.specs.Prelude.{◌≡◌};
ghost use Rattle.std.specs.List.Sorted.{IsPermutation};
ghost use Rattle.owl_arena.specs.Held.{AreHeld, trees_at};
ghost use Rattle.owl_list.specs.Ascending.{HoldSame, ascending};
ghost use Rattle.owl_tree.specs.Order.{tree_cmp};

use crate::arena::Arena;
use crate::expr_id::ExprId;
use owl_characters::NoMemory;
use owl_list::sort_by_ranks;
use std::alloc::{AllocError, Global};
use std::cmp::Ordering;

/// How many kids a rank tells of.
const RANKED_KIDS: usize = 4;

/// How many bits of a rank each of them has.
const KID_BITS: u32 = 30;

/// The places of the leaves of an arena in their order.
#[derive(Debug, Drop)]
struct Ranks {
    /// By the place of a tree; 0 where it is no leaf.
    places: Vec<u32>,
    leaves: u32,
}

impl Ranks {
    /// The place of a leaf, counted from 1.
    fn of_leaf(&self, id: ExprId) -> u32 {
        self.places.get(id.place()).copied().unwrap_or(0)
    }
}

impl Arena {
    /// Puts the trees in ascending order, each once, as `sort_set`, but quicker
    /// where there is memory for it.
    pub fn sort_set_by_ranks(&self, alloc: Global, ids: &mut Vec<ExprId>)
        requires { AreHeld self.now.trees ids.old.items }
        ensures ascending { trees_at self.now.trees ids.new.items
            ≡ ascending tree_cmp (trees_at self.now.trees ids.old.items) }
        ensures same { HoldSame ids.new.items ids.old.items }
        ensures held { AreHeld self.now.trees ids.new.items }
    {
        self.sort_roughly(alloc, ids);
        // What ascends already is only gone through.
        self.sort_set(ids);
    }

    /// Puts the numbers in about the order of their trees, where there is memory
    /// for it.
    fn sort_roughly(&self, alloc: Global, ids: &mut Vec<ExprId>)
        ensures { IsPermutation ids.old.items ids.new.items }
    {
        if self.are_in_order(ids) {
            return;
        }
        if let Ok(ranks) = self.rank_leaves(alloc) {
            self.sort_by_ranks(&ranks, ids);
        }
    }

    /// Whether each comes before the next one.
    fn are_in_order(&self, ids: &[ExprId]) -> bool {
        for place in 1..ids.len() {
            if self.compare_any(ids[place - 1], ids[place]) != Ordering::Less {
                return false;
            }
        }
        true
    }

    fn sort_by_ranks(&self, ranks: &Ranks, ids: &mut Vec<ExprId>)
        ensures { IsPermutation ids.old.items ids.new.items }
    {
        sort_by_ranks(
            ids,
            |id| self.rank(ranks, *id),
            |a, b| self.compare_any(*a, *b),
        );
    }

    /// The rank of a tree: its tag, and its first kids as far as one rank tells all
    /// of a kid.
    fn rank(&self, ranks: &Ranks, id: ExprId) -> u128 {
        if !self.holds(id) {
            return 0;
        }
        let kids = self.kids(id);
        let mut rank = self.tag(id).number() as u128;
        let mut tells_all = true;
        for place in 0..RANKED_KIDS {
            let (of_kid, is_all) = match kids.get(place) {
                Some(kid) if tells_all => self.rank_of_kid(ranks, *kid),
                _ => (0, false),
            };
            rank = rank << KID_BITS | of_kid as u128;
            tells_all = is_all;
        }
        rank
    }

    /// The rank of a kid, and whether no other kid has it.
    fn rank_of_kid(&self, ranks: &Ranks, kid: ExprId) -> (u32, bool) {
        if !self.holds(kid) {
            return (0, false);
        }
        if self.atom(kid).is_some() {
            return (ranks.of_leaf(kid), true);
        }
        let is_empty = self.kids(kid).is_empty();
        let number = 2 * self.tag(kid).number() as u32 + !is_empty as u32;
        (ranks.leaves.saturating_add(number), is_empty)
    }

    /// The ranks of all leaves.
    fn rank_leaves(&self, alloc: Global) -> Result<Ranks, NoMemory> {
        let mut leaves = self.leaves(alloc)?;
        self.order(&mut leaves);
        let mut places = Vec::new(alloc);
        places.resize(self.distinct(), 0)?;
        let mut rank: u32 = 0;
        for leaf in &leaves {
            rank = rank.saturating_add(1);
            if let Some(place) = places.get_mut(leaf.place()) {
                *place = rank;
            }
        }
        Ok(Ranks {
            places,
            leaves: rank,
        })
    }

    /// The numbers of the leaves.
    fn leaves(&self, alloc: Global) -> Result<Vec<ExprId>, NoMemory> {
        let mut leaves = Vec::new(alloc);
        for place in 0..self.distinct() {
            let id = self.at(place);
            if self.atom(id).is_some() {
                leaves.push(id).map_err(AllocError::from)?;
            }
        }
        Ok(leaves)
    }
}
