//! Arenas as stores.

ghost use Rattle.std.specs.Prelude.{ℕ, List, IfErr, IfOk, length};
ghost use Rattle.owl_tree.specs.Trees.{Tree, kids_of, node};
ghost use Rattle.tree_stores.specs.Stores.{AreStanding, HasNumber, IsSmall, IsTreeFault, Keeps, StandFor};

use crate::fault::TreeFault;
use crate::store::TreeStore;
use owl_arena::{Arena, ExprId, Grow};
use owl_characters::NoMemory;
use owl_tree::{Atom, Tag};

impl TreeStore for Arena {
    type Number = ExprId;

    type Heavy = ();

    ghost stands = { λ arena t id. HasNumber arena.trees t id };

    ghost size = { λ arena. length arena.trees };

    fn count(&self) -> usize {
        self.distinct()
    }

    fn new_kids(&self, before: usize, number: ExprId) -> Option<(u64, ())> {
        self.distinct();
        if number.place() < before {
            return None;
        }
        Some((self.kids(number).len() as u64, ()))
    }

    fn hold_leaf(&mut self, tag: Tag, atom: Atom) -> Result<ExprId, NoMemory> {
        self.leaf(tag, atom).map_err(|_| NoMemory)
    }

    fn hold_node(&mut self, tag: Tag, kids: Vec<ExprId>) -> Result<ExprId, TreeFault<()>>
        requires { AreStanding (HasNumber self.old.trees) kids.items }
        ensures held { (ts : List Tree) → StandFor (HasNumber self.old.trees) ts kids.items →
            IfOk result (HasNumber self.new.trees (node tag (kids_of ts))) }
        ensures fault { (ts : List Tree) → StandFor (HasNumber self.old.trees) ts kids.items →
            IfErr result (IsTreeFault (node tag (kids_of ts))) }
        ensures kept { Keeps (HasNumber self.old.trees) (HasNumber self.new.trees) }
    {
        match self.node(tag, kids) {
            Ok(id) => Ok(id),
            Err(Grow::TooDeep) => Err(TreeFault::TooDeep),
            Err(Grow::TooHeavy) => Err(TreeFault::TooHeavy(())),
            Err(Grow::BadShape | Grow::TooMany | Grow::Memory) => Err(TreeFault::Memory),
        }
    }
}

/// Law: no tree of an arena has more than 128 levels, or more than 2^24 nodes and
/// leaves.
pub fn fits(arena: &Arena)
    ensures { (t : Tree) (id : ℕ) → HasNumber arena.now.trees t id → IsSmall t }
{
    arena.distinct();
}
