//! A store that knows of each tree how deep it is.

ghost use Rattle.std.specs.Prelude.{◌≡◌, List, IfErr, IfOk};
ghost use Rattle.owl_tree.specs.Trees.{Tree, kids_of, node};
ghost use Rattle.tree_stores.specs.Stores.{AreStanding, HasDepth, IsTreeFault, Keeps, StandFor, most_of};

use crate::fault::TreeFault;
use crate::store::TreeStore;
use owl_arena::DEEPEST;
use owl_characters::NoMemory;
use owl_tree::{Atom, Tag};
use std::convert::Infallible;

/// A store whose numbers are the depths of trees, which holds nothing.
#[derive(Clone, Copy, Debug)]
pub struct Depths;

impl TreeStore for Depths {
    type Number = u32;

    type Heavy = Infallible;

    ghost stands = { λ _ t d. HasDepth t d };

    ghost size = { λ _. 0 };

    fn count(&self) -> usize {
        0
    }

    fn new_kids(&self, _before: usize, _number: u32) -> Option<(u64, Infallible)> {
        None
    }

    fn hold_leaf(&mut self, _tag: Tag, _atom: Atom) -> Result<u32, NoMemory> {
        Ok(1)
    }

    fn hold_node(&mut self, _tag: Tag, kids: Vec<u32>) -> Result<u32, TreeFault<Infallible>>
        requires { AreStanding HasDepth kids.items }
        ensures held { (ts : List Tree) → StandFor HasDepth ts kids.items →
            IfOk result (HasDepth (node _tag (kids_of ts))) }
        ensures fault { (ts : List Tree) → StandFor HasDepth ts kids.items →
            IfErr result (IsTreeFault (node _tag (kids_of ts))) }
        ensures kept { Keeps HasDepth HasDepth }
    {
        let most = most_of(&kids);
        if most < DEEPEST {
            Ok(most + 1)
        } else {
            Err(TreeFault::TooDeep)
        }
    }
}

/// The greatest of the numbers, or 0.
#[tactic(auto, using(crate::proofs::Counting::most_step, crate::proofs::Counting::most_end))]
fn most_of(numbers: &[u32]) -> u32
    ensures { result ≡ most_of numbers.now }
{
    let mut most = 0;
    for number in numbers {
        most = most.max(*number);
    }
    most
}
