//! Trees that are made of steps, in a store.

ghost use Rattle.std.specs.Prelude.{◌≡◌, ◌++◌, ◌∷◌, List, [], IfErr, IfOk, OnOk};
ghost use Rattle.owl_tree.specs.Trees.{Tree};
ghost use Rattle.tree_stores.specs.Stores.{AreStanding, Keeps, StandFor};
ghost use Rattle.man_resolve.specs.Building.{a_leaf, a_node, seen};
ghost use Rattle.man_resolve.specs.Making.{AreMade, IsFaultAmong, stepped, trees_of};

use crate::facets::facet_iri;
use crate::step::Step;
use owl_tree::{Atom, Tag};
use std::alloc::{AllocError, Global};
use tree_stores::{TreeFault, TreeStore};

/// The numbers of the trees that the steps make.
///
/// `TooDeep` where one is more than 128 levels deep, `TooHeavy` where one has more
/// than 2^24 nodes and leaves.
pub fn make_trees<S: TreeStore>(
    alloc: Global,
    store: &mut S,
    steps: &[Step],
) -> Result<Vec<S::Number>, TreeFault<S::Heavy>>
    ensures made { IfOk result (λ numbers.
        StandFor (S.stands store.new) (trees_of steps.now) numbers.items) }
    ensures fault { IfErr result (IsFaultAmong (trees_of steps.now)) }
    ensures kept { Keeps (S.stands store.old) (S.stands store.new) }
{
    let mut numbers = Vec::new(alloc);
    for step in steps {
        make_step(alloc, store, step, &mut numbers)?;
    }
    Ok(numbers)
}

/// What stands for the annotations and for the axioms of a document.
#[derive(Drop)]
pub struct Made<N> {
    pub notes: Vec<N>,
    pub axioms: Vec<N>,
}

/// The numbers of the annotations and of the axioms that the steps make.
pub fn make_both<S: TreeStore>(
    alloc: Global,
    store: &mut S,
    notes: &[Step],
    axioms: &[Step],
) -> Result<Made<S::Number>, TreeFault<S::Heavy>>
    ensures made { IfOk result (λ numbers.
        AreMade (S.stands store.new) (trees_of notes.now) (trees_of axioms.now)
        numbers.notes.items numbers.axioms.items) }
    ensures fault { IfErr result (IsFaultAmong (trees_of notes.now ++ trees_of axioms.now)) }
    ensures kept { Keeps (S.stands store.old) (S.stands store.new) }
{
    let notes = make_trees(alloc, store, notes)?;
    let axioms = make_trees(alloc, store, axioms)?;
    Ok(Made { notes, axioms })
}

/// Makes the tree of one step.
fn make_step<S: TreeStore>(
    alloc: Global,
    store: &mut S,
    step: &Step,
    numbers: &mut Vec<S::Number>,
) -> Result<(), TreeFault<S::Heavy>>
    requires { AreStanding (S.stands store.old) numbers.old.items }
    ensures made { OnOk result ((ts : List Tree)
        → StandFor (S.stands store.old) ts numbers.old.items
        → StandFor (S.stands store.new) (stepped (seen step.now) ts) numbers.new.items) }
    ensures fault { IfErr result (λ fault. (ts : List Tree)
        → StandFor (S.stands store.old) ts numbers.old.items
        → IsFaultAmong (stepped (seen step.now) ts) fault) }
    ensures kept { Keeps (S.stands store.old) (S.stands store.new) }
{
    match step {
        Step::Leaf(leaf) => {
            let atom = leaf.atom.copy(alloc)?;
            make_leaf(store, leaf.tag, atom, numbers)
        }
        Step::Facet(facet) => {
            let iri = facet_iri(alloc, *facet)?;
            make_leaf(store, Tag::Facet, Atom::Iri(iri), numbers)
        }
        Step::Node(tag, count) => make_node(store, *tag, *count, numbers),
    }
}

/// Makes a leaf.
fn make_leaf<S: TreeStore>(
    store: &mut S,
    tag: Tag,
    atom: Atom,
    numbers: &mut Vec<S::Number>,
) -> Result<(), TreeFault<S::Heavy>>
    ensures made { OnOk result ((ts : List Tree)
        → StandFor (S.stands store.old) ts numbers.old.items
        → StandFor (S.stands store.new) (stepped (a_leaf tag atom) ts) numbers.new.items) }
    ensures memory { IfErr result (λ fault. fault ≡ TreeFault.Memory) }
    ensures kept { Keeps (S.stands store.old) (S.stands store.new) }
{
    let number = store.hold_leaf(tag, atom)?;
    push(numbers, number)?;
    Ok(())
}

/// Makes a node over the last so many trees.
fn make_node<S: TreeStore>(
    store: &mut S,
    tag: Tag,
    count: usize,
    numbers: &mut Vec<S::Number>,
) -> Result<(), TreeFault<S::Heavy>>
    requires { AreStanding (S.stands store.old) numbers.old.items }
    ensures made { OnOk result ((ts : List Tree)
        → StandFor (S.stands store.old) ts numbers.old.items
        → StandFor (S.stands store.new) (stepped (a_node tag count) ts) numbers.new.items) }
    ensures fault { IfErr result (λ fault. (ts : List Tree)
        → StandFor (S.stands store.old) ts numbers.old.items
        → IsFaultAmong (stepped (a_node tag count) ts) fault) }
    ensures kept { Keeps (S.stands store.old) (S.stands store.new) }
{
    let front = numbers.len().saturating_sub(count);
    let kids = numbers.split_off(front)?;
    let number = store.hold_node(tag, kids)?;
    push(numbers, number)?;
    Ok(())
}

/// One number more.
fn push<N: Copy>(numbers: &mut Vec<N>, number: N) -> Result<(), AllocError>
    ensures { OnOk result (numbers.new.items ≡ numbers.old.items ++ number ∷ []) }
{
    numbers.push(number).map_err(AllocError::from)
}
