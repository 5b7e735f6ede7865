//! Trees as steps.

ghost use Rattle.std.specs.Prelude.{◌≡◌, ◌++◌, ◌∷◌, [], List, IfErr, IfOk, OnOk, length};
ghost use Rattle.owl_tree.specs.Trees.{Tree};
ghost use Rattle.man_resolve.specs.Building.{Build, all_built, building, built, leaves, names_data, seen};
ghost use Rattle.man_resolve.specs.Expressions.{is_data};

use man_raw::Facet;
use owl_characters::NoMemory;
use owl_tree::{Atom, Tag};
use std::alloc::AllocError;

/// A leaf that is to be.
#[derive(Clone, Copy)]
pub struct Leaf<'a> {
    pub tag: Tag,
    pub atom: &'a Atom,
}

/// A step in making trees, kids before their node.
#[derive(Clone, Copy)]
pub enum Step<'a> {
    Leaf(Leaf<'a>),
    /// The leaf of a facet.
    Facet(Facet),
    /// A node over so many of the trees before it.
    Node(Tag, usize),
}

/// Adds the step.
pub fn add<'a>(steps: &mut Vec<Step<'a>>, step: Step<'a>) -> Result<(), NoMemory>
    ensures { OnOk result (built steps.new.items ≡ built steps.old.items ++ seen step.entry ∷ []) }
{
    steps.push(step).map_err(AllocError::from)?;
    Ok(())
}

/// Adds the leaf, if there is one, and says how many were added.
pub fn add_leaf<'a>(steps: &mut Vec<Step<'a>>, leaf: Option<Leaf<'a>>) -> Result<usize, NoMemory>
    ensures added { OnOk result
        (built steps.new.items ≡ built steps.old.items ++ all_built (leaves leaf.entry)) }
    ensures count { IfOk result (λ count. count ≡ length (leaves leaf.entry)) }
{
    match leaf {
        Some(leaf) => {
            add(steps, Step::Leaf(leaf))?;
            Ok(1)
        }
        None => Ok(0),
    }
}

/// Whether the last tree is the name of a data property.
pub fn ends_in_data(steps: &[Step]) -> bool
    ensures { (front : List Build) (t : Tree) → built steps.now ≡ front ++ building t
        → result ≡ is_data t }
{
    match steps.last() {
        Some(step) => names_data(step),
        None => false,
    }
}

/// Whether the step makes the name of a data property.
#[tactic(auto, unfolding(owl_tree::specs::Tags::number_of))]
fn names_data(step: &Step) -> bool
    ensures { result ≡ names_data (seen step.now) }
{
    match step {
        Step::Leaf(leaf) => leaf.tag == Tag::DataProperty,
        Step::Facet(_) | Step::Node(_, _) => false,
    }
}
