//! What is read of bytes: trees.

ghost use Rattle.std.specs.Prelude.{◌≡◌, ◌++◌, ◌<◌, ◌^◌, ◌≤◌, ℕ, List, [], ◌∷◌, IfErr, IfOk, OnOk, length, true};
ghost use Rattle.owl_arena.specs.Held.{AreHeld, node_over, tree_at, trees_at};
ghost use Rattle.owl_canon.specs.Bytes.{atom_bytes, counted, tree_bytes};
ghost use Rattle.owl_canon.specs.Inputs.{Finds};
ghost use Rattle.owl_canon.specs.Limits.{HasTexts};
ghost use Rattle.owl_canon.specs.Readable.{AreReadable, IsHere, IsReadable, AreHere};
ghost use Rattle.owl_canon.specs.declared.fault.CanonFault.{CanonFault};
ghost use Rattle.owl_tree.specs.Atoms.{IsAtom};
ghost use Rattle.owl_tree.specs.Canonical.{canonical};
ghost use Rattle.owl_tree.specs.Rows.{is_of_sort, row_of, Leaf};
ghost use Rattle.owl_tree.specs.Shape.{IsShaped};
ghost use Rattle.owl_tree.specs.Trees.{Tree, depth, leaf, weight};
ghost use Rattle.owl_tree.specs.declared.atom.Atom.{Atom};
ghost use Rattle.owl_arena.specs.Shared.{deepest, heaviest};

use crate::fault::CanonFault;
use crate::input::Input;
use crate::terms::read_atom;
use owl_arena::{Arena, ExprId, Grow};
use owl_tree::{Atom, AtomSort, Row, Tag};
use std::alloc::{AllocError, Global};

/// A tree of at most so many levels. Its kids may stand in any order.
#[cycle(reading)]
fn read_tree(
    alloc: Global,
    input: &mut Input,
    arena: &mut Arena,
    levels: u32,
) -> Result<ExprId, CanonFault>
    ensures here { IfOk result (λ id. IsHere arena.old.trees arena.new.trees id) }
    ensures found { (t : Tree) (more : List ℕ) → IsReadable levels t →
        input.old.rest.now ≡ tree_bytes t ++ more →
        Finds result (λ id. (tree_at arena.new.trees id ≡ t) × (input.new.rest.now ≡ more)) }
{
    let Some(tag) = Tag::numbered(input.byte()?) else {
        return Err(CanonFault::NotCanon);
    };
    match tag.row() {
        Row::Leaf(sort) => read_leaf(alloc, input, arena, tag, sort),
        Row::Node(_, _) => {
            if levels == 0 {
                return Err(CanonFault::NotCanon);
            }
            let kids = read_trees(alloc, input, arena, levels - 1)?;
            node_of(arena, tag, kids)
        }
    }
}

/// How many trees there are, and each, of at most so many levels.
#[cycle(reading)]
pub fn read_trees(
    alloc: Global,
    input: &mut Input,
    arena: &mut Arena,
    levels: u32,
) -> Result<Vec<ExprId>, CanonFault>
    ensures here { IfOk result (λ ids. AreHere arena.old.trees arena.new.trees ids.items) }
    ensures found { (ts : List Tree) (more : List ℕ) → AreReadable levels ts →
        length ts < 2 ^ 64 → input.old.rest.now ≡ counted tree_bytes ts ++ more →
        Finds result (λ ids. (trees_at arena.new.trees ids.items ≡ ts)
        × (input.new.rest.now ≡ more)) }
{
    let count = input.number()?;
    let mut ids = Vec::new(alloc);
    'trees: for _tree in 0..count {
        let id = read_tree(alloc, input, arena, levels)?;
        push(&mut ids, id)?;
    }
    Ok(ids)
}

/// A leaf, whose tag was read.
fn read_leaf(
    alloc: Global,
    input: &mut Input,
    arena: &mut Arena,
    tag: Tag,
    sort: AtomSort,
) -> Result<ExprId, CanonFault>
    requires { row_of tag ≡ Leaf sort }
    ensures here { IfOk result (λ id. IsHere arena.old.trees arena.new.trees id) }
    ensures found { (atom : Atom) (more : List ℕ) → IsShaped (leaf tag atom) → HasTexts atom →
        input.old.rest.now ≡ atom_bytes atom ++ more →
        Finds result (λ id. (tree_at arena.new.trees id ≡ leaf tag atom)
        × (input.new.rest.now ≡ more)) }
{
    let atom = read_atom(alloc, input, sort)?;
    leaf_of(arena, tag, atom)
}

/// The leaf in the arena.
fn leaf_of(arena: &mut Arena, tag: Tag, atom: Atom) -> Result<ExprId, CanonFault>
    ensures here { IfOk result (λ id. IsHere arena.old.trees arena.new.trees id) }
    ensures found { IsShaped (leaf tag atom) →
        Finds result (λ id. tree_at arena.new.trees id ≡ leaf tag atom) }
{
    match arena.leaf(tag, atom) {
        Ok(id) => Ok(id),
        Err(Grow::BadShape | Grow::TooDeep | Grow::TooHeavy) => Err(CanonFault::NotCanon),
        Err(Grow::TooMany | Grow::Memory) => Err(CanonFault::Memory),
    }
}

/// The node in the arena.
fn node_of(arena: &mut Arena, tag: Tag, kids: Vec<ExprId>) -> Result<ExprId, CanonFault>
    requires { AreHeld arena.old.trees kids.items }
    ensures here { IfOk result (λ id. IsHere arena.old.trees arena.new.trees id) }
    ensures found { IsShaped (node_over arena.old.trees tag kids.items) →
        depth (node_over arena.old.trees tag kids.items) ≤ deepest →
        weight (node_over arena.old.trees tag kids.items) ≤ heaviest →
        canonical (node_over arena.old.trees tag kids.items)
        ≡ node_over arena.old.trees tag kids.items →
        Finds result (λ id. tree_at arena.new.trees id
        ≡ node_over arena.old.trees tag kids.items) }
{
    match arena.node(tag, kids) {
        Ok(id) => Ok(id),
        Err(Grow::BadShape | Grow::TooDeep | Grow::TooHeavy) => Err(CanonFault::NotCanon),
        Err(Grow::TooMany | Grow::Memory) => Err(CanonFault::Memory),
    }
}

/// Puts the number behind the others.
fn push(ids: &mut Vec<ExprId>, id: ExprId) -> Result<(), CanonFault>
    ensures pushed { OnOk result (ids.new.items ≡ ids.old.items ++ id ∷ []) }
    ensures memory { IfErr result (λ fault. fault ≡ CanonFault.Memory) }
{
    match ids.push(id) {
        Ok(()) => Ok(()),
        Err(_full) => Err(CanonFault::Memory),
    }
}
