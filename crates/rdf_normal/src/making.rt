//! Nodes that are made in an arena.

ghost use Rattle.std.specs.Prelude.{◌≡◌, ◌∷◌, [], ◌++◌, IfErr, IfOk, OnErr, OnOk};
ghost use Rattle.owl_arena.specs.Growth.{Adds};
ghost use Rattle.owl_arena.specs.Held.{AreHeld, node_over};
ghost use Rattle.owl_tree.specs.Canonical.{canonical};
ghost use Rattle.owl_tree.specs.Shape.{IsShaped};
ghost use Rattle.owl_tree.specs.Trees.{leaf};
ghost use Rattle.rdf_normal.specs.Makings.{IsMade};
ghost use Rattle.rdf_normal.specs.declared.fault.NormFault.{NormFault};

use crate::fault::NormFault;
use owl_arena::{Arena, ExprId, Grow};
use owl_tree::{Atom, Tag};
use std::alloc::AllocError;

/// The number of the canonical form of the node. At want of memory nothing changes.
pub fn make(arena: &mut Arena, tag: Tag, kids: Vec<ExprId>) -> Result<ExprId, NormFault>
    requires { AreHeld arena.old.trees kids.items }
    ensures made { IfOk result (λ id. IsMade arena.old.trees arena.new.trees id
        (canonical (node_over arena.old.trees tag kids.items))) }
    ensures added { OnOk result (Adds arena.old.trees arena.new.trees
        (canonical (node_over arena.old.trees tag kids.items))) }
    ensures memory { IfErr result (λ fault. fault ≡ NormFault.Memory) }
    ensures err { OnErr result (arena.new ≡ arena.old) }
{
    match arena.node(tag, kids) {
        Ok(id) => Ok(id),
        Err(Grow::Memory) => Err(NormFault::Memory),
        Err(Grow::TooMany) => Err(NormFault::Memory),
        Err(Grow::BadShape) => Err(NormFault::Memory),
        Err(Grow::TooDeep) => Err(NormFault::Memory),
        Err(Grow::TooHeavy) => Err(NormFault::Memory),
    }
}

/// Adds the leaf, unless it is there.
pub fn add_leaf(arena: &mut Arena, tag: Tag, atom: Atom) -> Result<(), NormFault>
    requires { IsShaped (leaf tag atom) }
    ensures added { OnOk result (Adds arena.old.trees arena.new.trees (leaf tag atom)) }
    ensures memory { IfErr result (λ fault. fault ≡ NormFault.Memory) }
{
    match arena.leaf(tag, atom) {
        Ok(_id) => Ok(()),
        Err(Grow::Memory) => Err(NormFault::Memory),
        Err(Grow::TooMany) => Err(NormFault::Memory),
        Err(Grow::BadShape) => unreachable!(),
        Err(Grow::TooDeep) => unreachable!(),
        Err(Grow::TooHeavy) => unreachable!(),
    }
}

/// Puts the number behind the others.
pub fn push(ids: &mut Vec<ExprId>, id: ExprId) -> Result<(), NormFault>
    ensures pushed { OnOk result (ids.new.items ≡ ids.old.items ++ id ∷ []) }
    ensures memory { IfErr result (λ fault. fault ≡ NormFault.Memory) }
{
    Ok(ids.push(id).map_err(AllocError::from)?)
}
