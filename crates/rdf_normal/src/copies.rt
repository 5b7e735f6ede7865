//! Copies of arenas.

ghost use Rattle.std.specs.Prelude.{◌≡◌, ◌<◌, ◌+◌, IfErr, IfOk, OnOk, length, take};
ghost use Rattle.owl_arena.specs.Shared.{AreShared};
ghost use Rattle.rdf_normal.specs.declared.fault.NormFault.{NormFault};

use crate::fault::NormFault;
use crate::making::{add_leaf, make};
use owl_arena::{Arena, ExprId};
use std::alloc::Global;

/// The same trees, with the same numbers.
pub fn copied(alloc: Global, arena: &Arena) -> Result<Arena, NormFault>
    ensures trees { IfOk result (λ copy. copy.trees ≡ arena.now.trees) }
    ensures memory { IfErr result (λ fault. fault ≡ NormFault.Memory) }
{
    let mut copy = Arena::new(alloc);
    copy_all(alloc, arena, &mut copy)?;
    Ok(copy)
}

/// Copies all trees.
fn copy_all(alloc: Global, arena: &Arena, copy: &mut Arena) -> Result<(), NormFault>
    requires { length copy.old.trees ≡ 0 }
    ensures trees { OnOk result (copy.new.trees ≡ arena.now.trees) }
    ensures memory { IfErr result (λ fault. fault ≡ NormFault.Memory) }
{
    copy.reserve(arena.distinct())?;
    'places: for place in 0..arena.distinct() {
        copy_tree(alloc, arena, arena.at(place), copy)?;
    }
    Ok(())
}

/// Copies the tree, before which all were copied.
fn copy_tree(alloc: Global, arena: &Arena, id: ExprId, copy: &mut Arena) -> Result<(), NormFault>
    requires id { id < length arena.now.trees }
    requires shared { AreShared arena.now.trees }
    requires before { copy.old.trees ≡ take id arena.now.trees }
    ensures copied { OnOk result (copy.new.trees ≡ take (id + 1) arena.now.trees) }
    ensures memory { IfErr result (λ fault. fault ≡ NormFault.Memory) }
{
    let tag = arena.tag(id);
    match arena.atom(id) {
        Some(atom) => add_leaf(copy, tag, atom.copy(alloc)?),
        None => {
            let kids = Vec::from_slice(alloc, arena.kids(id))?;
            let _id = make(copy, tag, kids)?;
            Ok(())
        }
    }
}
