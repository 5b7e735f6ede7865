//! One pass over an arena.

ghost use Rattle.std.specs.Prelude.{◌<◌, IfOk, length};
ghost use Rattle.dl_local.specs.Faults.{AreFaultsBelow, AreFaultsOf, AreLocalFaults, IsKnown};
ghost use Rattle.owl_arena.specs.Held.{tree_at};
ghost use Rattle.owl_breaches.specs.Sites.{Ontologies};

use crate::faults::{LocalFaults, faults_of_all};
use crate::leaves::leaf_faults;
use crate::nodes::node_faults;
use graph_walks::has_mark;
use owl_arena::{Arena, ExprId};
use owl_kind::Kinds;
use std::alloc::{AllocError, Global};

/// For each tree of the arena, by its place, for what it or some tree below it is at
/// fault.
///
/// The marks say of each place whether the tree there has a datatype that may not be
/// used, and whether it is an object property expression that is not simple.
pub fn local_faults(
    alloc: Global,
    arena: &Arena,
    kinds: &Kinds,
    misused: &[bool],
    composite: &[bool],
) -> Result<Vec<LocalFaults>, AllocError>
    ensures { IfOk result (λ found. (c : Ontologies)
        → IsKnown c arena.now.trees kinds.now misused.now composite.now
        → AreLocalFaults c arena.now.trees found.items) }
{
    let count = arena.distinct();
    let mut found = Vec::with_capacity(alloc, count)?;
    'places: for place in 0..count {
        let faults = tree_faults(arena, arena.at(place), kinds, misused, composite, &found);
        found.push(faults)?;
    }
    Ok(found)
}

/// For what the tree or some tree below it is at fault, where that is found of the
/// trees before it.
fn tree_faults(
    arena: &Arena,
    id: ExprId,
    kinds: &Kinds,
    misused: &[bool],
    composite: &[bool],
    found: &[LocalFaults],
) -> LocalFaults
    requires { id < length arena.now.trees }
    ensures { (c : Ontologies)
        → IsKnown c arena.now.trees kinds.now misused.now composite.now
        → AreFaultsBelow id c arena.now.trees found.now
        → AreFaultsOf c (tree_at arena.now.trees id) result }
{
    let tag = arena.tag(id);
    match arena.atom(id) {
        Some(atom) => leaf_faults(tag, atom, kinds, has_mark(misused, id.place())),
        None => {
            let own = node_faults(arena, id, composite);
            own.or(faults_of_all(found, arena.kids(id))).counted(tag)
        }
    }
}
