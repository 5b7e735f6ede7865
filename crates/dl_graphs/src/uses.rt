//! Which datatypes definitions use, by the places of the leaves that name them.

ghost use Rattle.std.specs.Prelude.{◌<◌, IfOk, OnOk, length};
ghost use Rattle.owl_arena.specs.Held.{AreHeld, tree_at, trees_at};
ghost use Rattle.owl_arena.specs.Shared.{AreShared};
ghost use Rattle.dl_graphs.specs.Uses.{AddsUsed, AddsUses, AreUses, datatypes_among, datatypes_below, uses_at};

use crate::definitions::definition_at;
use crate::leaves::datatype_at;
use owl_arena::{Arena, ExprId};
use std::alloc::{AllocError, Global};

/// From the datatypes that are defined to those that they are defined by.
#[derive(Debug, Drop)]
pub struct Uses {
    /// Pairs of places in an arena, axiom by axiom.
    pub pairs: Vec<(usize, usize)>,
    /// How many of the pairs are of each axiom.
    pub counts: Vec<usize>,
}

/// The uses of these axioms.
pub fn uses_by(alloc: Global, arena: &Arena, axioms: &[ExprId]) -> Result<Uses, AllocError>
    requires shared { AreShared arena.now.trees }
    requires axioms { AreHeld arena.now.trees axioms.now }
    ensures { IfOk result (AreUses arena.now.trees (trees_at arena.now.trees axioms.now)) }
{
    let mut pairs = Vec::new(alloc);
    let mut counts = Vec::new(alloc);
    'axioms: for id in axioms {
        let before = pairs.len();
        push_axiom_uses(arena, *id, &mut pairs)?;
        counts.push(pairs.len() - before)?;
    }
    Ok(Uses { pairs, counts })
}

/// Adds the uses of the axiom.
fn push_axiom_uses(
    arena: &Arena,
    id: ExprId,
    pairs: &mut Vec<(usize, usize)>,
) -> Result<(), AllocError>
    requires shared { AreShared arena.now.trees }
    requires axiom { id < length arena.now.trees }
    ensures { OnOk result (AddsUses arena.now.trees (uses_at (tree_at arena.now.trees id))
        pairs.old.items pairs.new.items) }
{
    match definition_at(arena, id) {
        Some(ids) => push_used(arena, ids.datatype.place(), ids.range, pairs),
        None => Ok(()),
    }
}

/// Adds, for each datatype in the tree, that it is used by what is defined.
#[cycle(used)]
fn push_used(
    arena: &Arena,
    defined: usize,
    id: ExprId,
    pairs: &mut Vec<(usize, usize)>,
) -> Result<(), AllocError>
    requires shared { AreShared arena.now.trees }
    requires id { id < length arena.now.trees }
    ensures { OnOk result (AddsUsed arena.now.trees defined
        (datatypes_below (tree_at arena.now.trees id)) pairs.old.items pairs.new.items) }
{
    match datatype_at(arena, id) {
        Some(_) => pairs.push((defined, id.place()))?,
        None => push_all_used(arena, defined, arena.kids(id), pairs)?,
    }
    Ok(())
}

/// Adds the same for the datatypes in these trees.
#[cycle(used)]
fn push_all_used(
    arena: &Arena,
    defined: usize,
    ids: &[ExprId],
    pairs: &mut Vec<(usize, usize)>,
) -> Result<(), AllocError>
    requires shared { AreShared arena.now.trees }
    requires ids { AreHeld arena.now.trees ids.now }
    ensures { OnOk result (AddsUsed arena.now.trees defined
        (datatypes_among (trees_at arena.now.trees ids.now)) pairs.old.items pairs.new.items) }
{
    'ids: for id in ids {
        push_used(arena, defined, *id, pairs)?;
    }
    Ok(())
}
