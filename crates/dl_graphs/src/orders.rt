//! Definitions of datatypes that have no order.

ghost use Rattle.std.specs.Prelude.{IfOk};
ghost use Rattle.dl_rules.specs.Definitions.{IsCyclic, definition_of};
ghost use Rattle.graph_walks.specs.Marks.{MarkEach};
ghost use Rattle.owl_arena.specs.Held.{AreHeld, trees_at};
ghost use Rattle.owl_breaches.specs.Those.{HoldsOfSome};

use crate::groups::group_marks;
use crate::pairs::cycle_marks;
use crate::uses::uses_by;
use owl_arena::{Arena, ExprId};
use owl_characters::NoMemory;
use std::alloc::Global;

/// For each of these axioms whether it is a definition of a datatype that is
/// defined, in however many steps, by itself. `NoMemory` comes only where memory
/// runs out.
///
/// The time grows with the size of the arena and of the definitions.
pub fn cyclic_definitions(
    alloc: Global,
    arena: &Arena,
    axioms: &[ExprId],
) -> Result<Vec<bool>, NoMemory>
    requires axioms { AreHeld arena.now.trees axioms.now }
    ensures { IfOk result (λ marks. let axs = trees_at arena.now.trees axioms.now in
        MarkEach (λ _ t. HoldsOfSome (IsCyclic axs) (definition_of t)) axs marks.items) }
{
    let nodes = arena.distinct();
    let uses = uses_by(alloc, arena, axioms)?;
    let marks = cycle_marks(alloc, nodes, &uses.pairs)?;
    Ok(group_marks(alloc, &uses.counts, &marks)?)
}
