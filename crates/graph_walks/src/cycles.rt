//! Pairs on cycles.

ghost use Rattle.std.specs.Prelude.{IfOk};
ghost use Rattle.graph_walks.specs.Marks.{MarkEach};
ghost use Rattle.graph_walks.specs.Walks.{AreWithin, Walks};

use crate::levels::level_marks;
use crate::part_numbers::parts;
use owl_characters::NoMemory;
use std::alloc::Global;

/// For each of these pairs, by place, whether it is on a cycle: whether a walk
/// along them leads from its second node back to its first. `NoMemory` comes only
/// where memory runs out.
///
/// The time grows with the number of nodes and pairs.
pub fn cycle_pairs(
    alloc: Global,
    nodes: usize,
    pairs: &[(usize, usize)],
) -> Result<Vec<bool>, NoMemory>
    requires { AreWithin nodes pairs.now }
    ensures { IfOk result (λ marks.
        MarkEach (λ _ pair. Walks pairs.now pair.1 pair.0) pairs.now marks.items) }
{
    let numbers = parts(alloc, nodes, pairs)?;
    Ok(level_marks(alloc, pairs, &numbers)?)
}
