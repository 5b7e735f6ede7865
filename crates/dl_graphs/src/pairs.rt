//! Marks of pairs of nodes, for which no node is looked at where there are no pairs:
//! most documents have none.

ghost use Rattle.std.specs.Prelude.{IfOk};
ghost use Rattle.graph_walks.specs.Marks.{MarkEach};
ghost use Rattle.graph_walks.specs.Rings.{ClosesRing};
ghost use Rattle.graph_walks.specs.Walks.{AreWithin, Walks};

use graph_walks::{cycle_pairs, ring_links};
use owl_characters::NoMemory;
use std::alloc::Global;

/// For each of these pairs whether it is on a cycle.
pub fn cycle_marks(
    alloc: Global,
    nodes: usize,
    pairs: &[(usize, usize)],
) -> Result<Vec<bool>, NoMemory>
    requires { AreWithin nodes pairs.now }
    ensures { IfOk result (λ marks.
        MarkEach (λ _ pair. Walks pairs.now pair.1 pair.0) pairs.now marks.items) }
{
    if pairs.is_empty() {
        return Ok(Vec::new(alloc));
    }
    cycle_pairs(alloc, nodes, pairs)
}

/// For each of these links whether others join its ends.
pub fn ring_marks(
    alloc: Global,
    nodes: usize,
    links: &[(usize, usize)],
) -> Result<Vec<bool>, NoMemory>
    requires { AreWithin nodes links.now }
    ensures { IfOk result (λ marks. MarkEach (ClosesRing links.now) links.now marks.items) }
{
    if links.is_empty() {
        return Ok(Vec::new(alloc));
    }
    ring_links(alloc, nodes, links)
}
