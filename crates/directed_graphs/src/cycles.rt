//! Nodes on cycles.

ghost use Rattle.std.specs.Prelude.{◌↔◌, IfOk, IsTrue, MatchOption};
ghost use Rattle.directed_graphs.specs.Cycles.{HasNoCycle, IsFirstOnCycle, IsOnCycle, edges_of};

use crate::ranks::{goes_down, none_goes_up};
use crate::reach::reach_marks;
use graph_walks::has_mark;
use owl_characters::NoMemory;
use std::alloc::{AllocError, Global};

/// The least node that is on a cycle, if one is. Where no edge leads to a higher
/// rank, the nodes from which all edges lead to lower ranks are passed over.
pub fn first_on_cycle(
    alloc: Global,
    edges: &[Vec<usize>],
    ranks: &[usize],
) -> Result<Option<usize>, NoMemory>
    ensures { IfOk result (λ found. MatchOption found
        (HasNoCycle (edges_of edges.now)) (IsFirstOnCycle (edges_of edges.now))) }
{
    let steady = none_goes_up(edges, ranks);
    for node in 0..edges.len() {
        if steady && goes_down(edges, ranks, node) {
            continue;
        }
        if is_on_cycle(alloc, edges, node)? {
            return Ok(Some(node));
        }
    }
    Ok(None)
}

/// Whether a way leads from the node back to it.
fn is_on_cycle(alloc: Global, edges: &[Vec<usize>], node: usize) -> Result<bool, AllocError>
    ensures { IfOk result (λ answer. IsTrue answer ↔ IsOnCycle (edges_of edges.now) node) }
{
    let marks = reach_marks(alloc, edges, node)?;
    Ok(has_mark(&marks, node))
}
