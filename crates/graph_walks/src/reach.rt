//! What walks lead to.

ghost use Rattle.std.specs.Prelude.{◌≡◌, ℕ, IfOk, List, length};
ghost use Rattle.graph_walks.specs.Edges.{AreEdges, edges_of};
ghost use Rattle.graph_walks.specs.Marks.{MarkNumbers};
ghost use Rattle.graph_walks.specs.Searches.{HoldsReached, IsTold};
ghost use Rattle.graph_walks.specs.Walks.{AreWithin, IsReached};

use crate::edges::{edges_by, successors};
use crate::found::Found;
use std::alloc::{AllocError, Global};

/// For each of so many nodes whether a walk along these pairs leads to it from one
/// of these numbers; from each a walk of no step leads to itself. `AllocError`
/// comes only where memory runs out.
///
/// The time grows with the number of nodes, pairs and starts.
pub fn reached(
    alloc: Global,
    nodes: usize,
    pairs: &[(usize, usize)],
    starts: &[usize],
) -> Result<Vec<bool>, AllocError>
    requires { AreWithin nodes pairs.now }
    ensures { IfOk result (λ marks.
        MarkNumbers nodes (IsReached pairs.now starts.now) marks.items) }
{
    let edges = edges_by(alloc, nodes, pairs)?;
    reached_along(alloc, &edges, starts)
}

/// For each node of a graph whether a walk along these edges leads to it from one
/// of these numbers; from what is no node only a walk of no step leads.
/// `AllocError` comes only where memory runs out.
///
/// The time grows with the number of nodes, edges and starts.
pub fn reached_along(
    alloc: Global,
    edges: &[Vec<usize>],
    starts: &[usize],
) -> Result<Vec<bool>, AllocError>
    ensures { IfOk result (λ marks. (pairs : List (ℕ × ℕ))
        → AreEdges pairs (edges_of edges.now)
        → MarkNumbers (length edges.now) (IsReached pairs starts.now) marks.items) }
{
    let found = found_from(alloc, edges, starts)?;
    Ok(found.into_marks())
}

/// The nodes to which walks along these edges lead from some of these numbers,
/// found in breadth.
pub fn found_from(
    alloc: Global,
    edges: &[Vec<usize>],
    starts: &[usize],
) -> Result<Found, AllocError>
    ensures told { IfOk result IsTold }
    ensures graph { IfOk result (λ found. length found.marks.items ≡ length edges.now) }
    ensures found { IfOk result (λ found. (pairs : List (ℕ × ℕ))
        → AreEdges pairs (edges_of edges.now)
        → HoldsReached (length edges.now) pairs starts.now found.nodes.items) }
{
    let mut found = Found::none(alloc, edges.len())?;
    found.find_all(starts)?;
    for place in 0..usize::MAX {
        match found.node_at(place) {
            Some(from) => found.find_all(successors(edges, from))?,
            None => break,
        }
    }
    Ok(found)
}
