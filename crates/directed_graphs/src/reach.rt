//! The nodes to which ways lead from a node.

ghost use Rattle.std.specs.Prelude.{◌≡◌, IfOk, length};
ghost use Rattle.std.specs.List.{count_by};
ghost use Rattle.directed_graphs.specs.Cycles.{Leads, edges_of};
ghost use Rattle.directed_graphs.specs.Reach.{AreReachCounts};
ghost use Rattle.graph_walks.specs.Marks.{MarkNumbers};

use graph_walks::{reached_along, successors};
use std::alloc::{AllocError, Global};

/// For each node the number of nodes to which ways lead from it. The time grows
/// with the number of nodes times that of edges.
pub fn reach_counts(alloc: Global, edges: &[Vec<usize>]) -> Result<Vec<usize>, AllocError>
    ensures nodes { IfOk result (λ counts. length counts.items ≡ length edges.now) }
    ensures reached { IfOk result (λ counts. AreReachCounts (edges_of edges.now) counts.items) }
{
    let mut counts = Vec::new(alloc);
    for node in 0..edges.len() {
        let marks = reach_marks(alloc, edges, node)?;
        counts.push(count(&marks))?;
    }
    Ok(counts)
}

/// For each node whether a way leads to it from this one.
pub fn reach_marks(
    alloc: Global,
    edges: &[Vec<usize>],
    node: usize,
) -> Result<Vec<bool>, AllocError>
    ensures { IfOk result (λ marks.
        MarkNumbers (length edges.now) (Leads (edges_of edges.now) node) marks.items) }
{
    reached_along(alloc, edges, successors(edges, node))
}

/// How many marks are true.
fn count(marks: &[bool]) -> usize
    ensures { result ≡ count_by (λ mark. mark) marks.now }
{
    marks.iter().filter(|mark| **mark).count()
}
