//! Ranks of nodes, and how edges go by them.

ghost use Rattle.std.specs.Prelude.{◌≡◌, ◌↔◌, IfOk, IsTrue};
ghost use Rattle.std.specs.List.{range_with_len};
ghost use Rattle.directed_graphs.specs.Cycles.{edges_of};
ghost use Rattle.directed_graphs.specs.Ranks.{AllGoDown, AreByRank, GoesDown, NeverGoesUp, NoneGoesUp, rank_in};

use graph_walks::successors;
use std::alloc::{AllocError, Global};

/// Whether all edges lead to lower ranks.
pub fn all_go_down(edges: &[Vec<usize>], ranks: &[usize]) -> bool
    ensures { IsTrue result ↔ AllGoDown (edges_of edges.now) ranks.now }
{
    for node in 0..edges.len() {
        if !goes_down(edges, ranks, node) {
            return false;
        }
    }
    true
}

/// Whether no edge leads to a higher rank.
pub fn none_goes_up(edges: &[Vec<usize>], ranks: &[usize]) -> bool
    ensures { IsTrue result ↔ NoneGoesUp (edges_of edges.now) ranks.now }
{
    for node in 0..edges.len() {
        if !never_goes_up(edges, ranks, node) {
            return false;
        }
    }
    true
}

/// Whether all edges of the node lead to ranks below its own.
pub fn goes_down(edges: &[Vec<usize>], ranks: &[usize], node: usize) -> bool
    ensures { IsTrue result ↔ GoesDown (edges_of edges.now) ranks.now node }
{
    successors(edges, node)
        .iter()
        .all(|next| rank(ranks, *next) < rank(ranks, node))
}

/// Whether no edge of the node leads to a rank above its own.
fn never_goes_up(edges: &[Vec<usize>], ranks: &[usize], node: usize) -> bool
    ensures { IsTrue result ↔ NeverGoesUp (edges_of edges.now) ranks.now node }
{
    successors(edges, node)
        .iter()
        .all(|next| rank(ranks, *next) <= rank(ranks, node))
}

/// So many nodes in the order of their ranks.
pub fn nodes_by_rank(alloc: Global, nodes: usize, ranks: &[usize]) -> Result<Vec<usize>, AllocError>
    ensures { IfOk result (λ sorted. AreByRank ranks.now nodes sorted.items) }
{
    let mut sorted = first_nodes(alloc, nodes)?;
    sorted.sort_unstable_by_key(|node| rank(ranks, *node));
    Ok(sorted)
}

/// So many nodes, as they are numbered.
fn first_nodes(alloc: Global, nodes: usize) -> Result<Vec<usize>, AllocError>
    ensures { IfOk result (λ all. all.items ≡ range_with_len 0 nodes) }
{
    (0..nodes).collect(alloc)
}

/// The rank of a node: 0, where it is no node.
fn rank(ranks: &[usize], node: usize) -> usize
    ensures { result ≡ rank_in ranks.now node }
{
    ranks.get(node).copied().unwrap_or(0)
}
