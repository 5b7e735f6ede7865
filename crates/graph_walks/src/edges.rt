//! The edges of a graph.

ghost use Rattle.std.specs.Prelude.{◌≡◌, IfOk, [], length};
ghost use Rattle.graph_walks.specs.Edges.{AreEdges, edges_of, successors};
ghost use Rattle.graph_walks.specs.Walks.{AreWithin};

use std::alloc::{AllocError, Global};

/// For each of so many nodes those to which these pairs lead from it.
pub fn edges_by(
    alloc: Global,
    nodes: usize,
    pairs: &[(usize, usize)],
) -> Result<Vec<Vec<usize>>, AllocError>
    requires { AreWithin nodes pairs.now }
    ensures size { IfOk result (λ edges. length edges.items ≡ nodes) }
    ensures edges { IfOk result (λ edges. AreEdges pairs.now (edges_of edges.items)) }
{
    let mut edges = no_edges(alloc, nodes)?;
    'pairs: for pair in pairs {
        if let Some(nexts) = edges.get_mut(pair.0) {
            nexts.push(pair.1)?;
        }
    }
    Ok(edges)
}

/// So many nodes without edges.
pub fn no_edges(alloc: Global, nodes: usize) -> Result<Vec<Vec<usize>>, AllocError>
    ensures size { IfOk result (λ edges. length edges.items ≡ nodes) }
    ensures edges { IfOk result (λ edges. AreEdges [] (edges_of edges.items)) }
{
    let mut edges = Vec::new(alloc);
    for _ in 0..nodes {
        edges.push(Vec::new(alloc))?;
    }
    Ok(edges)
}

/// The nodes to which this node's edges lead: none, where it is no node.
pub fn successors(edges: &[Vec<usize>], node: usize) -> &[usize]
    ensures { result.now ≡ successors (edges_of edges.now) node }
{
    match edges.get(node) {
        Some(nodes) => nodes,
        None => &[],
    }
}
