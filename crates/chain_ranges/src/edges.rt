//! Pairs turned round, as the edges of a graph.

ghost use Rattle.std.specs.Prelude.{◌≡◌, IfOk, [], length};
ghost use Rattle.graph_walks.specs.Edges.{AreEdges, edges_of};
ghost use Rattle.graph_walks.specs.Walks.{AreWithin, backwards};

use std::alloc::{AllocError, Global};

/// For each of so many nodes those from which these pairs lead to it.
pub fn edges_back(
    alloc: Global,
    nodes: usize,
    pairs: &[(usize, usize)],
) -> Result<Vec<Vec<usize>>, AllocError>
    requires { AreWithin nodes pairs.now }
    ensures size { IfOk result (λ edges. length edges.items ≡ nodes) }
    ensures edges { IfOk result (λ edges. AreEdges (backwards pairs.now) (edges_of edges.items)) }
{
    let mut edges = no_edges(alloc, nodes)?;
    'pairs: for pair in pairs {
        if let Some(before) = edges.get_mut(pair.1) {
            before.push(pair.0)?;
        }
    }
    Ok(edges)
}

/// So many nodes without edges.
fn no_edges(alloc: Global, nodes: usize) -> Result<Vec<Vec<usize>>, AllocError>
    ensures size { IfOk result (λ edges. length edges.items ≡ nodes) }
    ensures edges { IfOk result (λ edges. AreEdges [] (edges_of edges.items)) }
{
    let mut edges = Vec::new(alloc);
    for _ in 0..nodes {
        edges.push(Vec::new(alloc))?;
    }
    Ok(edges)
}
