//! Orders of nodes.

ghost use Rattle.std.specs.Prelude.{IfOk};
ghost use Rattle.directed_graphs.specs.Cycles.{HasNoCycle, IsAnswer, IsOrder, edges_of};

use crate::cycles::first_on_cycle;
use crate::ranks::{all_go_down, nodes_by_rank};
use crate::reach::reach_counts;
use graph_walks::component_ranks;
use owl_characters::NoMemory;
use std::alloc::Global;

/// What is told of a graph.
#[derive(Debug, Drop)]
pub enum Order {
    /// All nodes, each behind those to which its edges lead.
    Of(Vec<usize>),
    /// The least node that is on a cycle.
    Cycle(usize),
}

/// All nodes of a graph, each behind those to which its edges lead, or else the
/// least node that is on a cycle. `NoMemory` comes only where memory runs out.
///
/// The graph is given by the nodes to which the edges of each node lead. What is
/// no node of the graph has no edges. The time grows with the number of edges, and
/// with n log n for n nodes.
pub fn order_nodes(alloc: Global, edges: &[Vec<usize>]) -> Result<Order, NoMemory>
    ensures { IfOk result (IsAnswer (edges_of edges.now)) }
{
    let ranks = component_ranks(alloc, edges)?;
    if all_go_down(edges, &ranks) {
        return Ok(Order::Of(nodes_by_rank(alloc, edges.len(), &ranks)?));
    }
    match first_on_cycle(alloc, edges, &ranks)? {
        Some(node) => Ok(Order::Cycle(node)),
        None => Ok(Order::Of(order_by_reach(alloc, edges)?)),
    }
}

/// All nodes of a graph without cycles by how many nodes ways lead to from each.
/// No proof says what the ranks of components are, so this stands behind them: it
/// is slow, and an order whatever they are.
fn order_by_reach(alloc: Global, edges: &[Vec<usize>]) -> Result<Vec<usize>, NoMemory>
    requires { HasNoCycle (edges_of edges.now) }
    ensures { IfOk result (λ nodes. IsOrder (edges_of edges.now) nodes.items) }
{
    let counts = reach_counts(alloc, edges)?;
    Ok(nodes_by_rank(alloc, edges.len(), &counts)?)
}
