//! The order of the nodes.

ghost use Rattle.std.specs.Prelude.{◌≡◌, ℕ, IfErr, IfOk, List, OnOk, Some, slice_get};
ghost use Rattle.rdf_graph.specs.declared.triple.Triple.{Triple};
ghost use Rattle.rdf_roles.specs.Refusals.{AreNodesFormed, HaveCells, HaveNoCycle, HaveOneRole, IsNodeFault};
ghost use Rattle.rdf_roles.specs.FaultPlaces.{IsCycleAt};
ghost use Rattle.rdf_roles.specs.Tables.{IsNodeOrder, blank_nodes, table_of};

use crate::cells::check_cells;
use crate::fault::NodeFault;
use crate::forms::check_forms;
use crate::nodes::node_at;
use crate::ways::ways_of;
use directed_graphs::{Order, order_nodes};
use indexmap::IndexMap;
use rdf_graph::Graph;
use rdf_meaning::Role;
use rdf_terms::Label;
use std::alloc::Global;

/// The numbers of the nodes, each behind those to which it leads. Refuses as
/// `Roles::of` does, but for `Mixed`.
pub fn order_of(
    alloc: Global,
    graph: &Graph,
    table: &IndexMap<Label, Role>,
) -> Result<Vec<usize>, NodeFault>
    requires table { table.now.entries ≡ table_of graph.now }
    requires one_role { HaveOneRole graph.now }
    ensures order { IfOk result (λ order. IsNodeOrder graph.now order.items) }
    ensures formed { OnOk result (AreNodesFormed graph.now) }
    ensures fault { IfErr result (IsNodeFault graph.now) }
{
    check_cells(alloc, graph, table)?;
    let order = order_by_ways(alloc, graph, table)?;
    check_forms(alloc, graph, table, &order)?;
    Ok(order)
}

/// The order, or `Cycle` with the first node that is below itself, or noted
/// under itself.
fn order_by_ways(
    alloc: Global,
    graph: &Graph,
    table: &IndexMap<Label, Role>,
) -> Result<Vec<usize>, NodeFault>
    requires table { table.now.entries ≡ table_of graph.now }
    requires one_role { HaveOneRole graph.now }
    requires cells { HaveCells graph.now }
    ensures order { IfOk result (λ order. IsNodeOrder graph.now order.items) }
    ensures no_cycle { OnOk result (HaveNoCycle graph.now) }
    ensures fault { IfErr result (IsNodeFault graph.now) }
{
    let ways = ways_of(alloc, graph, table)?;
    match order_nodes(alloc, &ways)? {
        Order::Of(order) => Ok(order),
        Order::Cycle(number) => {
            let Some((label, _)) = node_at(table, number) else {
                unreachable!();
            };
            Err(cycle_at(alloc, label))
        }
    }
}

/// The fault that the node with this label is on a cycle.
fn cycle_at(alloc: Global, label: &Label) -> NodeFault
    ensures { (g : List Triple) (number : ℕ)
        → slice_get (blank_nodes g) number ≡ Some label.now → IsCycleAt g number result }
{
    match label.copy(alloc) {
        Ok(node) => NodeFault::Cycle { node },
        Err(_) => NodeFault::Memory,
    }
}
