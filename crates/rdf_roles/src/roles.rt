//! The roles of the nodes of a graph.

ghost use Rattle.std.specs.Prelude.{◌≡◌, IfErr, IfOk, List, OnOk, length};
ghost use Rattle.rdf_graph.specs.declared.term.Term.TheVariants.{Blank};
ghost use Rattle.rdf_graph.specs.declared.triple.Triple.{Triple};
ghost use Rattle.rdf_meaning.specs.Nodes.{role_of};
ghost use Rattle.rdf_roles.specs.Refusals.{AreNodesFormed, IsNodeFault};
ghost use Rattle.rdf_roles.specs.Tables.{IsTableOf};

use crate::fault::NodeFault;
use crate::order::order_of;
use crate::table::table_of;
use indexmap::IndexMap;
use owl_kind::Kinds;
use rdf_graph::Graph;
use rdf_meaning::Role;
use rdf_terms::Label;
use std::alloc::Global;
use std::marker::Model;

/// The roles of the blank nodes of a graph that have triples of their own, and
/// an order in which each node stands behind those to which it leads. Contracts
/// see both as lists; a node's number is its place by the order of labels.
#[derive(Debug, Drop)]
pub struct Roles {
    pub(crate) table: IndexMap<Label, Role>,
    pub(crate) order: Vec<usize>,
}

impl Model for Roles {
    ghost use Rattle.rdf_roles.specs.Tables.{RoleTable};

    ghost Value = { RoleTable };

    ghost view = { λ r. record { nodes = r.table.entries; order = r.order.items } };
}

impl Roles {
    /// The roles of the graph's nodes (Mapping to RDF Graphs, section 3).
    ///
    /// In this order, each with the first such node: `Mixed` where a node has
    /// the marks of two roles; `BadList` where a cell has not one first and one
    /// rest, or its rest is neither rdf:nil nor a cell; `Cycle` where a node is
    /// below itself or noted under itself; `BadNode` where the own triples of
    /// another node are those of no row, or have not the form that it asks for.
    pub fn of(alloc: Global, graph: &Graph) -> Result<Roles, NodeFault>
        ensures ok { IfOk result (IsTableOf graph.now) }
        ensures formed { OnOk result (AreNodesFormed graph.now) }
        ensures fault { IfErr result (IsNodeFault graph.now) }
    {
        let table = table_of(alloc, graph)?;
        let order = order_of(alloc, graph, &table)?;
        Ok(Roles { table, order })
    }

    /// What the node is by its own triples, in the graph whose roles these are;
    /// an individual where it has none. Takes no memory.
    pub fn role(&self, node: &Label) -> Role
        ensures { (g : List Triple) → IsTableOf g self.now → result ≡ role_of g (Blank node.now) }
    {
        self.table.get(node).copied().unwrap_or(Role::Individual)
    }

    /// How many nodes there are.
    pub fn len(&self) -> usize
        ensures { result ≡ length self.now.nodes }
    {
        self.table.len()
    }
}
