//! What the nodes of a graph stand for.

ghost use Rattle.std.specs.Prelude.{◌≡◌, ◌↔◌, ℕ, List, IfErr, IfOk, IfSome, IsNone, None};
ghost use Rattle.owl_kind.specs.Kinds.{Entity};
ghost use Rattle.owl_tree.specs.Trees.{Tree};
ghost use Rattle.rdf_graph.specs.declared.term.Term.TheVariants.{Blank};
ghost use Rattle.rdf_graph.specs.declared.triple.Triple.{Triple};
ghost use Rattle.rdf_meaning.specs.Kinds.{HaveNoClash};
ghost use Rattle.rdf_meaning.specs.Nodes.{role_of};
ghost use Rattle.rdf_faults.specs.Faults.{IsUntypedPart};
ghost use Rattle.rdf_roles.specs.Refusals.{AreNodesFormed};
ghost use Rattle.rdf_roles.specs.Tables.{IsTableOf};
ghost use Rattle.rdf_nodes.specs.Nodes.{AreDenoted, IsDenoteFault};
ghost use Rattle.rdf_nodes.specs.Numbers.{IsDenotedAs};
ghost use Rattle.rdf_meaning.specs.Denotation.{sort_of};
ghost use Rattle.tree_stores.specs.Stores.{HasNumber, Keeps};

use crate::fault::DenoteFault;
use crate::source::Source;
use indexmap::IndexMap;
use owl_arena::{Arena, ExprId};
use owl_kind::Kinds;
use rdf_graph::Graph;
use rdf_roles::Roles;
use rdf_terms::Label;
use std::alloc::Global;
use std::marker::Model;

/// The numbers, in an arena, of what the nodes of a graph stand for. Contracts see
/// the labels of the nodes, each with its number.
#[derive(Debug, Drop)]
pub struct Nodes {
    table: IndexMap<Label, ExprId>,
}

impl Model for Nodes {
    ghost use Rattle.std.specs.Prelude.{List, ℕ};

    ghost Value = { List (List ℕ × ℕ) };

    ghost view = { λ n. n.table.entries };
}

impl Nodes {
    /// The number of what the node stands for; none exactly where its role is none
    /// of property, class and range. Takes no memory.
    pub fn expression(&self, node: &Label) -> Option<ExprId>
        ensures number { (g : List Triple) (k : List Entity) (trees : List Tree)
            → AreDenoted g k trees self.now →
            IfSome result (IsDenotedAs g k (HasNumber trees) (Blank node.now)) }
        ensures none { (g : List Triple) (k : List Entity) (trees : List Tree)
            → AreDenoted g k trees self.now
            → IsNone result ↔ (sort_of (role_of g (Blank node.now)) ≡ None) }
    {
        self.table.get(node).copied()
    }
}

/// The numbers of what the nodes of the graph stand for (Mapping to RDF Graphs,
/// section 3.2), where these are the roles of the graph's nodes, which `Roles::of`
/// has found without a fault, and `untyped` finds no triple. The arena keeps the
/// trees that it had, at their numbers, also where this refuses.
///
/// In this order: `NumberTooLarge` where a cardinality of a class expression is
/// 2^64 or more; `TooDeep` where a node stands for a tree of more than 128 levels;
/// `TooHeavy` where one stands for a tree of more than 2^24 nodes and leaves.
pub fn denote(
    alloc: Global,
    graph: &Graph,
    roles: &Roles,
    kinds: &Kinds,
    arena: &mut Arena,
) -> Result<Nodes, DenoteFault>
    requires table { IsTableOf graph.now roles.now }
    requires kinds { HaveNoClash kinds.now }
    requires formed { AreNodesFormed graph.now }
    requires typed { (t : Triple) → IsUntypedPart graph.now kinds.now t → ⊥ }
    ensures nodes { IfOk result (AreDenoted graph.now kinds.now arena.new.trees) }
    ensures fault { IfErr result (IsDenoteFault graph.now kinds.now) }
    ensures kept { Keeps (HasNumber arena.old.trees) (HasNumber arena.new.trees) }
{
    let source = Source {
        alloc,
        graph,
        roles,
        kinds,
    };
    if source.has_large_number() {
        return Err(DenoteFault::NumberTooLarge);
    }
    if !source.are_shallow()? {
        return Err(DenoteFault::TooDeep);
    }
    let ids = source.numbers(arena, false)?;
    let table = source.by_label(&ids)?;
    Ok(Nodes { table })
}
