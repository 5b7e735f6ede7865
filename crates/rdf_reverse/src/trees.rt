//! The trees that a graph says, within the limits.

ghost use Rattle.std.specs.Prelude.{◌↔◌, IfErr, IfOk, IsTrue, OnOk};
ghost use Rattle.rdf_nodes.specs.Large.{HasLargeNumber};
ghost use Rattle.rdf_scans.specs.Sorts.{IsReading};
ghost use Rattle.rdf_reverse.specs.Clear.{IsClear};
ghost use Rattle.rdf_reverse.specs.Limits.{AreStated, AreWithin};
ghost use Rattle.rdf_reverse.specs.Reverse.{HasHeavyTree, IsFoundBy, limits};

use crate::fault::ReverseFault;
use crate::heights::is_low;
use owl_arena::{Arena, ExprId};
use owl_characters::NoMemory;
use rdf_nodes::Source;
use rdf_scans::Reading;
use rdf_statements::{Statements, hold_statements};
use std::alloc::Global;
use tree_stores::{Depths, TreeFault, fits};

/// The annotations and axioms that the graph says, by their numbers in the arena.
///
/// `NumberTooLarge` where a cardinality is 2^64 or more; `TooDeep` where a tree that
/// the graph says is more than 128 levels deep; `TooHeavy` where one has more than
/// 2^24 nodes and leaves, or where the ontology has, as is told by the kids of the
/// trees that were made. So not all are made of a graph that says far too much.
pub fn read_statements(
    alloc: Global,
    reading: &Reading,
    arena: &mut Arena,
) -> Result<Statements<ExprId>, ReverseFault>
    requires { IsClear reading.now }
    ensures stated { IfOk result (λ said.
        AreStated reading.now arena.new.trees said.annotations.items said.axioms.items) }
    ensures within { OnOk result (AreWithin reading.now) }
    ensures fault { IfErr result (
        IsFoundBy reading.now.graph.now reading.now.kinds.now limits) }
{
    if has_large_number(alloc, reading) {
        return Err(ReverseFault::NumberTooLarge);
    }
    match hold_statements(alloc, reading, arena) {
        Ok(said) => {
            // What an arena holds is small.
            fits(arena);
            Ok(said)
        }
        Err(TreeFault::TooDeep) => Err(ReverseFault::TooDeep),
        Err(TreeFault::TooHeavy(())) => Err(fault_of_heavy(alloc, reading)),
        Err(TreeFault::Memory) => Err(ReverseFault::Memory),
    }
}

/// Whether a cardinality is 2^64 or more.
fn has_large_number(alloc: Global, reading: &Reading) -> bool
    requires { IsReading reading.now }
    ensures { IsTrue result ↔ HasLargeNumber reading.now.graph.now }
{
    let source = Source {
        alloc,
        graph: reading.graph,
        roles: reading.roles,
        kinds: reading.kinds,
    };
    source.has_large_number()
}

/// What is told of a graph that says a tree which is too heavy, or too much: any tree
/// that is too deep comes first.
fn fault_of_heavy(alloc: Global, reading: &Reading) -> ReverseFault
    requires clear { IsClear reading.now }
    requires small { HasLargeNumber reading.now.graph.now → ⊥ }
    requires heavy { HasHeavyTree reading.now.graph.now reading.now.kinds.now
        reading.now.header.now }
    ensures { IsFoundBy reading.now.graph.now reading.now.kinds.now limits result }
{
    match is_low(alloc, reading) {
        Ok(true) => ReverseFault::TooHeavy,
        Ok(false) => fault_by_depths(alloc, reading),
        Err(NoMemory) => ReverseFault::Memory,
    }
}

/// So, by the depths of all trees.
fn fault_by_depths(alloc: Global, reading: &Reading) -> ReverseFault
    requires clear { IsClear reading.now }
    requires small { HasLargeNumber reading.now.graph.now → ⊥ }
    requires heavy { HasHeavyTree reading.now.graph.now reading.now.kinds.now
        reading.now.header.now }
    ensures { IsFoundBy reading.now.graph.now reading.now.kinds.now limits result }
{
    match hold_statements(alloc, reading, &mut Depths) {
        Ok(_) => ReverseFault::TooHeavy,
        Err(TreeFault::TooDeep) => ReverseFault::TooDeep,
        Err(TreeFault::Memory) => ReverseFault::Memory,
    }
}
