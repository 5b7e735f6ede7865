//! The ways from node to node.

ghost use Rattle.std.specs.Prelude.{◌≡◌, ◌++◌, [], ◌∷◌, IfOk, List, OnOk, length};
ghost use Rattle.directed_graphs.specs.Cycles.{edges_of};
ghost use Rattle.rdf_graph.specs.declared.triple.Triple.{Triple};
ghost use Rattle.rdf_roles.specs.Tables.{AreEdges, table_of};
ghost use Rattle.rdf_roles.specs.Ways.{AddsObjects, AreWays, AreWaysDown};

use crate::nodes::{about, is_note, node_at, number_of};
use crate::notes::add_notes;
use indexmap::IndexMap;
use owl_characters::NoMemory;
use rdf_graph::{Graph, Triple};
use rdf_meaning::Role;
use rdf_rows::is_own;
use rdf_terms::Label;
use std::alloc::{AllocError, Global};

/// For each node the numbers of those to which it leads: the nodes straight
/// below it, or of a reification those that are noted under it.
pub fn ways_of(
    alloc: Global,
    graph: &Graph,
    table: &IndexMap<Label, Role>,
) -> Result<Vec<Vec<usize>>, NoMemory>
    requires { table.now.entries ≡ table_of graph.now }
    ensures { IfOk result (λ ways. AreEdges graph.now (edges_of ways.items)) }
{
    let mut ways = Vec::new(alloc);
    add_ways_down(alloc, graph, table, &mut ways)?;
    add_notes(alloc, graph, table, &mut ways)?;
    Ok(ways)
}

/// Adds for each node the numbers of those straight below it.
fn add_ways_down(
    alloc: Global,
    graph: &Graph,
    table: &IndexMap<Label, Role>,
    ways: &mut Vec<Vec<usize>>,
) -> Result<(), NoMemory>
    requires table { table.now.entries ≡ table_of graph.now }
    requires none { length ways.old.items ≡ 0 }
    ensures { OnOk result (AreWays graph.now 0 (edges_of ways.new.items)) }
{
    for number in 0..table.len() {
        let nexts = ways_down(alloc, graph, table, number)?;
        add_last(ways, nexts)?;
    }
    Ok(())
}

/// Puts the numbers behind those of the nodes before.
fn add_last(ways: &mut Vec<Vec<usize>>, nexts: Vec<usize>) -> Result<(), AllocError>
    ensures { OnOk result (ways.new.items ≡ ways.old.items ++ nexts ∷ []) }
{
    ways.reserve(1)?;
    ways.push(nexts).unwrap();
    Ok(())
}

/// The numbers of the nodes straight below this one.
fn ways_down(
    alloc: Global,
    graph: &Graph,
    table: &IndexMap<Label, Role>,
    number: usize,
) -> Result<Vec<usize>, NoMemory>
    requires { table.now.entries ≡ table_of graph.now }
    ensures { IfOk result (λ nexts. AreWaysDown graph.now number nexts.items) }
{
    let mut nexts = Vec::new(alloc);
    let (label, role) = match node_at(table, number) {
        Some(node) => node,
        None => return Ok(nexts),
    };
    if is_note(role) {
        return Ok(nexts);
    }
    add_objects(table, role, about(alloc, graph, label)?, &mut nexts)?;
    Ok(nexts)
}

/// Adds the numbers of the nodes that are objects of the own triples of a node.
fn add_objects(
    table: &IndexMap<Label, Role>,
    role: Role,
    triples: &[Triple],
    ways: &mut Vec<usize>,
) -> Result<(), AllocError>
    ensures { OnOk result ((g : List Triple) → table.now.entries ≡ table_of g →
        AddsObjects g role triples.now ways.old.items ways.new.items) }
{
    let mut rest = triples;
    while let Some((triple, behind)) = rest.split_first() {
        if is_own(role, triple) {
            if let Some(number) = number_of(table, &triple.object) {
                ways.push(number)?;
            }
        }
        rest = behind;
    }
    Ok(())
}
