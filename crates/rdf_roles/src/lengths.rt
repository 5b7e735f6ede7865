//! The lengths of lists.

ghost use Rattle.std.specs.Prelude.{◌≡◌, IfOk};
ghost use Rattle.rdf_roles.specs.Lengths.{AreKnownBelow, AreLengths, HasLengthAt};
ghost use Rattle.rdf_roles.specs.Refusals.{HaveCells};
ghost use Rattle.rdf_roles.specs.Tables.{IsNodeOrder, table_of};

use crate::forms::is_cell;
use crate::nodes::{about, node_at};
use crate::wants::length_of;
use indexmap::IndexMap;
use owl_characters::NoMemory;
use rdf_graph::Graph;
use rdf_meaning::Role;
use rdf_rows::cell;
use rdf_terms::Label;
use std::alloc::Global;

/// How many elements the list has that begins at each node: 0, where it is no
/// cell.
pub fn lengths_of(
    alloc: Global,
    graph: &Graph,
    table: &IndexMap<Label, Role>,
    order: &[usize],
) -> Result<Vec<usize>, NoMemory>
    requires table { table.now.entries ≡ table_of graph.now }
    requires cells { HaveCells graph.now }
    requires order { IsNodeOrder graph.now order.now }
    ensures { IfOk result (λ lengths. AreLengths graph.now lengths.items) }
{
    let mut lengths: Vec<usize> = vec![in alloc; 0; table.len()]?;
    let mut rest = order;
    while let Some((number, behind)) = rest.split_first() {
        let length = length_at(alloc, graph, table, &lengths, *number)?;
        lengths[*number] = length;
        rest = behind;
    }
    Ok(lengths)
}

/// How many elements the list has that begins at the node with this number, by
/// the lengths of those to which it leads: 0, where it is no cell.
fn length_at(
    alloc: Global,
    graph: &Graph,
    table: &IndexMap<Label, Role>,
    lengths: &[usize],
    number: usize,
) -> Result<usize, NoMemory>
    requires table { table.now.entries ≡ table_of graph.now }
    requires cells { HaveCells graph.now }
    requires below { AreKnownBelow graph.now lengths.now number }
    ensures { IfOk result (HasLengthAt graph.now number) }
{
    let (label, role) = match node_at(table, number) {
        Some(node) => node,
        None => return Ok(0),
    };
    if !is_cell(role) {
        return Ok(0);
    }
    match cell(about(alloc, graph, label)?) {
        Some((_, rest)) => {
            let behind = length_of(table, lengths, rest).unwrap_or(0);
            let length = behind.checked_add(1).ok_or(NoMemory)?;
            Ok(length)
        }
        None => Ok(0),
    }
}
