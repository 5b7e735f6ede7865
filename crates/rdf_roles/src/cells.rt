//! The cells of lists.

ghost use Rattle.std.specs.Prelude.{◌≡◌, ◌⊎◌, ◌↔◌, ◌<◌, IfErr, IfOk, IsTrue, List, OnOk};
ghost use Rattle.rdf_graph.specs.declared.term.Term.TheVariants as held;
ghost use Rattle.rdf_graph.specs.declared.triple.Triple.{Triple};
ghost use Rattle.rdf_meaning.specs.declared.role.Role.TheVariants as role;
ghost use Rattle.rdf_meaning.specs.Nodes.{nil_iri, role_of};
ghost use Rattle.rdf_meaning.specs.Statements.{IsCell};
ghost use Rattle.rdf_faults.specs.Faults.{IsBadCell};
ghost use Rattle.rdf_roles.specs.Refusals.{HaveCells, HaveOneRole, IsNodeFault};
ghost use Rattle.rdf_roles.specs.FaultPlaces.{HasNoFaultAt, IsBadListAt};
ghost use Rattle.rdf_roles.specs.Tables.{table_of};

use crate::fault::NodeFault;
use crate::nodes::{about, node_at, role_of};
use indexmap::IndexMap;
use owl_characters::NoMemory;
use rdf_graph::{Graph, Term};
use rdf_meaning::Role;
use rdf_rows::{cell, is_nil};
use rdf_terms::Label;
use std::alloc::Global;

/// Refuses with `BadList` at the first cell that is none.
pub fn check_cells(
    alloc: Global,
    graph: &Graph,
    table: &IndexMap<Label, Role>,
) -> Result<(), NodeFault>
    requires table { table.now.entries ≡ table_of graph.now }
    requires one_role { HaveOneRole graph.now }
    ensures ok { OnOk result (HaveCells graph.now) }
    ensures fault { IfErr result (IsNodeFault graph.now) }
{
    for number in 0..table.len() {
        check_cell(alloc, graph, table, number)?;
    }
    Ok(())
}

/// Refuses with `BadList` where the node with this number is a cell, and none
/// that is formed.
fn check_cell(
    alloc: Global,
    graph: &Graph,
    table: &IndexMap<Label, Role>,
    number: usize,
) -> Result<(), NodeFault>
    requires { table.now.entries ≡ table_of graph.now }
    ensures ok { OnOk result (HasNoFaultAt (IsBadCell graph.now) graph.now number) }
    ensures fault { IfErr result (IsBadListAt graph.now number) }
{
    let (label, role) = match node_at(table, number) {
        Some(node) => node,
        None => return Ok(()),
    };
    if is_bad_cell(alloc, graph, table, label, role)? {
        return Err(NodeFault::BadList {
            node: label.copy(alloc)?,
        });
    }
    Ok(())
}

/// Whether the node, which has this role, is a cell, and none that is formed.
fn is_bad_cell(
    alloc: Global,
    graph: &Graph,
    table: &IndexMap<Label, Role>,
    label: &Label,
    role: Role,
) -> Result<bool, NoMemory>
    requires table { table.now.entries ≡ table_of graph.now }
    requires role { role ≡ role_of graph.now (held.Blank label.now) }
    ensures { IfOk result (λ bad. IsTrue bad ↔ IsBadCell graph.now label.now) }
{
    if role != Role::List {
        return Ok(false);
    }
    Ok(!is_cell(alloc, graph, table, label)?)
}

/// Whether the node has one first and one rest, which is rdf:nil or a cell.
fn is_cell(
    alloc: Global,
    graph: &Graph,
    table: &IndexMap<Label, Role>,
    label: &Label,
) -> Result<bool, NoMemory>
    requires { table.now.entries ≡ table_of graph.now }
    ensures { IfOk result (λ is. IsTrue is ↔ IsCell graph.now (held.Blank label.now)) }
{
    let triples = about(alloc, graph, label)?;
    match cell(triples) {
        Some((_, rest)) => Ok(may_be_rest(table, rest)),
        None => Ok(false),
    }
}

/// Whether the term is rdf:nil or a cell.
fn may_be_rest(table: &IndexMap<Label, Role>, term: &Term) -> bool
    ensures { (g : List Triple) → table.now.entries ≡ table_of g →
        (IsTrue result ↔ ((term.now ≡ held.Iri nil_iri) ⊎ (role_of g term.now ≡ role.List))) }
{
    is_nil(term) || role_of(table, term) == Role::List
}
