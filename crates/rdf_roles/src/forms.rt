//! The forms of nodes.

ghost use Rattle.std.specs.Prelude.{◌≡◌, ◌↔◌, IfErr, IfOk, IsTrue, List, OnOk, length};
ghost use Rattle.rdf_graph.specs.declared.term.Term.{Term};
ghost use Rattle.rdf_graph.specs.declared.term.Term.TheVariants as held;
ghost use Rattle.rdf_graph.specs.declared.triple.Triple.{Triple};
ghost use Rattle.rdf_rows.specs.Chosen.{facets};
ghost use Rattle.rdf_meaning.specs.declared.role.Role.TheVariants as roles;
ghost use Rattle.rdf_meaning.specs.Nodes.{role_of};
ghost use Rattle.rdf_faults.specs.Faults.{IsBadNode};
ghost use Rattle.rdf_faults.specs.Formed.{IsFormedAs};
ghost use Rattle.rdf_roles.specs.Lengths.{AreLengths, IsSeen};
ghost use Rattle.rdf_roles.specs.Refusals.{HaveCells, HaveForms, HaveNoCycle, HaveOneRole, IsNodeFault};
ghost use Rattle.rdf_roles.specs.FaultPlaces.{HasNoFaultAt, IsBadNodeAt};
ghost use Rattle.rdf_roles.specs.Tables.{IsNodeOrder, table_of};

use crate::fault::NodeFault;
use crate::lengths::lengths_of;
use crate::nodes::{about, node_at};
use crate::rows::has_formed_row;
use indexmap::IndexMap;
use owl_characters::NoMemory;
use rdf_graph::{Graph, Triple};
use rdf_meaning::{Role, axiom_rows, node_rows};
use rdf_rows::{is_reification, only_facet};
use rdf_terms::Label;
use std::alloc::Global;

/// Refuses with `BadNode` at the first node, which is no cell, that has not the
/// form that its role asks for.
pub fn check_forms(
    alloc: Global,
    graph: &Graph,
    table: &IndexMap<Label, Role>,
    order: &[usize],
) -> Result<(), NodeFault>
    requires table { table.now.entries ≡ table_of graph.now }
    requires one_role { HaveOneRole graph.now }
    requires cells { HaveCells graph.now }
    requires no_cycle { HaveNoCycle graph.now }
    requires order { IsNodeOrder graph.now order.now }
    ensures ok { OnOk result (HaveForms graph.now) }
    ensures fault { IfErr result (IsNodeFault graph.now) }
{
    let lengths = lengths_of(alloc, graph, table, order)?;
    check_by_lengths(alloc, graph, table, &lengths)?;
    Ok(())
}

/// Does so by the lengths of lists.
fn check_by_lengths(
    alloc: Global,
    graph: &Graph,
    table: &IndexMap<Label, Role>,
    lengths: &[usize],
) -> Result<(), NodeFault>
    requires table { table.now.entries ≡ table_of graph.now }
    requires one_role { HaveOneRole graph.now }
    requires cells { HaveCells graph.now }
    requires no_cycle { HaveNoCycle graph.now }
    requires lengths { AreLengths graph.now lengths.now }
    ensures ok { OnOk result (HaveForms graph.now) }
    ensures fault { IfErr result (IsNodeFault graph.now) }
{
    for number in 0..table.len() {
        check_form(alloc, graph, table, lengths, number)?;
    }
    Ok(())
}

/// Refuses with `BadNode` where the node with this number is no cell, and has
/// not the form that its role asks for.
fn check_form(
    alloc: Global,
    graph: &Graph,
    table: &IndexMap<Label, Role>,
    lengths: &[usize],
    number: usize,
) -> Result<(), NodeFault>
    requires table { table.now.entries ≡ table_of graph.now }
    requires lengths { AreLengths graph.now lengths.now }
    ensures ok { OnOk result (HasNoFaultAt (IsBadNode graph.now) graph.now number) }
    ensures fault { IfErr result (IsBadNodeAt graph.now number) }
{
    let (label, role) = match node_at(table, number) {
        Some(node) => node,
        None => return Ok(()),
    };
    if is_bad_node(alloc, graph, table, lengths, label, role)? {
        return Err(NodeFault::BadNode {
            node: label.copy(alloc)?,
        });
    }
    Ok(())
}

/// Whether the node, which has this role, is no cell, and has not its form.
fn is_bad_node(
    alloc: Global,
    graph: &Graph,
    table: &IndexMap<Label, Role>,
    lengths: &[usize],
    label: &Label,
    role: Role,
) -> Result<bool, NoMemory>
    requires table { table.now.entries ≡ table_of graph.now }
    requires lengths { AreLengths graph.now lengths.now }
    requires role { role ≡ role_of graph.now (held.Blank label.now) }
    ensures { IfOk result (λ bad. IsTrue bad ↔ IsBadNode graph.now label.now) }
{
    if is_cell(role) {
        return Ok(false);
    }
    let triples = about(alloc, graph, label)?;
    Ok(!is_formed(table, lengths, role, triples))
}

/// Whether the role is that of a cell.
pub fn is_cell(role: Role) -> bool
    ensures { IsTrue result ↔ (role ≡ roles.List) }
{
    role == Role::List
}

/// Whether the triples of a node, which is no cell, have the form that its role
/// asks for.
fn is_formed(
    table: &IndexMap<Label, Role>,
    lengths: &[usize],
    role: Role,
    triples: &[Triple],
) -> bool
    ensures { (g : List Triple) (x : Term)
        → IsSeen g x table.now.entries lengths.now role triples.now
        → (role ≡ roles.List → ⊥) → (IsTrue result ↔ IsFormedAs g role x) }
{
    match role {
        Role::Property => has_formed_row(table, lengths, node_rows(), role, triples),
        Role::Class => has_formed_row(table, lengths, node_rows(), role, triples),
        Role::Range => has_formed_row(table, lengths, node_rows(), role, triples),
        Role::Main => has_formed_row(table, lengths, axiom_rows(), role, triples),
        Role::Facet => is_facet(triples),
        Role::Note => is_reification(triples),
        Role::List | Role::Header | Role::Individual => true,
    }
}

/// Whether there is one triple of a facet.
fn is_facet(triples: &[Triple]) -> bool
    ensures { IsTrue result ↔ (length (facets triples.now) ≡ 1) }
{
    only_facet(triples).is_some()
}
