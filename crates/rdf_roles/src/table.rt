//! The table of the blank nodes of a graph, with their roles.

ghost use Rattle.std.specs.Prelude.{◌≡◌, ◌∷◌, [], IfErr, IfOk, OnOk};
ghost use Rattle.indexmap.specs.IndexMap.{IsEmpty};
ghost use Rattle.rdf_faults.specs.Faults.{IsMixed};
ghost use Rattle.rdf_faults.specs.Firsts.{HoldsForNone};
ghost use Rattle.rdf_roles.specs.Refusals.{HaveOneRole, IsNodeFault};
ghost use Rattle.rdf_roles.specs.FaultPlaces.{IsMixedFault};
ghost use Rattle.rdf_roles.specs.Tables.{IsNew, begins_with, labels_in, table_of, with_node};

use crate::fault::NodeFault;
use crate::nodes::is_same;
use indexmap::IndexMap;
use rdf_graph::{Graph, Term, Triple};
use rdf_meaning::Role;
use rdf_rows::Marked;
use rdf_terms::Label;
use std::alloc::Global;

/// The blank nodes of the graph that have triples of their own, in order, with
/// their roles. `Mixed` with the first that has the marks of two.
pub fn table_of(alloc: Global, graph: &Graph) -> Result<IndexMap<Label, Role>, NodeFault>
    ensures ok { IfOk result (λ table. table.entries ≡ table_of graph.now) }
    ensures one_role { OnOk result (HaveOneRole graph.now) }
    ensures fault { IfErr result (IsNodeFault graph.now) }
{
    let mut table = IndexMap::new(alloc);
    add_nodes(alloc, graph, &mut table)?;
    Ok(table)
}

/// Adds all nodes with their roles.
fn add_nodes(
    alloc: Global,
    graph: &Graph,
    table: &mut IndexMap<Label, Role>,
) -> Result<(), NodeFault>
    requires { IsEmpty table.old }
    ensures ok { OnOk result (table.new.entries ≡ table_of graph.now) }
    ensures one_role { OnOk result (HaveOneRole graph.now) }
    ensures fault { IfErr result (IsNodeFault graph.now) }
{
    let mut rest = graph.triples();
    while let Some((triple, behind)) = rest.split_first() {
        if !begins_with(behind, &triple.subject) {
            add_node(alloc, graph, &triple.subject, table)?;
        }
        rest = behind;
    }
    Ok(())
}

/// Whether the first of the triples has this subject.
fn begins_with(triples: &[Triple], subject: &Term) -> bool
    ensures { result ≡ begins_with triples.now subject.now }
{
    match triples {
        [triple, ..] => is_same(&triple.subject, subject),
        [] => false,
    }
}

/// Adds the node with its role, where the term is a blank node.
fn add_node(
    alloc: Global,
    graph: &Graph,
    term: &Term,
    table: &mut IndexMap<Label, Role>,
) -> Result<(), NodeFault>
    requires { IsNew table.old.entries term.now }
    ensures added { OnOk result (
        table.new.entries ≡ with_node graph.now table.old.entries term.now) }
    ensures one_role { OnOk result (HoldsForNone (IsMixed graph.now) (labels_in (term.now ∷ []))) }
    ensures fault { IfErr result (IsMixedFault graph.now term.now) }
{
    let label = match term {
        Term::Blank(label) => label,
        Term::Iri(_) | Term::Literal(_) => return Ok(()),
    };
    let marked = Marked::of(graph.about(term));
    if marked.mixed {
        return Err(NodeFault::Mixed {
            node: label.copy(alloc)?,
        });
    }
    let node = label.copy(alloc)?;
    table.insert(node, marked.role)?;
    Ok(())
}
