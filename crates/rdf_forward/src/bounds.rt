//! Whether a graph is too large, found before any of its triples is made.

ghost use Rattle.std.specs.Prelude.{◌<◌, IfOk, IsTrue, length};
ghost use Rattle.owl_arena.specs.Held.{AreHeld, trees_at};
ghost use Rattle.owl_doc.specs.Documents.{ontology_of};
ghost use Rattle.rdf_graph.specs.Graphs.{most_triples};
ghost use Rattle.rdf_mapping.specs.Graphs.{graph_of, groups_of};
ghost use Rattle.rdf_counts.specs.Counts.{Takes, groups_drawn};
ghost use Rattle.rdf_forward.specs.BareOrder.{AreOrdered};

use crate::groups::{group_len, sorted};
use owl_arena::{Arena, ExprId};
use owl_characters::NoMemory;
use owl_doc::Doc;
use rdf_counts::{count_axiom, graphs_have_their_expressions};
use rdf_graph::MOST_TRIPLES;
use rdf_states::graphs_have_few_nodes;
use std::alloc::Global;

/// What axioms weigh of which no count is worth its time: of each node and leaf
/// hardly more than four triples are made.
const LIGHT: u64 = 1 << 22;

/// Whether the nodes of the axioms' expressions alone have more than 2^24 triples:
/// `true` only where the graph has.
pub fn draws_too_many(alloc: Global, doc: &Doc) -> Result<bool, NoMemory>
    ensures { IfOk result (λ many. IsTrue many
        → most_triples < length (graph_of (ontology_of doc.now))) }
{
    if !are_heavy(doc.arena(), doc.axioms()) {
        return Ok(false);
    }
    graphs_have_few_nodes();
    graphs_have_their_expressions();
    draw_too_many(alloc, doc.arena(), doc.axioms())
}

/// Whether the axioms weigh so much that their triples are worth a count.
fn are_heavy(arena: &Arena, axioms: &[ExprId]) -> bool
    requires { AreHeld arena.now.trees axioms.now }
{
    let mut left = LIGHT;
    for axiom in axioms {
        match left.checked_sub(arena.weight(*axiom)) {
            Some(less) => left = less,
            None => return true,
        }
    }
    false
}

/// Whether the nodes of the expressions of axioms have more than 2^24 triples, where
/// axioms that differ in their annotations alone count once.
fn draw_too_many(alloc: Global, arena: &Arena, axioms: &[ExprId]) -> Result<bool, NoMemory>
    requires { AreHeld arena.now.trees axioms.now }
    ensures { IfOk result (λ many. IsTrue many
        → most_triples < groups_drawn (groups_of (trees_at arena.now.trees axioms.now))) }
{
    let axioms = sorted(alloc, arena, axioms)?;
    Ok(count_groups(arena, &axioms, MOST_TRIPLES as u64).is_none())
}

/// Takes of `left` at most as many as there are triples of the nodes of the
/// expressions of axioms that are in order, each group of them once.
fn count_groups(arena: &Arena, axioms: &[ExprId], left: u64) -> Option<u64>
    requires held { AreHeld arena.now.trees axioms.now }
    requires ordered { AreOrdered (trees_at arena.now.trees axioms.now) }
    ensures { Takes left result (groups_drawn (groups_of (trees_at arena.now.trees axioms.now))) }
{
    let mut remaining = left;
    let mut rest = axioms;
    while let [first, ..] = rest {
        let (_, others) = rest.split_at(group_len(arena, rest));
        remaining = count_axiom(arena, *first, remaining)?;
        rest = others;
    }
    Some(remaining)
}
