//! Nodes of which all triples name what they may, as one look at the node tells.

ghost use Rattle.std.specs.Prelude.{◌≡◌, ◌↔◌, Contains, IsTrue};
ghost use Rattle.std.specs.List.{AllByRecursion};
ghost use Rattle.rdf_graph.specs.declared.term.Term.{Term};
ghost use Rattle.rdf_meaning.specs.Nodes.{of_subject, role_of};
ghost use Rattle.rdf_meaning.specs.Rows.{row_seen};
ghost use Rattle.rdf_faults.specs.Asked.{rows};
ghost use Rattle.rdf_faults.specs.DecidedLaws.{HasSome};
ghost use Rattle.rdf_rows.specs.Fits.{CountsWords};
ghost use Rattle.rdf_asked.specs.Asking.{AsksForAll, IsTypedNode, SuitsPart};
ghost use Rattle.rdf_asked.specs.Listed.{IsSource};

use crate::asked::suits;
use crate::sorts::role_of_term;
use crate::source::Source;
use rdf_graph::{Term, Triple};
use rdf_meaning::{Part, Role, Row, axiom_rows, node_rows};
use rdf_rows::NodeWords;

/// Whether nothing is asked of the triples of the node, by its role, or one of its
/// rows asks for the objects of all of them. Where neither is so, each triple has
/// to be looked at.
pub fn is_typed_node(source: &Source, node: &Term) -> bool
    requires source { IsSource source.now }
    ensures { IsTrue result → IsTypedNode source.now.graph.now source.now.kinds.now node.now }
{
    let role = role_of_term(source.roles, node);
    match role {
        Role::Property | Role::Class | Role::Range | Role::Main => {
            has_row_for_all(source, rows_for(role), role, node)
        }
        Role::Facet => false,
        Role::List | Role::Note | Role::Header | Role::Individual => true,
    }
}

/// The rows among which are those of a node of the role.
fn rows_for(role: Role) -> &'static [Row]
    ensures { AllByRecursion (λ row. Contains rows (row_seen row)) result.now }
{
    match role {
        Role::Main => axiom_rows(),
        _ => node_rows(),
    }
}

/// Whether one of the rows asks for the objects of all triples of the node, which
/// has the role.
fn has_row_for_all(source: &Source, rows: &[Row], role: Role, node: &Term) -> bool
    requires source { IsSource source.now }
    requires role { role ≡ role_of source.now.graph.now node.now }
    ensures { IsTrue result
        → HasSome (λ row. AsksForAll source.now.graph.now source.now.kinds.now node.now
        (row_seen row)) rows.now }
{
    let triples = source.graph.about(node);
    let words = NodeWords::of(triples);
    for row in rows {
        if is_for_all(source, &words, row, role, triples) {
            return true;
        }
    }
    false
}

/// Whether the row is one of a node of the role with these triples and words, and
/// asks for the objects of all of them.
fn is_for_all(source: &Source, words: &NodeWords, row: &Row, role: Role, triples: &[Triple]) -> bool
    requires source { IsSource source.now }
    requires words { CountsWords words.now triples.now }
    ensures { (x : Term) → role ≡ role_of source.now.graph.now x
        → triples.now ≡ of_subject source.now.graph.now x
        → (IsTrue result
        ↔ AsksForAll source.now.graph.now source.now.kinds.now x (row_seen row.now)) }
{
    words.fit(role, row) && suit(source, row.parts, triples)
}

/// Whether the object of each triple is what is wanted at the parts of the triple.
fn suit(source: &Source, parts: &[Part], triples: &[Triple]) -> bool
    requires source { IsSource source.now }
    ensures { IsTrue result ↔ AllByRecursion
        (λ t. AllByRecursion (SuitsPart source.now.graph.now source.now.kinds.now t) parts.now)
        triples.now }
{
    for triple in triples {
        if !suits(source, parts, triple) {
            return false;
        }
    }
    true
}
