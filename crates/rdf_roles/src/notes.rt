//! The ways from a reification to those of its annotations.

ghost use Rattle.std.specs.Prelude.{◌≡◌, ◌↔◌, ◌<◌, IsTrue, OnOk, length, suc};
ghost use Rattle.std.specs.List.{list_any};
ghost use Rattle.directed_graphs.specs.Cycles.{edges_of};
ghost use Rattle.rdf_graph.specs.declared.term.Term.{Term};
ghost use Rattle.rdf_graph.specs.declared.term.Term.TheVariants as held;
ghost use Rattle.rdf_graph.specs.declared.triple.Triple.{Triple};
ghost use Rattle.rdf_meaning.specs.declared.role.Role.TheVariants as role;
ghost use Rattle.rdf_meaning.specs.declared.word.Word.TheVariants as word;
ghost use Rattle.rdf_meaning.specs.Nodes.{is_same, of_subject, role_of};
ghost use Rattle.rdf_meaning.specs.Statements.{IsDirectlyNotedUnder};
ghost use Rattle.rdf_rows.specs.Chosen.{objects_with};
ghost use Rattle.rdf_roles.specs.Tables.{AreEdges, blank_nodes, table_of};
ghost use Rattle.rdf_roles.specs.Ways.{AddsUnders, AreWays, reifies_note, reifies_with, with_way};

use crate::nodes::{about, is_note, is_same, node_at, number_of, role_of};
use indexmap::IndexMap;
use owl_characters::NoMemory;
use rdf_graph::{Graph, Term, Triple};
use rdf_meaning::{Role, Word};
use rdf_rows::{is_own, next_object};
use rdf_terms::{Iri, Label};
use std::alloc::{AllocError, Global};

/// Adds for each reification the numbers of those that reify its annotations.
pub fn add_notes(
    alloc: Global,
    graph: &Graph,
    table: &IndexMap<Label, Role>,
    ways: &mut Vec<Vec<usize>>,
) -> Result<(), NoMemory>
    requires table { table.now.entries ≡ table_of graph.now }
    requires ways { AreWays graph.now 0 (edges_of ways.old.items) }
    ensures { OnOk result (AreEdges graph.now (edges_of ways.new.items)) }
{
    for number in 0..table.len() {
        add_note(alloc, graph, table, number, ways)?;
    }
    Ok(())
}

/// Adds the number of the node for each reification under which it is noted.
fn add_note(
    alloc: Global,
    graph: &Graph,
    table: &IndexMap<Label, Role>,
    number: usize,
    ways: &mut Vec<Vec<usize>>,
) -> Result<(), NoMemory>
    requires table { table.now.entries ≡ table_of graph.now }
    requires ways { AreWays graph.now number (edges_of ways.old.items) }
    ensures { OnOk result (AreWays graph.now (suc number) (edges_of ways.new.items)) }
{
    let (label, role) = match node_at(table, number) {
        Some(node) => node,
        None => return Ok(()),
    };
    if !is_note(role) {
        return Ok(());
    }
    add_unders(graph, table, about(alloc, graph, label)?, number, ways)?;
    Ok(())
}

/// Adds the number of the reification with these triples for each source under
/// which it is noted.
fn add_unders(
    graph: &Graph,
    table: &IndexMap<Label, Role>,
    note: &[Triple],
    number: usize,
    ways: &mut Vec<Vec<usize>>,
) -> Result<(), AllocError>
    requires table { table.now.entries ≡ table_of graph.now }
    requires each { length ways.old.items ≡ length (blank_nodes graph.now) }
    ensures { OnOk result ((s : Term) → note.now ≡ of_subject graph.now s
        → role_of graph.now s ≡ role.Note
        → AddsUnders graph.now s number (edges_of ways.old.items) (edges_of ways.new.items)
        (objects_with word.AnnotatedSource note.now)) }
{
    let mut rest = note;
    while let Some((source, behind)) = next_object(rest, Word::AnnotatedSource) {
        if is_noted_under(graph, table, note, source) {
            if let Some(under) = number_of(table, source) {
                add_way(ways, under, number)?;
            }
        }
        rest = behind;
    }
    Ok(())
}

/// Adds a way from the one node to the other.
fn add_way(ways: &mut Vec<Vec<usize>>, from: usize, to: usize) -> Result<(), AllocError>
    requires { from < length ways.old.items }
    ensures { OnOk result (edges_of ways.new.items ≡ with_way (edges_of ways.old.items) from to) }
{
    ways[from].push(to)?;
    Ok(())
}

/// Whether the reification with these triples is noted under the other.
fn is_noted_under(
    graph: &Graph,
    table: &IndexMap<Label, Role>,
    note: &[Triple],
    under: &Term,
) -> bool
    requires { table.now.entries ≡ table_of graph.now }
    ensures { (s : Term) → note.now ≡ of_subject graph.now s → role_of graph.now s ≡ role.Note
        → (IsTrue result ↔ IsDirectlyNotedUnder graph.now s under.now) }
{
    is_note(role_of(table, under)) && reifies_some(note, graph.about(under))
}

/// Whether the reification with these triples reifies some annotation among the
/// triples of another.
fn reifies_some(note: &[Triple], triples: &[Triple]) -> bool
    ensures { result ≡ list_any (reifies_note note.now) triples.now }
{
    triples.iter().any(|triple| reifies_note(note, triple))
}

/// Whether the triple is an annotation of a reification, and the node with these
/// triples reifies it.
fn reifies_note(note: &[Triple], triple: &Triple) -> bool
    ensures { result ≡ reifies_note note.now triple.now }
{
    !is_own(Role::Note, triple) && reifies(note, triple)
}

/// Whether the node with these triples reifies the triple.
fn reifies(note: &[Triple], triple: &Triple) -> bool
    ensures { result ≡ reifies_with note.now triple.now }
{
    names(note, Word::AnnotatedSource, &triple.subject)
        && names_iri(note, Word::AnnotatedProperty, &triple.predicate)
        && names(note, Word::AnnotatedTarget, &triple.object)
}

/// Whether the term is an object of the triples with the word.
fn names(triples: &[Triple], word: Word, term: &Term) -> bool
    ensures { result ≡ list_any (is_same term.now) (objects_with word triples.now) }
{
    let mut rest = triples;
    while let Some((object, behind)) = next_object(rest, word) {
        if is_same(term, object) {
            return true;
        }
        rest = behind;
    }
    false
}

/// Whether the IRI is an object of the triples with the word.
fn names_iri(triples: &[Triple], word: Word, iri: &Iri) -> bool
    ensures { result ≡ list_any (is_same (held.Iri iri.now)) (objects_with word triples.now) }
{
    let mut rest = triples;
    while let Some((object, behind)) = next_object(rest, word) {
        if is_iri(object, iri) {
            return true;
        }
        rest = behind;
    }
    false
}

/// Whether the term is the IRI.
fn is_iri(term: &Term, iri: &Iri) -> bool
    ensures { result ≡ is_same (held.Iri iri.now) term.now }
{
    match term {
        Term::Iri(other) => *iri == *other,
        Term::Blank(_) | Term::Literal(_) => false,
    }
}
