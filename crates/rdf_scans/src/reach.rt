//! The nodes that axioms reach.

ghost use Rattle.std.specs.Prelude.{◌≡◌, ◌↔◌, ◌<◌, IfOk, IsTrue, OnOk, length};
ghost use Rattle.rdf_graph.specs.declared.term.Term.TheVariants.{Blank};
ghost use Rattle.rdf_meaning.specs.declared.role.Role.TheVariants as held;
ghost use Rattle.rdf_meaning.specs.Nodes.{of_subject};
ghost use Rattle.rdf_scans.specs.Reach.{AddsMarks, AreMarked, IsBySome, IsEndOf, IsNext, IsNodeWithRole, IsNumberWithRole, IsObjectOf, IsReachedIn, IsRootIn, has_mark, reaches_on};
ghost use Rattle.rdf_scans.specs.Sorts.{IsReading};

use crate::reading::Reading;
use crate::sorts::{is_main, sort_of};
use owl_characters::NoMemory;
use rdf_graph::{Graph, Term, Triple};
use rdf_meaning::Role;
use rdf_rows::is_own;
use rdf_terms::Label;
use std::alloc::Global;

/// For each node, by its number, whether an axiom reaches it.
pub fn reached(alloc: Global, reading: &Reading) -> Result<Vec<bool>, NoMemory>
    requires { IsReading reading.now }
    ensures { IfOk result (λ marks.
        AreMarked reading.now.graph.now (IsReachedIn reading.now) marks.items) }
{
    let mut marks = roots(alloc, reading)?;
    mark_below(alloc, reading, &mut marks)?;
    Ok(marks)
}

/// Whether the node with the number has a mark.
pub fn has_mark(marks: &[bool], number: usize) -> bool
    ensures { result ≡ has_mark marks.now number }
{
    marks.get(number).copied().unwrap_or(false)
}

/// For each node whether it is a subject or an object of an axiom.
fn roots(alloc: Global, reading: &Reading) -> Result<Vec<bool>, NoMemory>
    requires { IsReading reading.now }
    ensures { IfOk result (λ marks.
        AreMarked reading.now.graph.now (IsRootIn reading.now) marks.items) }
{
    let mut marks: Vec<bool> = vec![in alloc; false; reading.roles.len()]?;
    mark_ends(reading, &mut marks);
    Ok(marks)
}

/// Marks the nodes that are subjects and objects of axioms.
fn mark_ends(reading: &Reading, marks: &mut Vec<bool>)
    requires { IsReading reading.now }
    ensures { AddsMarks (IsBySome (IsEndOf reading.now) reading.now.graph.now) marks.old.items
        marks.new.items }
{
    'triples: for triple in reading.graph.triples() {
        if is_main(sort_of(reading, triple)) {
            mark(reading, &triple.subject, marks);
            mark(reading, &triple.object, marks);
        }
    }
}

/// Marks the term, where it is a node with a role.
fn mark(reading: &Reading, term: &Term, marks: &mut Vec<bool>)
    requires { IsReading reading.now }
    ensures { AddsMarks (IsNodeWithRole reading.now.graph.now term.now) marks.old.items
        marks.new.items }
{
    if let Some(number) = number_of(reading, term) {
        if number < marks.len() {
            marks[number] = true;
        }
    }
}

/// The number of the term, where it is a node with a role.
fn number_of(reading: &Reading, term: &Term) -> Option<usize>
    requires { IsReading reading.now }
    ensures { IsNumberWithRole reading.now.graph.now term.now result }
{
    match term {
        Term::Blank(label) => number_with_role(reading, label),
        Term::Iri(_) | Term::Literal(_) => None,
    }
}

/// The number of the node, where it has a role.
fn number_with_role(reading: &Reading, label: &Label) -> Option<usize>
    requires { IsReading reading.now }
    ensures { IsNumberWithRole reading.now.graph.now (Blank label.now) result }
{
    if is_individual(reading.roles.role(label)) {
        None
    } else {
        reading.roles.number(label)
    }
}

fn is_individual(role: Role) -> bool
    ensures { IsTrue result ↔ (role ≡ held.Individual) }
{
    match role {
        Role::Individual => true,
        _ => false,
    }
}

/// Marks what is below the nodes that are marked, and below those that stand for
/// axioms.
fn mark_below(alloc: Global, reading: &Reading, marks: &mut Vec<bool>) -> Result<(), NoMemory>
    requires reading { IsReading reading.now }
    requires roots { AreMarked reading.now.graph.now (IsRootIn reading.now) marks.old.items }
    ensures { OnOk result (
        AreMarked reading.now.graph.now (IsReachedIn reading.now) marks.new.items) }
{
    let mut rest = reading.roles.order();
    while let Some((number, before)) = rest.split_last() {
        mark_next(alloc, reading, *number, marks)?;
        rest = before;
    }
    Ok(())
}

/// Marks what is straight below the node with the number, where that is reached.
fn mark_next(
    alloc: Global,
    reading: &Reading,
    number: usize,
    marks: &mut Vec<bool>,
) -> Result<(), NoMemory>
    requires reading { IsReading reading.now }
    requires node { number < length reading.now.roles.now.nodes }
    ensures { OnOk result (AddsMarks (IsNext reading.now.graph.now marks.old.items number)
        marks.old.items marks.new.items) }
{
    let Some(label) = reading.roles.node(number) else {
        unreachable!();
    };
    let role = reading.roles.role(label);
    if reaches_on(role, has_mark(marks, number)) {
        let triples = about(alloc, reading.graph, label)?;
        mark_objects(reading, role, triples, marks);
    }
    Ok(())
}

/// Whether what is straight below a node of the role is reached, by whether the node
/// is.
fn reaches_on(role: Role, reached: bool) -> bool
    ensures { result ≡ reaches_on role reached }
{
    match role {
        Role::Main => true,
        Role::Note => false,
        _ => reached,
    }
}

/// The triples of the node.
fn about<'a>(alloc: Global, graph: &'a Graph, label: &Label) -> Result<&'a [Triple], NoMemory>
    ensures { IfOk result (λ triples. triples.now ≡ of_subject graph.now (Blank label.now)) }
{
    let node = Term::Blank(label.copy(alloc)?);
    Ok(graph.about(&node))
}

/// Marks the nodes that are objects of the own triples of a node of the role.
fn mark_objects(reading: &Reading, role: Role, triples: &[Triple], marks: &mut Vec<bool>)
    requires { IsReading reading.now }
    ensures { AddsMarks (IsBySome (IsObjectOf reading.now.graph.now role) triples.now)
        marks.old.items marks.new.items }
{
    'triples: for triple in triples {
        if is_own(role, triple) {
            mark(reading, &triple.object, marks);
        }
    }
}
