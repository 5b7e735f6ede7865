//! What is known of the lists of a graph in which lists are shared.

ghost use Rattle.std.specs.Prelude.{◌≡◌, IfOk, IfSome, List, length, nat_lt};
ghost use Rattle.std.specs.List.{filter};
ghost use Rattle.owl_kind.specs.Kinds.{Entity};
ghost use Rattle.rdf_graph.specs.declared.triple.Triple.{Triple};
ghost use Rattle.rdf_meaning.specs.declared.word.Word.TheVariants as word;
ghost use Rattle.rdf_asked.specs.Listed.{AreKnownLists, IsKnownAt, IsListed, IsSource, names_cell};
ghost use Rattle.rdf_roles.specs.Refusals.{AreNodesFormed};
ghost use Rattle.rdf_roles.specs.Tables.{IsTableOf};
ghost use Rattle.rdf_rows.specs.Chosen.{carriers};

use crate::listed::Listed;
use crate::lists::{cell_of, known_of};
use crate::sorts::role_of_term;
use crate::source::Source;
use owl_characters::NoMemory;
use owl_kind::Kinds;
use rdf_graph::{Graph, Term, Triple};
use rdf_meaning::{Role, Word};
use rdf_roles::Roles;
use rdf_rows::carries;
use std::alloc::{AllocError, Global};

/// What is known of the lists that begin at the nodes of the graph, by the numbers of
/// these: nothing, where no list is named twice.
pub fn lists_of(
    alloc: Global,
    graph: &Graph,
    roles: &Roles,
    kinds: &Kinds,
) -> Result<Vec<Option<Listed>>, NoMemory>
    requires table { IsTableOf graph.now roles.now }
    requires formed { AreNodesFormed graph.now }
    ensures { IfOk result (λ lists. AreKnownLists graph.now kinds.now lists.items) }
{
    if shares_lists(roles, graph.triples()) {
        return all_lists(alloc, graph, roles, kinds);
    }
    Ok(Vec::new(alloc))
}

/// Whether more triples name cells than there are cells: whether two name one, in a
/// graph whose nodes have their forms.
pub fn shares_lists(roles: &Roles, triples: &[Triple]) -> bool
    requires { IsTableOf triples.now roles.now }
    ensures { result ≡ nat_lt (length (carriers word.Rest triples.now))
        (length (filter (names_cell triples.now) triples.now)) }
{
    count(triples, Word::Rest) < count_names(roles, triples)
}

/// How many of the triples carry the word.
fn count(triples: &[Triple], word: Word) -> usize
    ensures { result ≡ length (carriers word triples.now) }
{
    triples
        .iter()
        .filter(|triple| carries(*triple, word))
        .count()
}

/// How many of the triples name a cell.
fn count_names(roles: &Roles, triples: &[Triple]) -> usize
    requires { IsTableOf triples.now roles.now }
    ensures { result ≡ length (filter (names_cell triples.now) triples.now) }
{
    triples
        .iter()
        .filter(|triple| names_cell(roles, *triple))
        .count()
}

/// Whether the object is a cell, and the triple not one of a reification.
fn names_cell(roles: &Roles, triple: &Triple) -> bool
    ensures { (g : List Triple) → IsTableOf g roles.now → result ≡ names_cell g triple.now }
{
    match role_of_term(roles, &triple.object) {
        Role::List => !carries(triple, Word::AnnotatedTarget),
        _ => false,
    }
}

/// What is known of all lists.
fn all_lists(
    alloc: Global,
    graph: &Graph,
    roles: &Roles,
    kinds: &Kinds,
) -> Result<Vec<Option<Listed>>, NoMemory>
    requires table { IsTableOf graph.now roles.now }
    requires formed { AreNodesFormed graph.now }
    ensures { IfOk result (λ lists. AreKnownLists graph.now kinds.now lists.items) }
{
    let mut lists = none_known(alloc, roles.len())?;
    // The rest of a cell stands before the cell.
    for number in roles.order() {
        let source = Source {
            graph,
            roles,
            kinds,
            lists: &lists,
        };
        let known = list_at(alloc, &source, *number)?;
        put(&mut lists, *number, known);
    }
    Ok(lists)
}

/// So many nodes of which nothing is known.
#[tactic(auto, using(crate::proofs::KnownLists::one_unknown))]
fn none_known(alloc: Global, nodes: usize) -> Result<Vec<Option<Listed>>, NoMemory>
    ensures { (g : List Triple) (k : List Entity) → IfOk result (λ lists.
        AreKnownLists g k lists.items) }
{
    let mut lists = Vec::new(alloc);
    for _node in 0..nodes {
        lists.push(None).map_err(AllocError::from)?;
    }
    Ok(lists)
}

/// Of which elements the node with the number is a list, where it is a cell of whose
/// rest it is known.
fn list_at(alloc: Global, source: &Source, number: usize) -> Result<Option<Listed>, NoMemory>
    requires source { IsSource source.now }
    ensures { IfOk result (
        IsKnownAt source.now.graph.now source.now.kinds.now number) }
{
    let Some(label) = source.roles.node(number) else {
        return Ok(None);
    };
    let node = Term::Blank(label.copy(alloc)?);
    Ok(list_from(source, &node))
}

/// Of which elements the term is a list, where it is a cell of whose rest it is known.
fn list_from(source: &Source, term: &Term) -> Option<Listed>
    requires source { IsSource source.now }
    ensures { IfSome result (IsListed source.now.graph.now source.now.kinds.now term.now) }
{
    let (first, rest) = cell_of(source, term)?;
    let behind = known_of(source, rest)?;
    Some(behind.with_first(source.roles, source.kinds, first))
}

/// Keeps what is known of the node with the number.
fn put(lists: &mut Vec<Option<Listed>>, number: usize, known: Option<Listed>)
    ensures { (g : List Triple) (k : List Entity) → AreKnownLists g k lists.old.items
        → IsKnownAt g k number known → AreKnownLists g k lists.new.items }
{
    if number < lists.len() {
        lists[number] = known;
    }
}
