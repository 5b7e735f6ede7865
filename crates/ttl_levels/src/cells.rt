//! How many cells round nodes have.

ghost use Rattle.std.specs.Prelude.{◌≡◌, ◌↔◌, ℕ, IfOk, IsTrue, List, Some, length, true, slice_index};
ghost use Rattle.std.specs.Option.{option_copied};
ghost use Rattle.std.specs.Str.{bytes_eq};
ghost use Rattle.rdf_graph.specs.declared.term.Term.{Term};
ghost use Rattle.rdf_graph.specs.declared.triple.Triple.{Triple};
ghost use Rattle.rdf_meaning.specs.declared.role.Role.TheVariants as held;
ghost use Rattle.rdf_meaning.specs.Nodes.{role_of};
ghost use Rattle.rdf_roles.specs.Tables.{IsNode, IsTableOf, LeadsBetween, blank_nodes};
ghost use Rattle.ttl_levels.specs.Nested.{HasCells, IsRound, first_iri, rest_iri};
ghost use Rattle.ttl_levels.specs.NestTables.{AreCounts, AreKnownBelow, AreNamed, IsCellCount, IsCellCountAt, IsCountBefore, cell_rest};

use crate::named::Named;
use crate::nestable::is_nestable;
use crate::nodes::{namer, value_of};
use owl_characters::NoMemory;
use rdf_graph::{Graph, Term, Triple};
use rdf_meaning::Role;
use rdf_roles::Roles;
use rdf_rows::{is_nil, is_spelled};
use rdf_terms::rdf;
use std::alloc::Global;

/// How many cells each round node has, by the numbers of nodes: 0 where it is none.
pub fn counts_of(
    alloc: Global,
    graph: &Graph,
    roles: &Roles,
    names: &[Named],
) -> Result<Vec<usize>, NoMemory>
    requires table { IsTableOf graph.now roles.now }
    requires names { AreNamed graph.now graph.now names.now }
    ensures { IfOk result (λ cells. AreCounts graph.now cells.items) }
{
    let mut cells: Vec<usize> = vec![in alloc; 0; roles.len()]?;
    let mut rest = roles.order();
    while let Some((number, behind)) = rest.split_first() {
        let count = count_at(graph, roles, names, &cells, *number)?;
        cells[*number] = count;
        rest = behind;
    }
    Ok(cells)
}

/// How many cells the node with the number has, by the counts of those to which it leads.
fn count_at(
    graph: &Graph,
    roles: &Roles,
    names: &[Named],
    cells: &[usize],
    number: usize,
) -> Result<usize, NoMemory>
    requires table { IsTableOf graph.now roles.now }
    requires names { AreNamed graph.now graph.now names.now }
    requires below { AreKnownBelow graph.now cells.now number }
    ensures { IfOk result (IsCellCountAt graph.now number) }
{
    let Some(triple) = namer(graph, names, number) else {
        return Ok(0);
    };
    let node = &triple.object;
    if !is_nestable(graph, roles, names, node) {
        return Ok(0);
    }
    if !is_list(roles, node) {
        return Ok(0);
    }
    let Some(rest) = cell_rest(graph.about(node)) else {
        return Ok(0);
    };
    count_before(rest, value_of(roles, cells, rest))
}

/// Whether the term is a node of a list.
fn is_list(roles: &Roles, term: &Term) -> bool
    ensures { (g : List Triple) → IsTableOf g roles.now
        → (IsTrue result ↔ (role_of g term.now ≡ held.List)) }
{
    match term {
        Term::Blank(label) => roles.role(label) == Role::List,
        Term::Iri(_) | Term::Literal(_) => false,
    }
}

/// The rest of a cell of these triples, where they are a first and a rest.
fn cell_rest(triples: &[Triple]) -> Option<&Term>
    ensures { option_copied result ≡ cell_rest triples.now }
{
    match triples {
        [first, rest] => {
            if is_first(first) && is_rest(rest) {
                Some(&rest.object)
            } else {
                None
            }
        }
        _ => None,
    }
}

/// Whether the predicate is rdf:first.
fn is_first(triple: &Triple) -> bool
    ensures { result ≡ bytes_eq triple.now.predicate first_iri }
{
    is_spelled(&triple.predicate, rdf!("first"))
}

/// Whether the predicate is rdf:rest.
pub fn is_rest(triple: &Triple) -> bool
    ensures { result ≡ bytes_eq triple.now.predicate rest_iri }
{
    is_spelled(&triple.predicate, rdf!("rest"))
}

/// One more than the rest has, which is rdf:nil or has so many.
fn count_before(rest: &Term, count: usize) -> Result<usize, NoMemory>
    ensures { (g : List Triple) → IsCellCount g rest.now count
        → IfOk result (λ cells. IsCountBefore g rest.now cells) }
{
    if is_nil(rest) {
        return Ok(1);
    }
    if count == 0 {
        return Ok(0);
    }
    match count.checked_add(1) {
        Some(cells) => Ok(cells),
        None => Err(NoMemory),
    }
}
