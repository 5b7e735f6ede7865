//! The nodes of a graph, by their table.

ghost use Rattle.std.specs.Prelude.{◌≡◌, ◌↔◌, IfOk, IsTrue, List, option_map};
ghost use Rattle.rdf_graph.specs.declared.term.Term.TheVariants.{Blank};
ghost use Rattle.rdf_graph.specs.declared.triple.Triple.{Triple};
ghost use Rattle.rdf_meaning.specs.declared.role.Role.TheVariants as held;
ghost use Rattle.rdf_meaning.specs.Nodes.{is_same, of_subject, role_of};
ghost use Rattle.rdf_roles.specs.Tables.{IsNodeAt, IsNumber, table_of};

use indexmap::IndexMap;
use owl_characters::NoMemory;
use rdf_graph::{Graph, Term, Triple};
use rdf_meaning::Role;
use rdf_terms::Label;
use std::alloc::Global;

/// The label of the node with this number, and its role.
pub fn node_at(table: &IndexMap<Label, Role>, number: usize) -> Option<(&Label, Role)>
    ensures { (g : List Triple) → table.now.entries ≡ table_of g →
        IsNodeAt g number (option_map (λ node. (node.0.now, node.1)) result) }
{
    match table.get_index(number) {
        Some((label, role)) => Some((label, *role)),
        None => None,
    }
}

/// The number of the term, where it is a node of the table.
pub fn number_of(table: &IndexMap<Label, Role>, term: &Term) -> Option<usize>
    ensures { (g : List Triple) → table.now.entries ≡ table_of g → IsNumber g term.now result }
{
    match term {
        Term::Blank(label) => table.get_index_of(label),
        Term::Iri(_) | Term::Literal(_) => None,
    }
}

/// What the term is in the graph that has this table.
pub fn role_of(table: &IndexMap<Label, Role>, term: &Term) -> Role
    ensures { (g : List Triple) → table.now.entries ≡ table_of g → result ≡ role_of g term.now }
{
    match term {
        Term::Blank(label) => table.get(label).copied().unwrap_or(Role::Individual),
        Term::Iri(_) | Term::Literal(_) => Role::Individual,
    }
}

/// The triples of the node.
pub fn about<'a>(alloc: Global, graph: &'a Graph, label: &Label) -> Result<&'a [Triple], NoMemory>
    ensures { IfOk result (λ triples. triples.now ≡ of_subject graph.now (Blank label.now)) }
{
    let node = Term::Blank(label.copy(alloc)?);
    Ok(graph.about(&node))
}

/// Whether the terms are the same.
pub fn is_same(term: &Term, other: &Term) -> bool
    ensures { result ≡ is_same term.now other.now }
{
    *term == *other
}

/// Whether the role is that of a reification.
pub fn is_note(role: Role) -> bool
    ensures { IsTrue result ↔ (role ≡ held.Note) }
{
    role == Role::Note
}
