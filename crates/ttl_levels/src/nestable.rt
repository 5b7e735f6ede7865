//! Which blank nodes may be written in brackets.

ghost use Rattle.std.specs.Prelude.{◌≡◌, length, nat_eq, true};
ghost use Rattle.std.specs.List.{list_all};
ghost use Rattle.rdf_graph.specs.declared.term.Term.TheVariants.{Blank};
ghost use Rattle.rdf_meaning.specs.Nodes.{is_own, role_of};
ghost use Rattle.rdf_roles.specs.Tables.{IsTableOf};
ghost use Rattle.ttl_levels.specs.Nested.{is_nestable, is_part, named_by};
ghost use Rattle.ttl_levels.specs.NestTables.{AreNamed};

use crate::named::Named;
use rdf_graph::{Graph, Term, Triple};
use rdf_meaning::Role;
use rdf_roles::Roles;
use rdf_rows::is_own;
use rdf_terms::Label;

/// Whether the term is a node of a list, an expression or a facet, the object of exactly one triple, and all its own triples are
/// structural.
#[tactic(auto, unfolding(crate::specs::Nested::is_nestable))]
pub fn is_nestable(graph: &Graph, roles: &Roles, names: &[Named], term: &Term) -> bool
    requires table { IsTableOf graph.now roles.now }
    requires names { AreNamed graph.now graph.now names.now }
    ensures { result ≡ is_nestable graph.now term.now }
{
    let Term::Blank(label) = term else {
        return false;
    };
    let role = roles.role(label);
    if !is_part(role) {
        return false;
    }
    if !is_named_once(graph, roles, names, label) {
        return false;
    }
    are_own(role, graph.about(term))
}

/// Whether the role is that of a list, an expression or a facet.
fn is_part(role: Role) -> bool
    ensures { result ≡ is_part role }
{
    match role {
        Role::List => true,
        Role::Property => true,
        Role::Class => true,
        Role::Range => true,
        Role::Facet => true,
        Role::Main | Role::Note | Role::Header | Role::Individual => false,
    }
}

/// Whether the node is the object of one triple.
fn is_named_once(graph: &Graph, roles: &Roles, names: &[Named], label: &Label) -> bool
    requires table { IsTableOf graph.now roles.now }
    requires names { AreNamed graph.now graph.now names.now }
    requires part { is_part (role_of graph.now (Blank label.now)) ≡ true }
    ensures { result ≡ nat_eq (length (named_by graph.now (Blank label.now))) 1 }
{
    let Some(number) = roles.number(label) else {
        return false;
    };
    let Some(named) = names.get(number) else {
        return false;
    };
    match named {
        Named::Never => false,
        Named::Once(_) => true,
        Named::More => false,
    }
}

/// Whether all triples make a node of the role what it is.
fn are_own(role: Role, triples: &[Triple]) -> bool
    ensures { result ≡ list_all (is_own role) triples.now }
{
    let mut rest = triples;
    while let Some((triple, behind)) = rest.split_first() {
        if !is_own(role, triple) {
            return false;
        }
        rest = behind;
    }
    true
}
