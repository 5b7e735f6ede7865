//! What stands at the numbers of nodes.

ghost use Rattle.std.specs.Prelude.{◌≡◌, ℕ, List, IfSome, IsNone, false, Some, slice_get, slice_index};
ghost use Rattle.rdf_graph.specs.declared.term.Term.TheVariants.{Blank};
ghost use Rattle.rdf_graph.specs.declared.triple.Triple.{Triple};
ghost use Rattle.rdf_roles.specs.Tables.{IsTableOf, blank_nodes};
ghost use Rattle.ttl_levels.specs.Nested.{is_nestable};
ghost use Rattle.ttl_levels.specs.NestTables.{AreNamed, IsNamer, IsValueOf};

use crate::named::Named;
use rdf_graph::{Graph, Term, Triple};
use rdf_roles::Roles;

/// The one triple of which the node with the number is the object, where there is one alone.
pub fn namer<'a>(graph: &'a Graph, names: &[Named], number: usize) -> Option<&'a Triple>
    requires names { AreNamed graph.now graph.now names.now }
    ensures some { IfSome result (λ triple. (label : List ℕ)
        → slice_get (blank_nodes graph.now) number ≡ Some label
        → IsNamer graph.now (Blank label) triple.now) }
    ensures none { IsNone result → (label : List ℕ)
        → slice_get (blank_nodes graph.now) number ≡ Some label
        → is_nestable graph.now (Blank label) ≡ false }
{
    match names.get(number)? {
        Named::Never => None,
        Named::Once(place) => {
            if *place < graph.len() {
                Some(graph.at(*place))
            } else {
                None
            }
        }
        Named::More => None,
    }
}

/// What stands at the number of the term; 0, where it is no node.
pub fn value_of(roles: &Roles, values: &[usize], term: &Term) -> usize
    ensures { (g : List Triple) → IsTableOf g roles.now → IsValueOf g values.now term.now result }
{
    let Term::Blank(label) = term else {
        return 0;
    };
    let Some(number) = roles.number(label) else {
        return 0;
    };
    value_at(values, number)
}

/// What stands at the number; 0, where nothing does.
fn value_at(values: &[usize], number: usize) -> usize
    ensures { result ≡ slice_index values.now number }
{
    match values.get(number) {
        Some(value) => *value,
        None => 0,
    }
}
