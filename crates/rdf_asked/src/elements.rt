//! What the elements of lists have to be.

ghost use Rattle.std.specs.Prelude.{◌≡◌, List};
ghost use Rattle.rdf_graph.specs.declared.triple.Triple.{Triple};
ghost use Rattle.rdf_asked.specs.Elements.{is_element};
ghost use Rattle.rdf_roles.specs.Tables.{IsTableOf};

use crate::sorts::{is_key, is_of_sort};
use owl_kind::Kinds;
use owl_tree::Sort;
use rdf_graph::Term;
use rdf_roles::Roles;

/// What each element of a list has to be.
#[derive(Clone, Copy, Debug)]
pub enum Element {
    /// A term for a tree of the sort.
    OfSort(Sort),
    /// A property that may be in a key.
    Key,
}

/// Whether the term is such an element.
pub fn is_element(roles: &Roles, kinds: &Kinds, element: Element, term: &Term) -> bool
    ensures { (g : List Triple) → IsTableOf g roles.now
        → result ≡ is_element g kinds.now element term.now }
{
    match element {
        Element::OfSort(sort) => is_of_sort(roles, kinds, sort, term),
        Element::Key => is_key(roles, kinds, term),
    }
}
