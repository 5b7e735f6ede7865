//! Of which elements a list is one.

ghost use Rattle.std.specs.Prelude.{◌≡◌, ◌&&◌, List, option_map};
ghost use Rattle.owl_kind.specs.Kinds.{Entity};
ghost use Rattle.rdf_graph.specs.declared.term.Term.TheVariants as held;
ghost use Rattle.rdf_graph.specs.declared.triple.Triple.{Triple};
ghost use Rattle.rdf_meaning.specs.Nodes.{nil_iri};
ghost use Rattle.rdf_faults.specs.Asked.{is_of_sort};
ghost use Rattle.rdf_asked.specs.Elements.{is_element};
ghost use Rattle.rdf_asked.specs.Listed.{IsListed, told, told_of};
ghost use Rattle.rdf_roles.specs.Tables.{IsTableOf};

use crate::elements::Element;
use crate::sorts::{is_key, is_of_sort};
use owl_kind::Kinds;
use owl_tree::Sort;
use rdf_graph::Term;
use rdf_roles::Roles;

/// Whether all elements of a list are such ones, of each kind of element that a row
/// may want.
#[derive(Clone, Copy, Debug)]
pub struct Listed {
    pub classes: bool,
    pub ranges: bool,
    pub object_properties: bool,
    pub data_properties: bool,
    pub individuals: bool,
    pub literals: bool,
    pub facets: bool,
    pub keys: bool,
}

impl Listed {
    /// What rdf:nil is.
    pub fn of_nil() -> Listed
        ensures { (g : List Triple) (k : List Entity) → IsListed g k (held.Iri nil_iri) result }
    {
        Listed {
            classes: true,
            ranges: true,
            object_properties: true,
            data_properties: true,
            individuals: true,
            literals: true,
            facets: true,
            keys: true,
        }
    }

    /// What a list is that has the term in front of a list that is this.
    pub fn with_first(&self, roles: &Roles, kinds: &Kinds, first: &Term) -> Listed
        ensures { (g : List Triple) (e : Element) → IsTableOf g roles.now → told result e
            ≡ option_map (λ b. b && is_element g kinds.now e first.now) (told self.now e) }
    {
        Listed {
            classes: goes_on(self.classes, roles, kinds, Sort::ClassExpression, first),
            ranges: goes_on(self.ranges, roles, kinds, Sort::DataRange, first),
            object_properties: goes_on(
                self.object_properties,
                roles,
                kinds,
                Sort::ObjectPropertyExpression,
                first,
            ),
            data_properties: goes_on(
                self.data_properties,
                roles,
                kinds,
                Sort::DataPropertyExpression,
                first,
            ),
            individuals: goes_on(self.individuals, roles, kinds, Sort::Individual, first),
            literals: goes_on(self.literals, roles, kinds, Sort::Literal, first),
            facets: goes_on(self.facets, roles, kinds, Sort::FacetPair, first),
            keys: self.keys && is_key(roles, kinds, first),
        }
    }

    /// Whether all elements are such ones, where it is told.
    pub fn told(&self, element: Element) -> Option<bool>
        ensures { result ≡ told self.now element }
    {
        match element {
            Element::OfSort(sort) => self.told_of(sort),
            Element::Key => Some(self.keys),
        }
    }

    /// Whether all elements are terms for trees of the sort, where it is told.
    fn told_of(&self, sort: Sort) -> Option<bool>
        ensures { result ≡ told_of self.now sort }
    {
        match sort {
            Sort::ClassExpression => Some(self.classes),
            Sort::DataRange => Some(self.ranges),
            Sort::ObjectPropertyExpression => Some(self.object_properties),
            Sort::DataPropertyExpression => Some(self.data_properties),
            Sort::Individual => Some(self.individuals),
            Sort::Literal => Some(self.literals),
            Sort::FacetPair => Some(self.facets),
            _ => None,
        }
    }
}

/// Whether the others are terms for trees of the sort, and the term is one too.
fn goes_on(others: bool, roles: &Roles, kinds: &Kinds, sort: Sort, term: &Term) -> bool
    ensures { (g : List Triple) → IsTableOf g roles.now
        → result ≡ (others && is_of_sort g kinds.now sort term.now) }
{
    others && is_of_sort(roles, kinds, sort, term)
}
