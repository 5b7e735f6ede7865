//! Whether a term is what is wanted.

ghost use Rattle.std.specs.Prelude.{◌≡◌, ◌∷◌, [], ◌↔◌, IfSome, IsNone, IsTrue};
ghost use Rattle.rdf_graph.specs.declared.term.Term.TheVariants as held;
ghost use Rattle.rdf_meaning.specs.declared.role.Role.TheVariants as role;
ghost use Rattle.rdf_meaning.specs.declared.word.Word.TheVariants as word;
ghost use Rattle.rdf_meaning.specs.Nodes.{chosen, role_of};
ghost use Rattle.rdf_faults.specs.Asked.{IsListOf, IsMet};
ghost use Rattle.rdf_asked.specs.Elements.{is_element};
ghost use Rattle.rdf_asked.specs.Listed.{IsListed, IsSource};

use crate::elements::{Element, is_element};
use crate::listed::Listed;
use crate::sorts::{is_declared, is_of_sort, role_of_term};
use crate::source::Source;
use rdf_graph::Term;
use rdf_meaning::{Role, Want};
use rdf_rows::{cell, is_nil, is_true};
use rdf_terms::Label;

/// Whether the term is what is wanted (Mapping to RDF Graphs, section 3.2), in time that
/// grows with the graph where what is known of its lists is kept. Takes no memory.
pub fn meets(source: &Source, want: Want, term: &Term) -> bool
    requires source { IsSource source.now }
    ensures { IsTrue result ↔ IsMet source.now.graph.now source.now.kinds.now want term.now }
{
    match want {
        Want::One(sort) => is_of_sort(source.roles, source.kinds, sort, term),
        Want::Many(sort, least) => is_list_of(source, Element::OfSort(sort), least, term),
        Want::Whole(_, sort, least) => is_list_of(source, Element::OfSort(sort), least, term),
        Want::Keys => is_list_of(source, Element::Key, 1, term),
        Want::Declared(tag) => is_declared(source.kinds, tag, term),
        Want::Mark => true,
        Want::True => is_true(term),
    }
}

/// Whether the term is a list of at least so many of these elements.
fn is_list_of<'a>(source: &Source<'a>, element: Element, least: usize, term: &'a Term) -> bool
    requires source { IsSource source.now }
    ensures { IsTrue result ↔ IsListOf source.now.graph.now
        (is_element source.now.graph.now source.now.kinds.now element) least term.now }
{
    let mut rest = term;
    // A list has no more elements than the graph has triples.
    for count in 0..source.graph.len() + 1 {
        if least <= count {
            if let Some(known) = known_list(source, element, rest) {
                return known;
            }
        }
        let (first, behind) = match cell_of(source, rest) {
            Some(cell) => cell,
            None => return least <= count && is_nil(rest),
        };
        if !is_element(source.roles, source.kinds, element, first) {
            return false;
        }
        rest = behind;
    }
    false
}

/// Whether the term is a list of these elements, where it is known.
fn known_list(source: &Source, element: Element, term: &Term) -> Option<bool>
    requires source { IsSource source.now }
    ensures { IfSome result (λ known. IsTrue known ↔ IsListOf source.now.graph.now
        (is_element source.now.graph.now source.now.kinds.now element) 0 term.now) }
{
    known_of(source, term)?.told(element)
}

/// Of which elements the term is a list, where it is known.
pub fn known_of(source: &Source, term: &Term) -> Option<Listed>
    requires source { IsSource source.now }
    ensures { IfSome result (IsListed source.now.graph.now source.now.kinds.now term.now) }
{
    match term {
        Term::Blank(label) => known_at(source, label),
        Term::Iri(_) | Term::Literal(_) => match is_nil(term) {
            true => Some(Listed::of_nil()),
            false => None,
        },
    }
}

/// Of which elements the node is a list, where it is known.
fn known_at(source: &Source, node: &Label) -> Option<Listed>
    requires source { IsSource source.now }
    ensures { IfSome result (
        IsListed source.now.graph.now source.now.kinds.now (held.Blank node.now)) }
{
    let number = source.roles.number(node)?;
    *source.lists.get(number)?
}

/// The first element and the rest of the list, where the term is a cell.
pub fn cell_of<'a>(source: &Source<'a>, term: &Term) -> Option<(&'a Term, &'a Term)>
    requires source { IsSource source.now }
    ensures some { IfSome result (λ cell. (role_of source.now.graph.now term.now ≡ role.List)
        × (chosen source.now.graph.now term.now word.First ≡ cell.0.now ∷ [])
        × (chosen source.now.graph.now term.now word.Rest ≡ cell.1.now ∷ [])) }
    ensures none { IsNone result → role_of source.now.graph.now term.now ≡ role.List → ⊥ }
{
    match role_of_term(source.roles, term) {
        Role::List => cell(source.graph.about(term)),
        _ => None,
    }
}
