//! What a row wants of an object, as far as its form tells.

ghost use Rattle.std.specs.Prelude.{◌≡◌, ◌↔◌, IsTrue, List};
ghost use Rattle.rdf_graph.specs.declared.triple.Triple.{Triple};
ghost use Rattle.owl_tree.specs.declared.row.Sort.TheVariants as held;
ghost use Rattle.rdf_meaning.specs.declared.row.Want.TheVariants.{One};
ghost use Rattle.rdf_faults.specs.Formed.{HasForm, IsShort};
ghost use Rattle.rdf_roles.specs.Lengths.{AreLengths, IsKnown, IsLength};
ghost use Rattle.rdf_roles.specs.Tables.{table_of};

use crate::forms::is_cell;
use crate::nodes::{number_of, role_of};
use indexmap::IndexMap;
use owl_tree::Sort;
use rdf_graph::Term;
use rdf_meaning::{Role, Want};
use rdf_rows::{cardinality_of, is_nil, is_true};
use rdf_terms::Label;

/// Whether the term has the form that is wanted.
pub fn has_form(table: &IndexMap<Label, Role>, lengths: &[usize], want: Want, term: &Term) -> bool
    ensures { (g : List Triple) → table.now.entries ≡ table_of g → AreLengths g lengths.now
        → (IsTrue result ↔ HasForm g want term.now) }
{
    match want {
        Want::One(sort) => has_form_of(sort, term),
        Want::Many(_, least) => !is_short(table, lengths, least, term),
        Want::Whole(_, _, least) => !is_short(table, lengths, least, term),
        Want::Keys => !is_short(table, lengths, 1, term),
        Want::True => is_true(term),
        Want::Declared(_) | Want::Mark => true,
    }
}

/// Whether the term has the form of the sort.
fn has_form_of(sort: Sort, term: &Term) -> bool
    ensures { (g : List Triple) → (IsTrue result ↔ HasForm g (One sort) term.now) }
{
    if is_number(sort) {
        return cardinality_of(term).is_some();
    }
    true
}

fn is_number(sort: Sort) -> bool
    ensures { IsTrue result ↔ (sort ≡ held.Number) }
{
    match sort {
        Sort::Number => true,
        _ => false,
    }
}

/// Whether the term is a list of fewer elements.
fn is_short(table: &IndexMap<Label, Role>, lengths: &[usize], least: usize, term: &Term) -> bool
    ensures { (g : List Triple) → table.now.entries ≡ table_of g → AreLengths g lengths.now
        → (IsTrue result ↔ IsShort g least term.now) }
{
    match length_of(table, lengths, term) {
        Some(length) => length < least,
        None => false,
    }
}

/// How many elements the list has that the term is.
pub fn length_of(table: &IndexMap<Label, Role>, lengths: &[usize], term: &Term) -> Option<usize>
    ensures { (g : List Triple) → table.now.entries ≡ table_of g → IsKnown g lengths.now term.now
        → IsLength g term.now result }
{
    if is_nil(term) {
        return Some(0);
    }
    if !is_cell(role_of(table, term)) {
        return None;
    }
    match number_of(table, term) {
        Some(number) => Some(lengths.get(number).copied().unwrap_or(0)),
        None => None,
    }
}
