//! Rows of which the triples of a node are.

ghost use Rattle.std.specs.Prelude.{◌≡◌, ◌↔◌, IsTrue, List, map};
ghost use Rattle.std.specs.List.{AllByRecursion};
ghost use Rattle.rdf_graph.specs.declared.term.Term.{Term};
ghost use Rattle.rdf_graph.specs.declared.triple.Triple.{Triple};
ghost use Rattle.rdf_meaning.specs.declared.role.Role.{Role};
ghost use Rattle.rdf_meaning.specs.Rows.{row_seen};
ghost use Rattle.rdf_faults.specs.Formed.{HasForm, HasFormAt, HasFormedRow};
ghost use Rattle.rdf_rows.specs.Fits.{CountsWords};
ghost use Rattle.rdf_rows.specs.Chosen.{objects_with};
ghost use Rattle.rdf_roles.specs.Lengths.{AreLengths, IsFormedBy, IsSeen};
ghost use Rattle.rdf_roles.specs.Tables.{table_of};

use crate::wants::has_form;
use indexmap::IndexMap;
use rdf_graph::Triple;
use rdf_meaning::{Part, Place, Role, Row, Want, Word};
use rdf_rows::{NodeWords, next_object};
use rdf_terms::Label;

/// Whether the triples of a node of the role are those of one of these rows, and
/// have the form that it asks for.
pub fn has_formed_row(
    table: &IndexMap<Label, Role>,
    lengths: &[usize],
    rows: &[Row],
    role: Role,
    triples: &[Triple],
) -> bool
    ensures { (g : List Triple) (x : Term)
        → IsSeen g x table.now.entries lengths.now role triples.now
        → (IsTrue result ↔ HasFormedRow g (map row_seen rows.now) x) }
{
    let words = NodeWords::of(triples);
    let mut rest = rows;
    while let Some((row, behind)) = rest.split_first() {
        if is_row(table, lengths, &words, row, role, triples) {
            return true;
        }
        rest = behind;
    }
    false
}

/// Whether the triples of a node of the role, with these words, are those of the
/// row, and have the form that it asks for.
fn is_row(
    table: &IndexMap<Label, Role>,
    lengths: &[usize],
    words: &NodeWords,
    row: &Row,
    role: Role,
    triples: &[Triple],
) -> bool
    ensures { (g : List Triple) (x : Term)
        → IsSeen g x table.now.entries lengths.now role triples.now
        → CountsWords words.now triples.now → (IsTrue result ↔ IsFormedBy g x (row_seen row.now)) }
{
    words.fit(role, row) && are_formed(table, lengths, row.parts, triples)
}

/// Whether the objects at all parts have the form that is wanted.
fn are_formed(
    table: &IndexMap<Label, Role>,
    lengths: &[usize],
    parts: &[Part],
    triples: &[Triple],
) -> bool
    ensures { (g : List Triple) (x : Term) (r : Role)
        → IsSeen g x table.now.entries lengths.now r triples.now
        → (IsTrue result ↔ AllByRecursion (HasFormAt g x) parts.now) }
{
    let mut rest = parts;
    while let Some((part, behind)) = rest.split_first() {
        if !has_form_at(table, lengths, part, triples) {
            return false;
        }
        rest = behind;
    }
    true
}

/// Whether the objects at the part have the form that is wanted.
fn has_form_at(
    table: &IndexMap<Label, Role>,
    lengths: &[usize],
    part: &Part,
    triples: &[Triple],
) -> bool
    ensures { (g : List Triple) (x : Term) (r : Role)
        → IsSeen g x table.now.entries lengths.now r triples.now
        → (IsTrue result ↔ HasFormAt g x part.now) }
{
    match part.place {
        Place::At(word) => all_have_form(table, lengths, part.want, word, triples),
        Place::Subject | Place::Predicate | Place::Object => true,
    }
}

/// Whether all objects of the triples with the word have the form.
fn all_have_form(
    table: &IndexMap<Label, Role>,
    lengths: &[usize],
    want: Want,
    word: Word,
    triples: &[Triple],
) -> bool
    ensures { (g : List Triple) → table.now.entries ≡ table_of g → AreLengths g lengths.now
        → (IsTrue result ↔ AllByRecursion (HasForm g want) (objects_with word triples.now)) }
{
    let mut rest = triples;
    while let Some((object, behind)) = next_object(rest, word) {
        if !has_form(table, lengths, want, object) {
            return false;
        }
        rest = behind;
    }
    true
}
