//! What all sorts ask of trees, tag by tag.

ghost use Rattle.std.specs.Prelude.{◌≡◌, IfOk};
ghost use Rattle.owl_tree.specs.declared.tag.Tag.{Tag};
ghost use Rattle.owl_tree.specs.Tags.{number_of};
ghost use Rattle.profile_sorts.specs.Productions.{form_seen};
ghost use Rattle.profile_sorts.specs.Rows.{AreRows, IsRowOf, row_at, rows_of};
ghost use Rattle.profile_sorts.specs.Sorts.{form_of};

use crate::production::Form;
use crate::sort::Sort;
use owl_tree::Tag;
use std::alloc::{AllocError, Global};

/// One more than the greatest number of a tag.
const TAGS: u8 = 78;

/// For each tag, by its number, the forms that the sorts ask for of trees with it, by
/// their numbers.
pub fn tag_rows(alloc: Global) -> Result<Vec<Vec<Form>>, AllocError>
    ensures { IfOk result (λ rows. AreRows (rows_of rows.items)) }
{
    let mut rows = Vec::new(alloc);
    'tags: for number in 0..TAGS {
        rows.push(numbered_row(alloc, number)?)?;
    }
    Ok(rows)
}

/// The forms for the tag with this number: none, where there is no tag.
fn numbered_row(alloc: Global, number: u8) -> Result<Vec<Form>, AllocError>
    ensures { IfOk result (λ row. (t : Tag) → number_of t ≡ number → IsRowOf t row.items) }
{
    match Tag::numbered(number) {
        Some(tag) => tag_row(alloc, tag),
        None => Ok(Vec::new(alloc)),
    }
}

/// The forms that the sorts ask for of trees with this tag.
fn tag_row(alloc: Global, tag: Tag) -> Result<Vec<Form>, AllocError>
    ensures { IfOk result (λ row. IsRowOf tag row.items) }
{
    let mut row = Vec::new(alloc);
    'sorts: for number in 0..Sort::COUNT {
        row.push(Sort::numbered(number).form_of(tag))?;
    }
    Ok(row)
}

/// The forms for this tag.
pub fn row_at(rows: &[Vec<Form>], tag: Tag) -> &[Form]
    ensures { result.now ≡ row_at (rows_of rows.now) tag }
{
    match rows.get(tag.number() as usize) {
        Some(row) => row,
        None => &[],
    }
}

/// The form that the sort asks for, among those for a tag.
pub fn form_at(row: &[Form], sort: Sort) -> Form
    ensures { (t : Tag) → IsRowOf t row.now → form_seen result ≡ form_of sort t }
{
    row.get(sort.number() as usize)
        .copied()
        .unwrap_or(Form::Refused)
}
