//! One pass over an arena.

ghost use Rattle.std.specs.Prelude.{◌≡◌, ◌<◌, IfOk, length, map};
ghost use Rattle.owl_arena.specs.Held.{tree_at};
ghost use Rattle.owl_tree.specs.declared.tag.Tag.{Tag};
ghost use Rattle.profile_sorts.specs.declared.sort.Sort.{Sort};
ghost use Rattle.profile_sorts.specs.Rows.{AreRows, IsRowOf, rows_of};
ghost use Rattle.profile_sorts.specs.Sets.{AreSorts, AreSortsBelow, HasSorts, has, known_at};
ghost use Rattle.profile_sorts.specs.Sorts.{form_of, kids_fit, leaf_fits};

use crate::production::Form;
use crate::rows::{form_at, row_at, tag_rows};
use crate::set::SortSet;
use crate::sort::Sort;
use owl_arena::{Arena, ExprId};
use owl_characters::NoMemory;
use owl_tree::Atom;
use std::alloc::{AllocError, Global};

/// The sorts of each tree of the arena, by its place (OWL 2 Profiles, sections 2.2, 3.2
/// and 4.2).
pub fn sorts_in(alloc: Global, arena: &Arena) -> Result<Vec<SortSet>, NoMemory>
    ensures { IfOk result (λ sets. AreSorts arena.now.trees sets.items) }
{
    Ok(sets_of(alloc, arena)?)
}

/// The same, in one pass: kids stand before their node.
fn sets_of(alloc: Global, arena: &Arena) -> Result<Vec<SortSet>, AllocError>
    ensures { IfOk result (λ sets. AreSorts arena.now.trees sets.items) }
{
    let rows = tag_rows(alloc)?;
    let count = arena.distinct();
    let mut sets = Vec::with_capacity(alloc, count)?;
    'places: for place in 0..count {
        let set = sorts_at(arena, &rows, arena.at(place), &sets);
        sets.push(set)?;
    }
    Ok(sets)
}

/// The sorts of a tree, where those of the trees before it are known.
fn sorts_at(arena: &Arena, rows: &[Vec<Form>], id: ExprId, sets: &[SortSet]) -> SortSet
    requires rows { AreRows (rows_of rows.now) }
    requires held { id < length arena.now.trees }
    ensures { AreSortsBelow id arena.now.trees sets.now
        → HasSorts (tree_at arena.now.trees id) result }
{
    let row = row_at(rows, arena.tag(id));
    match arena.atom(id) {
        Some(atom) => leaf_sorts(row, atom),
        None => node_sorts(row, arena.kids(id), sets),
    }
}

/// The sorts of a leaf, by the forms for its tag.
fn leaf_sorts(row: &[Form], atom: &Atom) -> SortSet
    ensures { (t : Tag) → IsRowOf t row.now
        → (s : Sort) → has result s ≡ leaf_fits (form_of s t) atom.now }
{
    let mut set = SortSet::none();
    'sorts: for number in 0..Sort::COUNT {
        let sort = Sort::numbered(number);
        let fits = form_at(row, sort).takes(atom);
        set = set.with_if(sort, fits);
    }
    set
}

/// The sorts of a node with these kids, by the forms for its tag, where the sets of
/// trees are known.
fn node_sorts(row: &[Form], kids: &[ExprId], sets: &[SortSet]) -> SortSet
    ensures { (t : Tag) → IsRowOf t row.now → (s : Sort)
        → has result s ≡ kids_fit (form_of s t) (map (known_at sets.now) kids.now) }
{
    let mut set = SortSet::none();
    'sorts: for number in 0..Sort::COUNT {
        let sort = Sort::numbered(number);
        let fits = form_at(row, sort).fits(kids, sets);
        set = set.with_if(sort, fits);
    }
    set
}
