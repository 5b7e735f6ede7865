//! Which row a tree is drawn by.

ghost use Rattle.std.specs.Prelude.{◌≡◌, ◌≤◌, length, map, option_map};
ghost use Rattle.std.specs.List.{list_all};
ghost use Rattle.owl_arena.specs.Held.{AreHeld};
ghost use Rattle.owl_tree.specs.Rows.{admits};
ghost use Rattle.rdf_meaning.specs.Rows.{row_seen};
ghost use Rattle.rdf_mapping.specs.Drawing.{fit, row_for, singles, suits, takes_one};
ghost use Rattle.rdf_mapping.specs.Arenas.{tags_at};

use owl_arena::{Arena, ExprId};
use owl_tree::{Sort, Tag};
use rdf_meaning::{Part, Row, Want};

/// Whether a part takes one kid.
fn takes_one(want: Want) -> bool
    ensures { result ≡ takes_one want }
{
    match want {
        Want::One(_) | Want::Whole(_, _, _) | Want::Declared(_) => true,
        Want::Many(_, _) | Want::Keys | Want::Mark | Want::True => false,
    }
}

/// How many of the parts take one kid each.
pub fn singles(parts: &[Part]) -> usize
    ensures count { result ≡ singles parts.now }
    ensures within { result ≤ length parts.now }
{
    match parts {
        [part, behind @ ..] => {
            let count = singles(behind);
            if takes_one(part.want) {
                count + 1
            } else {
                count
            }
        }
        [] => 0,
    }
}

/// Whether the kid is for the part alone.
fn suits(want: Want, tag: Tag) -> bool
    ensures { result ≡ suits want tag }
{
    match want {
        Want::One(sort) => sort.admits(tag),
        Want::Whole(whole, _, _) => tag == whole,
        Want::Declared(entity) => tag == entity,
        Want::Many(_, _) | Want::Keys | Want::Mark | Want::True => false,
    }
}

/// Whether kids stand at the parts, in order.
#[tactic(auto, unfolding(crate::specs::Drawing::fit))]
fn fit(arena: &Arena, parts: &[Part], kids: &[ExprId]) -> bool
    requires { AreHeld arena.now.trees kids.now }
    ensures { result ≡ fit parts.now (tags_at arena.now.trees kids.now) }
{
    match parts {
        [] => kids.is_empty(),
        [part, behind @ ..] => match part.want {
            Want::Mark | Want::True => fit(arena, behind, kids),
            Want::Many(sort, least) => {
                let count = kids.len().saturating_sub(singles(behind));
                let (members, others) = kids.split_at(count);
                least.min(1) <= count
                    && all_admitted(arena, sort, members)
                    && fit(arena, behind, others)
            }
            Want::Keys => match kids {
                [objects, data, others @ ..] => {
                    arena.tag(*objects) == Tag::ObjectKeys
                        && arena.tag(*data) == Tag::DataKeys
                        && fit(arena, behind, others)
                }
                [_] | [] => false,
            },
            want => match kids {
                [kid, others @ ..] => suits(want, arena.tag(*kid)) && fit(arena, behind, others),
                [] => false,
            },
        },
    }
}

/// Whether the trees are all of the sort.
fn all_admitted(arena: &Arena, sort: Sort, ids: &[ExprId]) -> bool
    requires { AreHeld arena.now.trees ids.now }
    ensures { result ≡ list_all (admits sort) (tags_at arena.now.trees ids.now) }
{
    match ids {
        [] => true,
        [id, others @ ..] => sort.admits(arena.tag(*id)) && all_admitted(arena, sort, others),
    }
}

/// The first row of the tag that the kids fit.
#[tactic(auto, unfolding(crate::specs::Drawing::row_for))]
pub fn row_for(rows: &'static [Row], tag: Tag, arena: &Arena, kids: &[ExprId]) -> Option<Row>
    requires { AreHeld arena.now.trees kids.now }
    ensures { option_map row_seen result
        ≡ row_for (map row_seen rows.now) tag (tags_at arena.now.trees kids.now) }
{
    match rows {
        [row, others @ ..] => {
            if row.tag == tag && fit(arena, row.parts, kids) {
                return Some(*row);
            }
            row_for(others, tag, arena, kids)
        }
        [] => None,
    }
}
