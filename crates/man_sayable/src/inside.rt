//! What is to be said against what stands inside of axioms.

ghost use Rattle.std.specs.Prelude.{◌≡◌, ◌<◌, length};
ghost use Rattle.std.specs.Option.{option_map};
ghost use Rattle.owl_arena.specs.Held.{AreHeld, tree_at, trees_at};
ghost use Rattle.owl_tree.specs.Trees.{kids_of};
ghost use Rattle.sayable_parts.specs.Reasons.{why_seen};
ghost use Rattle.man_sayable.specs.Sayable.{facet_iri_objection, facet_objection, inner_objection, is_data_quantifier, kids_objection, own_objection, properties_objection};

use crate::facets::facet_named;
use crate::subjects::against;
use owl_arena::{Arena, ExprId};
use owl_doc::Why;
use owl_tree::{Atom, Tag};

/// What is looked for inside of an axiom.
#[derive(Clone, Copy, Debug, PartialEq, Eq)]
pub enum Look {
    /// A quantifier with more than one property.
    Properties,
    /// A facet without a word or sign.
    Facets,
}

/// What is to be said first against the tree and all that stands inside, from left
/// to right.
#[cycle(inside)]
pub fn inner_objection<'a>(arena: &'a Arena, id: ExprId, look: Look) -> Option<Why<'a>>
    requires { id < length arena.now.trees }
    ensures { option_map why_seen result
        ≡ inner_objection look (tree_at arena.now.trees id) }
{
    if let Some(why) = own_objection(arena, id, look) {
        return Some(why);
    }
    kids_objection(arena, arena.kids(id), look)
}

/// What is to be said first against these trees and all that stands inside.
#[cycle(inside)]
fn kids_objection<'a>(arena: &'a Arena, ids: &[ExprId], look: Look) -> Option<Why<'a>>
    requires { AreHeld arena.now.trees ids.now }
    ensures { option_map why_seen result
        ≡ kids_objection look (kids_of (trees_at arena.now.trees ids.now)) }
{
    'ids: for id in ids {
        if let Some(why) = inner_objection(arena, *id, look) {
            return Some(why);
        }
    }
    None
}

/// What is to be said against the tree itself.
fn own_objection<'a>(arena: &'a Arena, id: ExprId, look: Look) -> Option<Why<'a>>
    requires { id < length arena.now.trees }
    ensures { option_map why_seen result ≡ own_objection look (tree_at arena.now.trees id) }
{
    match look {
        Look::Properties => properties_objection(arena, id),
        Look::Facets => facet_objection(arena, id),
    }
}

/// What is to be said against a quantifier: that it has more than one property.
fn properties_objection<'a>(arena: &Arena, id: ExprId) -> Option<Why<'a>>
    requires { id < length arena.now.trees }
    ensures { option_map why_seen result
        ≡ properties_objection (tree_at arena.now.trees id) }
{
    let many = is_data_quantifier(arena.tag(id)) && arena.kids(id).len() > 2;
    against(many, &Why::ManyProperties)
}

/// Whether trees with the tag quantify over data ranges.
fn is_data_quantifier(tag: Tag) -> bool
    ensures { result ≡ is_data_quantifier tag }
{
    tag == Tag::DataSomeValuesFrom || tag == Tag::DataAllValuesFrom
}

/// What is to be said against a facet: that it has no word or sign.
fn facet_objection<'a>(arena: &'a Arena, id: ExprId) -> Option<Why<'a>>
    requires { id < length arena.now.trees }
    ensures { option_map why_seen result ≡ facet_objection (tree_at arena.now.trees id) }
{
    if arena.tag(id) != Tag::Facet {
        return None;
    }
    match arena.atom(id) {
        Some(atom) => facet_iri_objection(atom),
        None => None,
    }
}

/// What is to be said against the IRI of a facet.
fn facet_iri_objection<'a>(atom: &'a Atom) -> Option<Why<'a>>
    ensures { option_map why_seen result ≡ facet_iri_objection atom.now }
{
    let Atom::Iri(iri) = atom else {
        return None;
    };
    match facet_named(iri) {
        Some(_) => None,
        None => Some(Why::FacetName(iri)),
    }
}
