//! What is known of each arena: the kids of its trees, and the properties that the
//! vocabulary has (Structural Specification, section 5.3).

ghost use Rattle.std.specs.Prelude.{◌≡◌, ◌↔◌, ◌<◌, IsTrue, length};
ghost use Rattle.std.specs.Str.{chars};
ghost use Rattle.dl_rules.specs.Places.{place_of};
ghost use Rattle.dl_rules.specs.Properties.{bottom_property, named, top_property};
ghost use Rattle.owl_arena.specs.Held.{tree_at};
ghost use Rattle.owl_arena.specs.Shared.{AreShared};
ghost use Rattle.owl_tree.specs.declared.atom.Atom.TheVariants as atom;
ghost use Rattle.owl_tree.specs.declared.tag.Tag.TheVariants as tag;
ghost use Rattle.owl_tree.specs.Trees.{leaf};
ghost use Rattle.property_hierarchy.specs.Listed.{HoldsKids};
ghost use Rattle.property_hierarchy.specs.Numbers.{number_of};

use crate::numbers::PropertyNumber;
use owl_arena::{Arena, ExprId};
use owl_tree::{Atom, Tag};
use rdf_terms::owl;

/// The arena has the kids of its trees, as a look at those of each tree tells.
pub fn open_kids(arena: &Arena)
    ensures shared { AreShared arena.now.trees }
    ensures kids { HoldsKids arena.now.trees }
{
    'places: for place in 0..arena.distinct() {
        arena.kids(arena.at(place));
    }
}

/// The number of the top property.
pub fn top_number(arena: &Arena) -> PropertyNumber
    ensures { result ≡ number_of arena.now.trees top_property }
{
    number_by(arena, owl!("topObjectProperty"))
}

/// The number of the bottom property.
pub fn bottom_number(arena: &Arena) -> PropertyNumber
    ensures { result ≡ number_of arena.now.trees bottom_property }
{
    number_by(arena, owl!("bottomObjectProperty"))
}

/// The number of the object property with this IRI.
fn number_by(arena: &Arena, iri: &str) -> PropertyNumber
    ensures { result ≡ number_of arena.now.trees (named (chars iri.now)) }
{
    PropertyNumber::named(place_by(arena, iri))
}

/// The place of the object property with this IRI; that behind the last tree, if it
/// is none of them.
fn place_by(arena: &Arena, iri: &str) -> u32
    ensures { result ≡ place_of arena.now.trees
        (leaf tag.ObjectProperty (atom.Iri (chars iri.now))) }
{
    let count = arena.distinct();
    'places: for place in 0..count {
        if names(arena, arena.at(place), iri) {
            return place as u32;
        }
    }
    count as u32
}

/// Whether the tree is the object property with this IRI.
fn names(arena: &Arena, id: ExprId, iri: &str) -> bool
    requires { id < length arena.now.trees }
    ensures { IsTrue result ↔ (tree_at arena.now.trees id
        ≡ leaf tag.ObjectProperty (atom.Iri (chars iri.now))) }
{
    if arena.tag(id) != Tag::ObjectProperty {
        return false;
    }
    match arena.atom(id) {
        Some(Atom::Iri(own)) => own.is(iri),
        _ => false,
    }
}
