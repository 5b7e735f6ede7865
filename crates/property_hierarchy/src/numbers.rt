//! Numbers of object property expressions.

ghost use Rattle.std.specs.Prelude.{◌≡◌, ◌<◌, ◌++◌, ◌∷◌, [], IfOk, OnOk, false, length};
ghost use Rattle.std.specs.Option.{option_map};
ghost use Rattle.dl_rules.specs.Properties.{property_in};
ghost use Rattle.owl_arena.specs.Held.{AreHeld, tree_at, trees_at};
ghost use Rattle.owl_arena.specs.Shared.{AreShared};
ghost use Rattle.property_hierarchy.specs.Numbers.{inverse_number, named_number, node_of, number_of, numbers_in};

use owl_arena::{Arena, ExprId};
use owl_tree::Tag;
use std::alloc::{AllocError, Global};

/// An object property expression of an arena.
#[derive(Clone, Copy, Debug, PartialEq, Eq)]
pub struct PropertyNumber {
    /// Where the property stands in the arena.
    place: u32,
    /// Whether this is its inverse.
    inverted: bool,
}

impl PropertyNumber {
    /// The property in this place.
    pub fn named(place: u32) -> PropertyNumber
        ensures place { result.place ≡ place }
        ensures inverted { result.inverted ≡ false }
    {
        PropertyNumber {
            place,
            inverted: false,
        }
    }

    /// The inverse.
    pub fn inverse(self) -> PropertyNumber
        ensures { result ≡ inverse_number self }
    {
        PropertyNumber {
            place: self.place,
            inverted: !self.inverted,
        }
    }

    /// The number as a node of a graph.
    pub fn node(self) -> usize
        ensures { result ≡ node_of self }
    {
        if self.inverted {
            2 * self.place as usize + 1
        } else {
            2 * self.place as usize
        }
    }
}

/// The numbers of those of these trees that are object property expressions.
pub fn properties_at(
    alloc: Global,
    arena: &Arena,
    ids: &[ExprId],
) -> Result<Vec<PropertyNumber>, AllocError>
    requires shared { AreShared arena.now.trees }
    requires ids { AreHeld arena.now.trees ids.now }
    ensures { IfOk result (λ numbers. numbers.items
        ≡ numbers_in arena.now.trees (trees_at arena.now.trees ids.now)) }
{
    let mut numbers = Vec::new(alloc);
    'ids: for id in ids {
        push_property(arena, *id, &mut numbers)?;
    }
    Ok(numbers)
}

/// Adds the number of the tree, if it is an object property expression.
fn push_property(
    arena: &Arena,
    id: ExprId,
    numbers: &mut Vec<PropertyNumber>,
) -> Result<(), AllocError>
    requires shared { AreShared arena.now.trees }
    requires id { id < length arena.now.trees }
    ensures { OnOk result (numbers.new.items ≡ numbers.old.items
        ++ numbers_in arena.now.trees (tree_at arena.now.trees id ∷ [])) }
{
    match property_at(arena, id) {
        Some(number) => Ok(numbers.push(number)?),
        None => Ok(()),
    }
}

/// The number of the object property expression that the tree is.
pub fn property_at(arena: &Arena, id: ExprId) -> Option<PropertyNumber>
    requires shared { AreShared arena.now.trees }
    requires id { id < length arena.now.trees }
    ensures { result
        ≡ option_map (number_of arena.now.trees) (property_in (tree_at arena.now.trees id)) }
{
    if arena.tag(id) != Tag::ObjectInverseOf {
        return named_at(arena, id);
    }
    match arena.kids(id) {
        [kid] => inverse_at(arena, *kid),
        _ => None,
    }
}

/// The number of the inverse of the object property that the leaf names.
fn inverse_at(arena: &Arena, id: ExprId) -> Option<PropertyNumber>
    requires shared { AreShared arena.now.trees }
    requires id { id < length arena.now.trees }
    ensures { result
        ≡ option_map inverse_number (named_number arena.now.trees (tree_at arena.now.trees id)) }
{
    Some(named_at(arena, id)?.inverse())
}

/// The number of the object property that the leaf names.
fn named_at(arena: &Arena, id: ExprId) -> Option<PropertyNumber>
    requires shared { AreShared arena.now.trees }
    requires id { id < length arena.now.trees }
    ensures { result ≡ named_number arena.now.trees (tree_at arena.now.trees id) }
{
    if arena.tag(id) == Tag::ObjectProperty {
        Some(PropertyNumber::named(id.place() as u32))
    } else {
        None
    }
}
