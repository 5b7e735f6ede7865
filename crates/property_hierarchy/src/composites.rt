//! Composite object property expressions (Structural Specification, section
//! 11.1).

ghost use Rattle.std.specs.Prelude.{◌≡◌, ◌<◌, ◌++◌, ◌∷◌, IfOk, OnOk, [], length, map};
ghost use Rattle.std.specs.List.{flat_map};
ghost use Rattle.dl_rules.specs.Properties.{bottom_property, chain_of, composites, composites_of, implied_by, top_property, with_inverse};
ghost use Rattle.owl_arena.specs.Held.{AreHeld, tree_at, trees_at};
ghost use Rattle.owl_arena.specs.Shared.{AreShared};
ghost use Rattle.property_hierarchy.specs.Numbers.{both_of, inverse_number, number_of, transitive_by};

use crate::chains::chain_at;
use crate::numbers::{PropertyNumber, properties_at};
use dl_rules::operands;
use owl_arena::{Arena, ExprId};
use owl_tree::Tag;
use std::alloc::{AllocError, Global};

/// The composite properties, by these axioms.
pub fn composites_by(
    alloc: Global,
    arena: &Arena,
    axioms: &[ExprId],
    top: PropertyNumber,
    bottom: PropertyNumber,
) -> Result<Vec<PropertyNumber>, AllocError>
    requires shared { AreShared arena.now.trees }
    requires axioms { AreHeld arena.now.trees axioms.now }
    requires top { top ≡ number_of arena.now.trees top_property }
    requires bottom { bottom ≡ number_of arena.now.trees bottom_property }
    ensures { IfOk result (λ numbers. numbers.items
        ≡ map (number_of arena.now.trees) (composites (trees_at arena.now.trees axioms.now))) }
{
    let mut numbers = Vec::new(alloc);
    numbers.push(top)?;
    numbers.push(bottom)?;
    'axioms: for id in axioms {
        push_composites(alloc, arena, *id, &mut numbers)?;
    }
    Ok(numbers)
}

/// Adds what the axiom makes composite.
fn push_composites(
    alloc: Global,
    arena: &Arena,
    id: ExprId,
    numbers: &mut Vec<PropertyNumber>,
) -> Result<(), AllocError>
    requires shared { AreShared arena.now.trees }
    requires axiom { id < length arena.now.trees }
    ensures { OnOk result (numbers.new.items ≡ numbers.old.items ++ map (number_of arena.now.trees)
        (flat_map composites_of (tree_at arena.now.trees id ∷ []))) }
{
    push_implied(alloc, arena, id, numbers)?;
    push_transitive(alloc, arena, id, numbers)
}

/// Adds the property that the axiom implies, if it is a chain.
fn push_implied(
    alloc: Global,
    arena: &Arena,
    id: ExprId,
    numbers: &mut Vec<PropertyNumber>,
) -> Result<(), AllocError>
    requires shared { AreShared arena.now.trees }
    requires axiom { id < length arena.now.trees }
    ensures { OnOk result (numbers.new.items ≡ numbers.old.items ++ both_of arena.now.trees
        (implied_by (chain_of (tree_at arena.now.trees id)))) }
{
    match chain_at(alloc, arena, id)? {
        Some(chain) => push_both(&[chain.implied()], numbers),
        None => Ok(()),
    }
}

/// Adds the properties that are transitive by the axiom.
fn push_transitive(
    alloc: Global,
    arena: &Arena,
    id: ExprId,
    numbers: &mut Vec<PropertyNumber>,
) -> Result<(), AllocError>
    requires shared { AreShared arena.now.trees }
    requires axiom { id < length arena.now.trees }
    ensures { OnOk result (numbers.new.items ≡ numbers.old.items ++ both_of arena.now.trees
        (transitive_by (tree_at arena.now.trees id))) }
{
    if arena.tag(id) != Tag::TransitiveObjectProperty {
        return Ok(());
    }
    let more = properties_at(alloc, arena, operands(arena, id))?;
    push_both(&more, numbers)
}

/// Adds each of these and its inverse.
fn push_both(more: &[PropertyNumber], numbers: &mut Vec<PropertyNumber>) -> Result<(), AllocError>
    ensures { OnOk result (numbers.new.items
        ≡ numbers.old.items ++ flat_map (with_inverse inverse_number) more.now) }
{
    'more: for number in more {
        numbers.push(*number)?;
        numbers.push(number.inverse())?;
    }
    Ok(())
}
