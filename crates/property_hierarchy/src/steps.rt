//! Which object property expressions lead to which, and which are composite
//! (Structural Specification, section 11.1).

ghost use Rattle.std.specs.Prelude.{◌≡◌, ◌<◌, ◌∷◌, ◌++◌, [], List, IfOk, OnOk, false, length, map};
ghost use Rattle.dl_rules.specs.Logical.{operands};
ghost use Rattle.dl_rules.specs.Properties.{Property, inverse, leads, neighbours, steps_of, steps_over, with_inverses};
ghost use Rattle.owl_tree.specs.declared.tag.Tag.TheVariants as tag;
ghost use Rattle.owl_arena.specs.Held.{AreHeld, tree_at, trees_at};
ghost use Rattle.owl_arena.specs.Shared.{AreShared};
ghost use Rattle.property_hierarchy.specs.Numbers.{inverse_number, numbered_pairs};
ghost use Rattle.property_hierarchy.specs.declared.numbers.PropertyNumber.{PropertyNumber};

use crate::numbers::{PropertyNumber, properties_at};
use dl_rules::operands;
use owl_arena::{Arena, ExprId};
use owl_tree::Tag;
use std::alloc::{AllocError, Global};

/// From an object property expression to one that it leads to.
pub type Step = (PropertyNumber, PropertyNumber);

/// What leads to what in one step, by these axioms.
pub fn steps_by(alloc: Global, arena: &Arena, axioms: &[ExprId]) -> Result<Vec<Step>, AllocError>
    requires shared { AreShared arena.now.trees }
    requires axioms { AreHeld arena.now.trees axioms.now }
    ensures { IfOk result (λ steps. steps.items
        ≡ numbered_pairs arena.now.trees (leads (trees_at arena.now.trees axioms.now))) }
{
    let mut steps = Vec::new(alloc);
    'axioms: for id in axioms {
        push_steps(alloc, arena, *id, &mut steps)?;
    }
    Ok(steps)
}

/// Adds what leads to what in one step, by this axiom.
fn push_steps(
    alloc: Global,
    arena: &Arena,
    id: ExprId,
    steps: &mut Vec<Step>,
) -> Result<(), AllocError>
    requires shared { AreShared arena.now.trees }
    requires axiom { id < length arena.now.trees }
    ensures { OnOk result (steps.new.items ≡ steps.old.items
        ++ numbered_pairs arena.now.trees (leads (tree_at arena.now.trees id ∷ []))) }
{
    if !states_steps(arena.tag(id)) {
        return Ok(());
    }
    let more = axiom_steps(alloc, arena, id)?;
    Ok(steps.extend_from_slice(&more)?)
}

/// What leads to what in one step, by this axiom.
fn axiom_steps(alloc: Global, arena: &Arena, id: ExprId) -> Result<Vec<Step>, AllocError>
    requires shared { AreShared arena.now.trees }
    requires axiom { id < length arena.now.trees }
    ensures { IfOk result (λ steps. steps.items
        ≡ numbered_pairs arena.now.trees (steps_of (tree_at arena.now.trees id))) }
{
    let operands = properties_at(alloc, arena, operands(arena, id))?;
    let stated = stated_steps(alloc, arena.tag(id), &operands)?;
    with_inverses(alloc, &stated)
}

/// The steps, and those between the inverses.
fn with_inverses(alloc: Global, stated: &[Step]) -> Result<Vec<Step>, AllocError>
    ensures { IfOk result (λ steps. steps.items ≡ with_inverses inverse_number stated.now) }
{
    let turned = inverse_steps(alloc, stated)?;
    let mut steps = Vec::new(alloc);
    steps.extend_from_slice(stated)?;
    steps.extend_from_slice(&turned)?;
    Ok(steps)
}

/// The steps between the inverses.
fn inverse_steps(alloc: Global, steps: &[Step]) -> Result<Vec<Step>, AllocError>
    ensures { IfOk result (λ turned. turned.items ≡ map (λ (step : PropertyNumber × PropertyNumber).
        (inverse_number step.0, inverse_number step.1)) steps.now) }
{
    steps
        .iter()
        .map(|step| (step.0.inverse(), step.1.inverse()))
        .collect(alloc)
}

/// What an axiom with this tag says of these that leads to what.
#[tactic(auto, unfolding(dl_rules::specs::Properties::steps_over))]
fn stated_steps(alloc: Global, tag: Tag, ps: &[PropertyNumber]) -> Result<Vec<Step>, AllocError>
    ensures { IfOk result (λ steps. steps.items ≡ steps_over inverse_number tag ps.now) }
{
    match tag {
        Tag::SubObjectPropertyOf => sub_steps(alloc, ps),
        Tag::EquivalentObjectProperties => neighbours(alloc, ps),
        Tag::InverseObjectProperties => inverse_neighbours(alloc, ps),
        Tag::SymmetricObjectProperty => symmetric_steps(alloc, ps),
        _ => Ok(Vec::new(alloc)),
    }
}

/// From the sub property to the super property.
fn sub_steps(alloc: Global, ps: &[PropertyNumber]) -> Result<Vec<Step>, AllocError>
    ensures { IfOk result (λ steps. steps.items
        ≡ steps_over inverse_number tag.SubObjectPropertyOf ps.now) }
{
    match ps {
        [p, q] => one_step(alloc, *p, *q),
        _ => Ok(Vec::new(alloc)),
    }
}

/// From the property to the inverse of the other, and back. Where both are the same
/// one, the axiom has it once.
fn inverse_neighbours(alloc: Global, ps: &[PropertyNumber]) -> Result<Vec<Step>, AllocError>
    ensures { IfOk result (λ steps. steps.items
        ≡ steps_over inverse_number tag.InverseObjectProperties ps.now) }
{
    match ps {
        [p] => neighbours(alloc, &[*p, p.inverse()]),
        [p, q] => neighbours(alloc, &[*p, q.inverse()]),
        _ => Ok(Vec::new(alloc)),
    }
}

/// From the property to its inverse.
fn symmetric_steps(alloc: Global, ps: &[PropertyNumber]) -> Result<Vec<Step>, AllocError>
    ensures { IfOk result (λ steps. steps.items
        ≡ steps_over inverse_number tag.SymmetricObjectProperty ps.now) }
{
    match ps {
        [p] => one_step(alloc, *p, p.inverse()),
        _ => Ok(Vec::new(alloc)),
    }
}

/// This step alone.
fn one_step(
    alloc: Global,
    from: PropertyNumber,
    to: PropertyNumber,
) -> Result<Vec<Step>, AllocError>
    ensures { IfOk result (λ steps. steps.items ≡ (from, to) ∷ []) }
{
    let mut steps = Vec::new(alloc);
    steps.push((from, to))?;
    Ok(steps)
}

/// From each of these to the next, and back.
fn neighbours(alloc: Global, ps: &[PropertyNumber]) -> Result<Vec<Step>, AllocError>
    ensures { IfOk result (λ steps. steps.items ≡ neighbours ps.now) }
{
    let mut steps = Vec::new(alloc);
    'places: for place in 1..ps.len() {
        steps.push((ps[place - 1], ps[place]))?;
        steps.push((ps[place], ps[place - 1]))?;
    }
    Ok(steps)
}

/// Whether an axiom with this tag says that some property leads to another.
#[tactic(auto, unfolding(dl_rules::specs::Properties::steps_over))]
fn states_steps(tag: Tag) -> bool
    ensures { result ≡ false → (ps : List Property) → steps_over inverse tag ps ≡ [] }
{
    matches!(
        tag,
        Tag::SubObjectPropertyOf
            | Tag::EquivalentObjectProperties
            | Tag::InverseObjectProperties
            | Tag::SymmetricObjectProperty
    )
}
