//! The first and second step.

ghost use Rattle.std.specs.Prelude.{◌≡◌, ◌<◌, ◌∷◌, [], ◌++◌, IfErr, IfOk, IfSome, OnOk, flat_map, length, map};
ghost use Rattle.std.specs.Option.{option_map};
ghost use Rattle.owl_arena.specs.Held.{AreHeld, tree_at, trees_at};
ghost use Rattle.owl_tree.specs.Canonical.{canonical};
ghost use Rattle.owl_tree.specs.Trees.{tag_of};
ghost use Rattle.rdf_normal.specs.Makings.{AreMade, IsMade, numbers_of};
ghost use Rattle.rdf_normal.specs.NormalForms.{are_equals, inverted, is_paired, pairs_in, spread, turned, turned_from};
ghost use Rattle.rdf_normal.specs.declared.fault.NormFault.{NormFault};

use crate::fault::NormFault;
use crate::making::{make, push};
use owl_arena::{Arena, ExprId};
use owl_tree::Tag;
use std::alloc::Global;

/// The kids of an assertion of an object property.
#[derive(Clone, Copy)]
pub struct Assertion {
    pub notes: ExprId,
    pub property: ExprId,
    pub from: ExprId,
    pub to: ExprId,
}

/// What the axioms become, in canonical form.
pub fn spread_all(
    alloc: Global,
    arena: &mut Arena,
    ids: &[ExprId],
) -> Result<Vec<ExprId>, NormFault>
    requires { AreHeld arena.old.trees ids.now }
    ensures made { IfOk result (λ made. AreMade arena.old.trees arena.new.trees made.items
        (map canonical (flat_map spread (trees_at arena.old.trees ids.now)))) }
    ensures memory { IfErr result (λ fault. fault ≡ NormFault.Memory) }
{
    let mut made = Vec::with_capacity(alloc, ids.len())?;
    'ids: for id in ids {
        spread(alloc, arena, *id, &mut made)?;
    }
    Ok(made)
}

/// Adds what the axiom becomes.
fn spread(
    alloc: Global,
    arena: &mut Arena,
    id: ExprId,
    made: &mut Vec<ExprId>,
) -> Result<(), NormFault>
    requires id { id < length arena.old.trees }
    requires held { AreHeld arena.old.trees made.old.items }
    ensures made { OnOk result (AreMade arena.old.trees arena.new.trees made.new.items
        (trees_at arena.old.trees made.old.items
        ++ map canonical (spread (tree_at arena.old.trees id)))) }
    ensures memory { IfErr result (λ fault. fault ≡ NormFault.Memory) }
{
    if is_paired(arena, id) {
        let kids = Vec::from_slice(alloc, arena.kids(id))?;
        return add_pairs(alloc, arena, arena.tag(id), &kids, made);
    }
    let turned = turned(alloc, arena, id)?;
    push(made, turned)
}

/// Whether the axiom says of three or more that they are equivalent, or the same.
pub fn is_paired(arena: &Arena, id: ExprId) -> bool
    requires { id < length arena.now.trees }
    ensures { result ≡ is_paired (tree_at arena.now.trees id) }
{
    are_equals(arena.tag(id)) && 3 < arena.kids(id).len()
}

/// Whether the members of such an axiom are all equivalent, or the same.
fn are_equals(tag: Tag) -> bool
    ensures { result ≡ are_equals tag }
{
    tag == Tag::EquivalentClasses
        || tag == Tag::EquivalentObjectProperties
        || tag == Tag::EquivalentDataProperties
        || tag == Tag::SameIndividual
}

/// Adds the pairs of neighbours among the members, each with the annotations in
/// front of them.
fn add_pairs(
    alloc: Global,
    arena: &mut Arena,
    tag: Tag,
    kids: &[ExprId],
    made: &mut Vec<ExprId>,
) -> Result<(), NormFault>
    requires kids { AreHeld arena.old.trees kids.now }
    requires many { 1 < length kids.now }
    requires held { AreHeld arena.old.trees made.old.items }
    ensures made { OnOk result (AreMade arena.old.trees arena.new.trees made.new.items
        (trees_at arena.old.trees made.old.items
        ++ map canonical (pairs_in tag (trees_at arena.old.trees kids.now)))) }
    ensures memory { IfErr result (λ fault. fault ≡ NormFault.Memory) }
{
    let notes = kids[0];
    'members: for place in 2..kids.len() {
        let pair = Vec::from_slice(alloc, &[notes, kids[place - 1], kids[place]])?;
        let id = make(arena, tag, pair)?;
        push(made, id)?;
    }
    Ok(())
}

/// The number of the assertion the other way round, where it is one of an inverse
/// property, and else of the axiom itself.
fn turned(alloc: Global, arena: &mut Arena, id: ExprId) -> Result<ExprId, NormFault>
    requires id { id < length arena.old.trees }
    ensures made { IfOk result (λ made. IsMade arena.old.trees arena.new.trees made
        (canonical (turned (tree_at arena.old.trees id)))) }
    ensures memory { IfErr result (λ fault. fault ≡ NormFault.Memory) }
{
    // What every arena holds is canonical.
    let _trees = arena.distinct();
    match turned_from(arena, id) {
        Some(kids) => {
            let kids = Vec::from_slice(alloc, &[kids.notes, kids.property, kids.from, kids.to])?;
            make(arena, Tag::ObjectPropertyAssertion, kids)
        }
        None => Ok(id),
    }
}

/// The kids of the assertion the other way round, where it is one of an inverse
/// property.
pub fn turned_from(arena: &Arena, id: ExprId) -> Option<Assertion>
    requires { id < length arena.now.trees }
    ensures kids { option_map (λ a. trees_at arena.now.trees (numbers_of a)) result
        ≡ turned_from (tree_at arena.now.trees id) }
    ensures held { IfSome result (λ a. AreHeld arena.now.trees (numbers_of a)) }
{
    if arena.tag(id) != Tag::ObjectPropertyAssertion {
        return None;
    }
    match arena.kids(id) {
        [notes, property, from, to] => Some(Assertion {
            notes: *notes,
            property: inverted(arena, *property)?,
            from: *to,
            to: *from,
        }),
        _ => None,
    }
}

/// The property of which it is the inverse, where it is one.
fn inverted(arena: &Arena, id: ExprId) -> Option<ExprId>
    requires { id < length arena.now.trees }
    ensures property { option_map (tree_at arena.now.trees) result
        ≡ inverted (tree_at arena.now.trees id) }
    ensures held { IfSome result (λ property. property < length arena.now.trees) }
{
    if arena.tag(id) != Tag::ObjectInverseOf {
        return None;
    }
    match arena.kids(id) {
        [property] => Some(*property),
        _ => None,
    }
}
