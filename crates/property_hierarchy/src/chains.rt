//! Chains of object property expressions, and what they put below what
//! (Structural Specification, section 11.2).

ghost use Rattle.std.specs.Prelude.{◌≡◌, ◌<◌, IfOk, [], ◌∷◌, length};
ghost use Rattle.std.specs.Option.{option_map};
ghost use Rattle.dl_rules.specs.Hierarchy.{behind, below_over, in_front_of, is_twice, needed};
ghost use Rattle.dl_rules.specs.Properties.{chain_of, chain_over, top_property};
ghost use Rattle.owl_tree.specs.declared.tag.Tag.TheVariants as tag;
ghost use Rattle.owl_arena.specs.Held.{AreHeld, tree_at, trees_at};
ghost use Rattle.owl_arena.specs.Shared.{AreShared};
ghost use Rattle.property_hierarchy.specs.Listed.{HoldsKids};
ghost use Rattle.property_hierarchy.specs.Numbers.{IsBelowBy, below_at, chain_seen, inverse_number, number_eq, number_of, numbered_pairs, numbered_chain};

use crate::numbers::{PropertyNumber, properties_at, property_at};
use crate::steps::Step;
use dl_rules::operands;
use owl_arena::{Arena, ExprId};
use owl_tree::Tag;
use std::alloc::{AllocError, Global};

/// Properties one behind the other, and the property that they imply.
#[derive(Debug, Drop)]
pub struct ChainNumbers {
    parts: Vec<PropertyNumber>,
    implied: PropertyNumber,
}

impl ChainNumbers {
    /// The property that it implies.
    pub fn implied(&self) -> PropertyNumber
        ensures { result ≡ self.now.implied }
    {
        self.implied
    }
}

/// The chain of the axiom, where it is one.
pub fn chain_at(
    alloc: Global,
    arena: &Arena,
    id: ExprId,
) -> Result<Option<ChainNumbers>, AllocError>
    requires shared { AreShared arena.now.trees }
    requires axiom { id < length arena.now.trees }
    ensures { IfOk result (λ chain. option_map chain_seen chain
        ≡ option_map (numbered_chain arena.now.trees) (chain_of (tree_at arena.now.trees id))) }
{
    if arena.tag(id) != Tag::SubObjectPropertyOf {
        return Ok(None);
    }
    match operands(arena, id) {
        [chain, implied] => chain_into(alloc, arena, *chain, *implied),
        _ => Ok(None),
    }
}

/// The chain, where the one tree is a chain and the other a property.
fn chain_into(
    alloc: Global,
    arena: &Arena,
    chain: ExprId,
    implied: ExprId,
) -> Result<Option<ChainNumbers>, AllocError>
    requires shared { AreShared arena.now.trees }
    requires chain { chain < length arena.now.trees }
    requires implied { implied < length arena.now.trees }
    ensures { IfOk result (λ made. option_map chain_seen made
        ≡ option_map (numbered_chain arena.now.trees) (chain_over tag.SubObjectPropertyOf
        (tree_at arena.now.trees chain ∷ tree_at arena.now.trees implied ∷ []))) }
{
    if arena.tag(chain) != Tag::ObjectPropertyChain {
        return Ok(None);
    }
    match property_at(arena, implied) {
        Some(implied) => Ok(Some(ChainNumbers {
            parts: properties_at(alloc, arena, arena.kids(chain))?,
            implied,
        })),
        None => Ok(None),
    }
}

/// The properties of the chain that have to stand below the one that it implies.
fn needed(top: PropertyNumber, chain: &ChainNumbers) -> &[PropertyNumber]
    ensures { result.now ≡ needed number_eq top (chain_seen chain.now) }
{
    if chain.implied == top || is_twice(chain.implied, &chain.parts) {
        return &[];
    }
    match behind(chain.implied, &chain.parts) {
        Some(rest) => rest,
        None => in_front_of(chain.implied, &chain.parts).unwrap_or(&chain.parts),
    }
}

/// Whether these are twice this property.
fn is_twice(implied: PropertyNumber, parts: &[PropertyNumber]) -> bool
    ensures { result ≡ is_twice number_eq implied parts.now }
{
    match parts {
        [first, second] => *first == implied && *second == implied,
        _ => false,
    }
}

/// All but the first, where that is this property.
fn behind(implied: PropertyNumber, parts: &[PropertyNumber]) -> Option<&[PropertyNumber]>
    ensures { option_map (λ rest. rest.now) result ≡ behind number_eq implied parts.now }
{
    match parts {
        [first, rest @ ..] if *first == implied => Some(rest),
        _ => None,
    }
}

/// All but the last, where that is this property.
fn in_front_of(implied: PropertyNumber, parts: &[PropertyNumber]) -> Option<&[PropertyNumber]>
    ensures { option_map (λ front. front.now) result ≡ in_front_of number_eq implied parts.now }
{
    match parts {
        [front @ .., last] if *last == implied => Some(front),
        _ => None,
    }
}

/// What chains put below what, and how many pairs of these are of each axiom.
#[derive(Debug, Drop)]
pub struct Below {
    pub pairs: Vec<Step>,
    pub counts: Vec<usize>,
}

/// What the chains among these axioms put below what.
pub fn below_by(
    alloc: Global,
    arena: &Arena,
    axioms: &[ExprId],
    top: PropertyNumber,
) -> Result<Below, AllocError>
    requires shared { AreShared arena.now.trees }
    requires kids { HoldsKids arena.now.trees }
    requires axioms { AreHeld arena.now.trees axioms.now }
    requires top { top ≡ number_of arena.now.trees top_property }
    ensures { IfOk result (IsBelowBy arena.now.trees (trees_at arena.now.trees axioms.now)) }
{
    let mut pairs = Vec::new(alloc);
    let mut counts = Vec::new(alloc);
    'axioms: for id in axioms {
        let more = axiom_below(alloc, arena, *id, top)?;
        pairs.extend_from_slice(&more)?;
        counts.push(more.len())?;
    }
    Ok(Below { pairs, counts })
}

/// What the axiom puts below what: nothing, where it is no chain.
fn axiom_below(
    alloc: Global,
    arena: &Arena,
    id: ExprId,
    top: PropertyNumber,
) -> Result<Vec<Step>, AllocError>
    requires shared { AreShared arena.now.trees }
    requires kids { HoldsKids arena.now.trees }
    requires axiom { id < length arena.now.trees }
    requires top { top ≡ number_of arena.now.trees top_property }
    ensures { IfOk result (λ pairs. pairs.items
        ≡ numbered_pairs arena.now.trees (below_at (tree_at arena.now.trees id))) }
{
    match chain_at(alloc, arena, id)? {
        Some(chain) => below_over(alloc, chain.implied, needed(top, &chain)),
        None => Ok(Vec::new(alloc)),
    }
}

/// Each of these and its inverse, below this one.
fn below_over(
    alloc: Global,
    implied: PropertyNumber,
    ps: &[PropertyNumber],
) -> Result<Vec<Step>, AllocError>
    ensures { IfOk result (λ pairs. pairs.items ≡ below_over inverse_number implied ps.now) }
{
    let mut pairs = Vec::new(alloc);
    'properties: for p in ps {
        pairs.push((*p, implied))?;
        pairs.push((p.inverse(), implied))?;
    }
    Ok(pairs)
}
