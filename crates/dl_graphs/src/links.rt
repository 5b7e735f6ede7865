//! Links between anonymous individuals: object property assertions, annotations
//! and repeats aside.

ghost use Rattle.std.specs.Prelude.{◌≡◌, ◌<◌, ◌∷◌, IfOk, [], length, map, true};
ghost use Rattle.dl_rules.specs.Assertions.{link_between, link_of};
ghost use Rattle.dl_rules.specs.Logical.{label_in};
ghost use Rattle.dl_rules.specs.Properties.{property_in};
ghost use Rattle.owl_arena.specs.Held.{AreHeld, tree_at, trees_at};
ghost use Rattle.owl_arena.specs.Shared.{AreShared};
ghost use Rattle.owl_tree.specs.declared.tag.Tag.TheVariants as tag;
ghost use Rattle.owl_tree.specs.declared.row.Sort.TheVariants.{ObjectPropertyExpression};
ghost use Rattle.owl_tree.specs.Rows.{admits, is_tag};
ghost use Rattle.owl_tree.specs.Trees.{tag_of};
ghost use Rattle.dl_graphs.specs.Links.{AddsLink, AreLinks, IsLinkIf, IsListing, ends_at};

use indexmap::IndexSet;
use owl_arena::{Arena, ExprId};
use owl_tree::Tag;
use std::alloc::{AllocError, Global};

/// A link, by the numbers of trees.
#[derive(Clone, Copy, Debug, PartialEq, Eq, Hash)]
pub struct LinkIds {
    property: ExprId,
    subject: ExprId,
    object: ExprId,
}

/// The links of some axioms.
#[derive(Debug, Drop)]
pub struct Links {
    /// The places of their individuals in an arena, of each link once.
    pub ends: Vec<(usize, usize)>,
    /// For each axiom which of the links it is, if it is one.
    pub places: Vec<Option<usize>>,
}

/// The links of these axioms.
pub fn links_by(alloc: Global, arena: &Arena, axioms: &[ExprId]) -> Result<Links, AllocError>
    requires shared { AreShared arena.now.trees }
    requires axioms { AreHeld arena.now.trees axioms.now }
    ensures { IfOk result (AreLinks arena.now.trees (trees_at arena.now.trees axioms.now)) }
{
    let mut seen = IndexSet::new(alloc);
    let places = place_each(alloc, arena, axioms, &mut seen)?;
    let ends = ends_of(alloc, seen.as_slice())?;
    Ok(Links { ends, places })
}

/// Notes the links of these axioms, where none is noted. It gives for each axiom
/// which of the links it is.
fn place_each(
    alloc: Global,
    arena: &Arena,
    axioms: &[ExprId],
    seen: &mut IndexSet<LinkIds>,
) -> Result<Vec<Option<usize>>, AllocError>
    requires shared { AreShared arena.now.trees }
    requires axioms { AreHeld arena.now.trees axioms.now }
    requires none { seen.old.keys ≡ [] }
    ensures { IfOk result (λ places. IsListing arena.now.trees
        (trees_at arena.now.trees axioms.now) seen.new.keys places.items) }
{
    let mut places = Vec::new(alloc);
    'axioms: for id in axioms {
        let place = place_in(arena, *id, seen)?;
        places.push(place)?;
    }
    Ok(places)
}

/// Which of the links the axiom is, if it is one. A new one is noted behind them.
fn place_in(
    arena: &Arena,
    id: ExprId,
    seen: &mut IndexSet<LinkIds>,
) -> Result<Option<usize>, AllocError>
    requires shared { AreShared arena.now.trees }
    requires axiom { id < length arena.now.trees }
    ensures { IfOk result (λ place. AddsLink arena.now.trees
        (link_of (tree_at arena.now.trees id)) seen.old.keys seen.new.keys place) }
{
    match link_at(arena, id) {
        Some(ids) => Ok(Some(seen.insert_full(ids)?.0)),
        None => Ok(None),
    }
}

/// The places of the individuals of these links.
fn ends_of(alloc: Global, links: &[LinkIds]) -> Result<Vec<(usize, usize)>, AllocError>
    ensures { IfOk result (λ ends. ends.items ≡ map ends_at links.now) }
{
    links
        .iter()
        .map(|link| (link.subject.place(), link.object.place()))
        .collect(alloc)
}

/// The link that the axiom is, if it is one.
fn link_at(arena: &Arena, id: ExprId) -> Option<LinkIds>
    requires shared { AreShared arena.now.trees }
    requires axiom { id < length arena.now.trees }
    ensures { IsLinkIf arena.now.trees result (link_of (tree_at arena.now.trees id)) }
{
    if arena.tag(id) != Tag::ObjectPropertyAssertion {
        return None;
    }
    match arena.kids(id) {
        [_, property, subject, object] => link_between(arena, *property, *subject, *object),
        _ => None,
    }
}

/// The link between the individuals, if both are anonymous.
fn link_between(arena: &Arena, property: ExprId, subject: ExprId, object: ExprId) -> Option<LinkIds>
    requires shared { AreShared arena.now.trees }
    requires held { AreHeld arena.now.trees (property ∷ subject ∷ object ∷ []) }
    requires property { admits ObjectPropertyExpression (tag_of (tree_at arena.now.trees property))
        ≡ true }
    ensures { IsLinkIf arena.now.trees result (link_between
        (property_in (tree_at arena.now.trees property))
        (label_in (tree_at arena.now.trees subject)) (label_in (tree_at arena.now.trees object))) }
{
    if is_anonymous(arena, subject) && is_anonymous(arena, object) {
        Some(LinkIds {
            property,
            subject,
            object,
        })
    } else {
        None
    }
}

/// Whether the tree is an anonymous individual.
fn is_anonymous(arena: &Arena, id: ExprId) -> bool
    requires { id < length arena.now.trees }
    ensures { result ≡ is_tag tag.Anonymous (tag_of (tree_at arena.now.trees id)) }
{
    arena.tag(id) == Tag::Anonymous
}
