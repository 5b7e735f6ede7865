//! Entities that are not declared.

ghost use Rattle.std.specs.Prelude.{◌≡◌, ◌↔◌, ◌<◌, IfSome, IsNone, length};
ghost use Rattle.owl_arena.specs.Held.{AreHeld, tree_at};
ghost use Rattle.owl_doc.specs.Entities.{AreWellTyped, FindsUndeclared, IsFirstUndeclared, IsHeldItem, entities, entities_at, entities_in, entity_seen};
ghost use Rattle.owl_tree.specs.Trees.{leaf};

use crate::document::Doc;
use crate::item::Item;
use crate::kinds::{entity_of, kind_of};
use owl_arena::{Arena, ExprId};
use owl_atom::Iri;
use owl_kind::{Kind, Kinds};
use owl_tree::{Atom, Tag};

/// The first class, datatype or property in the part of the document, from left
/// to right, that is neither declared nor built in (Structural Specification,
/// section 5.8.1). `None` exactly where each is. Takes no memory.
pub fn undeclared<'a>(doc: &'a Doc, item: Item, kinds: &Kinds) -> Option<(Kind, &'a Iri)>
    requires { IsHeldItem doc.now item }
    ensures some { IfSome result (λ e.
        IsFirstUndeclared kinds.now (entities_in doc.now item) (entity_seen e)) }
    ensures none { IsNone result ↔ AreWellTyped kinds.now (entities_in doc.now item) }
{
    match item {
        Item::Header => first_undeclared(doc.arena(), doc.notes(), kinds),
        Item::Axiom(id) => undeclared_in(doc.arena(), id, kinds),
    }
}

/// The first undeclared entity in the tree.
#[cycle(undeclared)]
fn undeclared_in<'a>(arena: &'a Arena, id: ExprId, kinds: &Kinds) -> Option<(Kind, &'a Iri)>
    requires { id < length arena.now.trees }
    ensures { FindsUndeclared kinds.now (entities (tree_at arena.now.trees id)) result }
{
    match arena.atom(id) {
        Some(atom) => undeclared_leaf(arena.tag(id), atom, kinds),
        None => first_undeclared(arena, arena.kids(id), kinds),
    }
}

/// The first undeclared entity in these trees.
#[cycle(undeclared)]
fn first_undeclared<'a>(arena: &'a Arena, ids: &[ExprId], kinds: &Kinds) -> Option<(Kind, &'a Iri)>
    requires { AreHeld arena.now.trees ids.now }
    ensures { FindsUndeclared kinds.now (entities_at arena.now.trees ids.now) result }
{
    'ids: for id in ids {
        if let Some(found) = undeclared_in(arena, *id, kinds) {
            return Some(found);
        }
    }
    None
}

/// The entity of the leaf, where it has one that is not declared.
fn undeclared_leaf<'a>(tag: Tag, atom: &'a Atom, kinds: &Kinds) -> Option<(Kind, &'a Iri)>
    ensures { FindsUndeclared kinds.now (entities (leaf tag atom.now)) result }
{
    let (kind, iri) = entity_of(kind_of(tag), atom)?;
    if kinds.has(kind, iri) {
        return None;
    }
    Some((kind, iri))
}
