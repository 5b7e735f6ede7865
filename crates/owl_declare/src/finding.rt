//! The declarations that a document needs.

ghost use Rattle.std.specs.Prelude.{◌≡◌, ◌<◌, IfOk, OnOk, length, map};
ghost use Rattle.owl_arena.specs.Held.{AreHeld, tree_at};
ghost use Rattle.owl_doc.specs.Documents.{ontology_of};
ghost use Rattle.owl_doc.specs.Entities.{entities, entities_at};
ghost use Rattle.owl_tree.specs.Trees.{leaf};
ghost use Rattle.owl_declare.specs.Needed.{AreNeeded, entity_of};
ghost use Rattle.owl_declare.specs.Finding.{Finds};

use crate::found::Found;
use crate::need::Need;
use owl_arena::{Arena, ExprId};
use owl_characters::NoMemory;
use owl_doc::{Doc, entity_of, kind_of};
use owl_kind::Kinds;
use owl_list::arrange;
use owl_tree::{Atom, Tag};
use std::alloc::Global;

/// The classes, datatypes and properties in the annotations and axioms of the document
/// that are neither declared nor built in (Structural Specification, section 5.8.1), by
/// kind and then by the bytes of the IRI, each once.
pub fn needed(alloc: Global, doc: &Doc, kinds: &Kinds) -> Result<Vec<Need>, NoMemory>
    ensures { IfOk result (λ needs.
        AreNeeded kinds.now (ontology_of doc.now) (map entity_of needs.items)) }
{
    let mut found = Found::new(alloc);
    find_all(doc.arena(), doc.notes(), kinds, &mut found)?;
    find_all(doc.arena(), doc.axioms(), kinds, &mut found)?;
    let mut needs = found.into_needs();
    arrange(&mut needs);
    Ok(needs)
}

/// Finds what the tree needs.
#[cycle(finding)]
fn find_in(arena: &Arena, id: ExprId, kinds: &Kinds, found: &mut Found) -> Result<(), NoMemory>
    requires { id < length arena.now.trees }
    ensures { OnOk result (
        Finds kinds.now (entities (tree_at arena.now.trees id)) found.old found.new) }
{
    match arena.atom(id) {
        Some(atom) => find_leaf(arena.tag(id), atom, kinds, found),
        None => find_all(arena, arena.kids(id), kinds, found),
    }
}

/// Finds what these trees need.
#[cycle(finding)]
fn find_all(arena: &Arena, ids: &[ExprId], kinds: &Kinds, found: &mut Found) -> Result<(), NoMemory>
    requires { AreHeld arena.now.trees ids.now }
    ensures { OnOk result (
        Finds kinds.now (entities_at arena.now.trees ids.now) found.old found.new) }
{
    'ids: for id in ids {
        find_in(arena, *id, kinds, found)?;
    }
    Ok(())
}

/// Finds what the leaf needs.
fn find_leaf(tag: Tag, atom: &Atom, kinds: &Kinds, found: &mut Found) -> Result<(), NoMemory>
    ensures { OnOk result (Finds kinds.now (entities (leaf tag atom.now)) found.old found.new) }
{
    match entity_of(kind_of(tag), atom) {
        Some((kind, iri)) if !kinds.has(kind, iri) => found.add(kind, iri),
        _ => Ok(()),
    }
}
