//! What documents declare.

ghost use Rattle.std.specs.Prelude.{◌≡◌, ◌<◌, ◌∷◌, [], OnOk, OnErr, length};
ghost use Rattle.std.specs.Option.{option_map};
ghost use Rattle.owl_arena.specs.Held.{tree_at};
ghost use Rattle.owl_doc.specs.Documents.{ontology_of};
ghost use Rattle.owl_doc.specs.Entities.{AddsAll, AddsSome, declaration, declarations, declared_in, entity_seen};

use crate::document::Doc;
use crate::kinds::{declared_kind, entity_of};
use owl_arena::{Arena, ExprId};
use owl_atom::Iri;
use owl_characters::NoMemory;
use owl_kind::{Kind, Kinds};
use owl_tree::Tag;

/// Declares the entity of each Declaration of the document, besides what is
/// declared (Structural Specification, section 5.8). At want of memory some may
/// have been declared.
pub fn declared(doc: &Doc, kinds: &mut Kinds) -> Result<(), NoMemory>
    ensures ok { OnOk result (AddsAll kinds.old (declared_in (ontology_of doc.now)) kinds.new) }
    ensures err { OnErr result (AddsSome kinds.old (declared_in (ontology_of doc.now)) kinds.new) }
{
    'axioms: for id in doc.axioms() {
        declare(doc.arena(), *id, kinds)?;
    }
    Ok(())
}

/// Declares the entity of the tree, where it is a Declaration. At want of memory
/// nothing changes.
fn declare(arena: &Arena, id: ExprId, kinds: &mut Kinds) -> Result<(), NoMemory>
    requires { id < length arena.now.trees }
    ensures ok { OnOk result (
        AddsAll kinds.old (declarations (tree_at arena.now.trees id ∷ [])) kinds.new) }
    ensures err { OnErr result (kinds.new ≡ kinds.old) }
{
    if let Some((kind, iri)) = declaration(arena, id) {
        let copy = iri.copy(kinds.allocator())?;
        kinds.declare(kind, copy)?;
    }
    Ok(())
}

/// The entity that the tree declares, where it is a Declaration.
pub fn declaration(arena: &Arena, id: ExprId) -> Option<(Kind, &Iri)>
    requires { id < length arena.now.trees }
    ensures { option_map entity_seen result ≡ declaration (tree_at arena.now.trees id) }
{
    if arena.tag(id) != Tag::Declaration {
        return None;
    }
    match arena.kids(id) {
        [_, named] => entity_of(declared_kind(arena.tag(*named)), arena.atom(*named)?),
        _ => None,
    }
}
