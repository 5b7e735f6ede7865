//! What frames declare.

ghost use Rattle.std.specs.Prelude.{◌≡◌, ◌∷◌, [], OnErr, OnOk};
ghost use Rattle.std.specs.Option.{option_map};
ghost use Rattle.std.specs.List.{filter_map};
ghost use Rattle.owl_doc.specs.Entities.{AddsAll, AddsSome, entity_seen};
ghost use Rattle.man_resolve.specs.Items.{frame_entities, frame_entity};

use crate::sentence::declared_kind;
use man_raw::{RawDoc, RawItem, What};
use owl_characters::NoMemory;
use owl_doc::entity_of;
use owl_kind::{Kind, Kinds};
use rdf_terms::Iri;

/// Declares the entity of each frame of a name, besides what is declared
/// (Manchester Syntax, section 2.5). At want of memory some may have been declared.
pub fn declared(raw: &RawDoc, kinds: &mut Kinds) -> Result<(), NoMemory>
    ensures ok { OnOk result (AddsAll kinds.old (frame_entities raw.now) kinds.new) }
    ensures err { OnErr result (AddsSome kinds.old (frame_entities raw.now) kinds.new) }
{
    'items: for item in &raw.items {
        declare(item, kinds)?;
    }
    Ok(())
}

/// Declares the name of a frame. At want of memory nothing changes.
fn declare(item: &RawItem, kinds: &mut Kinds) -> Result<(), NoMemory>
    ensures ok { OnOk result (
        AddsAll kinds.old (filter_map frame_entity (item.now ∷ [])) kinds.new) }
    ensures err { OnErr result (kinds.new ≡ kinds.old) }
{
    if let Some((kind, iri)) = frame_entity(item) {
        let copy = iri.copy(kinds.allocator())?;
        kinds.declare(kind, copy)?;
    }
    Ok(())
}

/// The name of a frame, as what it declares it.
fn frame_entity(item: &RawItem) -> Option<(Kind, &Iri)>
    ensures { option_map entity_seen result ≡ frame_entity item.now }
{
    let kind = declared_kind(item.heading);
    let name = item.name.as_ref()?;
    match &name.what {
        What::Atom(atom) => entity_of(kind, atom),
        _ => None,
    }
}
