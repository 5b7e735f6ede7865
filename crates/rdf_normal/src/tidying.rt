//! The fourth step, inside annotations.

ghost use Rattle.std.specs.Prelude.{◌≡◌, ◌<◌, IfErr, IfOk, OnOk, length, map, take, slice_index_or};
ghost use Rattle.std.specs.List.{AllByRecursion};
ghost use Rattle.owl_arena.specs.Held.{AreHeld, node_over, tree_at, trees_at};
ghost use Rattle.owl_tree.specs.Canonical.{canonical};
ghost use Rattle.owl_tree.specs.Rows.{is_tag};
ghost use Rattle.owl_tree.specs.declared.tag.Tag.TheVariants as tags;
ghost use Rattle.rdf_normal.specs.Makings.{AreMade, IsMade, image};
ghost use Rattle.rdf_normal.specs.NormalForms.{tidied};
ghost use Rattle.rdf_normal.specs.declared.fault.NormFault.{NormFault};

use crate::fault::NormFault;
use crate::making::{make, push};
use crate::needless::needed;
use owl_arena::{Arena, ExprId};
use owl_tree::Tag;
use std::alloc::Global;

/// The numbers of the tidied trees, by the numbers of the trees.
pub fn tidied_all(alloc: Global, arena: &mut Arena) -> Result<Vec<ExprId>, NormFault>
    ensures made { IfOk result (λ made. AreMade arena.old.trees arena.new.trees made.items
        (map tidied arena.old.trees)) }
    ensures memory { IfErr result (λ fault. fault ≡ NormFault.Memory) }
{
    let count = arena.distinct();
    let mut made = Vec::with_capacity(alloc, count)?;
    'places: for place in 0..count {
        let id = arena.at(place);
        let tidied = tidied(alloc, arena, &made, id)?;
        push(&mut made, tidied)?;
    }
    Ok(made)
}

/// The number of the tidied tree, where those of the trees before it are known.
fn tidied(
    alloc: Global,
    arena: &mut Arena,
    known: &[ExprId],
    id: ExprId,
) -> Result<ExprId, NormFault>
    requires id { id ≡ length known.now }
    requires held { AreHeld arena.old.trees known.now }
    requires more { length known.now < length arena.old.trees }
    requires known { trees_at arena.old.trees known.now ≡ map tidied (take id arena.old.trees) }
    ensures made { IfOk result (λ made. IsMade arena.old.trees arena.new.trees made
        (tidied (tree_at arena.old.trees id))) }
    ensures memory { IfErr result (λ fault. fault ≡ NormFault.Memory) }
{
    // What every arena holds is canonical.
    let _trees = arena.distinct();
    if arena.atom(id).is_some() {
        return Ok(id);
    }
    let tag = arena.tag(id);
    let kids = images(alloc, known, arena.kids(id))?;
    if is_notes(tag) {
        let kids = needed(alloc, arena, kids)?;
        let _trees = arena.distinct();
        return make(arena, tag, kids);
    }
    make(arena, tag, kids)
}

/// Whether the tree is the annotations of an axiom or annotation.
pub fn is_notes(tag: Tag) -> bool
    ensures { result ≡ is_tag tags.Notes tag }
{
    tag == Tag::Notes
}

/// The numbers that stand at these places.
pub fn images(alloc: Global, known: &[ExprId], ids: &[ExprId]) -> Result<Vec<ExprId>, NormFault>
    requires { AllByRecursion (λ id. id < length known.now) ids.now }
    ensures images { IfOk result (λ images. images.items ≡ map (image known.now) ids.now) }
    ensures memory { IfErr result (λ fault. fault ≡ NormFault.Memory) }
{
    let mut images = Vec::with_capacity(alloc, ids.len())?;
    'ids: for id in ids {
        push(&mut images, known[id.place()])?;
    }
    Ok(images)
}
