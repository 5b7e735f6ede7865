//! What is bare beside what is annotated.

ghost use Rattle.std.specs.Prelude.{◌≡◌, ◌<◌, ◌↔◌, Contains, List, ℕ, IfErr, IfOk, IsTrue, filter, length, map};
ghost use Rattle.std.specs.Ordering.{nat_cmp};
ghost use Rattle.owl_arena.specs.Held.{AreHeld, tree_at, trees_at};
ghost use Rattle.owl_list.specs.Ascending.{IsAscending, ascending};
ghost use Rattle.owl_tree.specs.Canonical.{canonical};
ghost use Rattle.owl_tree.specs.Order.{tree_cmp};
ghost use Rattle.owl_tree.specs.Trees.{tag_of};
ghost use Rattle.rdf_normal.specs.Makings.{AreMade, HasBareForms, IsMade};
ghost use Rattle.rdf_normal.specs.NormalForms.{bare, bears_notes, is_annotated, is_needless, needed};
ghost use Rattle.rdf_normal.specs.OneTriple.{is_negative, is_one_triple, lists_members};
ghost use Rattle.rdf_normal.specs.declared.fault.NormFault.{NormFault};

use crate::fault::NormFault;
use crate::making::{make, push};
use owl_arena::{Arena, ExprId};
use owl_list::arrange;
use owl_tree::Tag;
use std::alloc::Global;

/// Those that are needed, in canonical order.
pub fn needed(alloc: Global, arena: &mut Arena, ids: Vec<ExprId>) -> Result<Vec<ExprId>, NormFault>
    requires { AreHeld arena.old.trees ids.items }
    ensures made { IfOk result (λ made. AreMade arena.old.trees arena.new.trees made.items
        (needed (ascending tree_cmp (trees_at arena.old.trees ids.items)))) }
    ensures memory { IfErr result (λ fault. fault ≡ NormFault.Memory) }
{
    // What every arena holds is canonical.
    let _trees = arena.distinct();
    let mut ids = ids;
    arena.sort_set(&mut ids);
    let mut said = bare_forms(alloc, arena, &ids)?;
    arrange(&mut said);
    kept(alloc, arena, &ids, &said)
}

/// The annotated ones, without their annotations.
fn bare_forms(alloc: Global, arena: &mut Arena, ids: &[ExprId]) -> Result<Vec<ExprId>, NormFault>
    requires { AreHeld arena.old.trees ids.now }
    ensures made { IfOk result (λ made. AreMade arena.old.trees arena.new.trees made.items
        (map (λ t. canonical (bare t)) (filter is_annotated (trees_at arena.old.trees ids.now)))) }
    ensures memory { IfErr result (λ fault. fault ≡ NormFault.Memory) }
{
    let mut forms = Vec::new(alloc);
    'ids: for id in ids {
        if is_annotated(arena, *id) {
            let form = bare(alloc, arena, *id)?;
            push(&mut forms, form)?;
        }
    }
    Ok(forms)
}

/// Whether the tree is an axiom or annotation that has annotations.
pub fn is_annotated(arena: &Arena, id: ExprId) -> bool
    requires { id < length arena.now.trees }
    ensures { result ≡ is_annotated (tree_at arena.now.trees id) }
{
    match arena.kids(id) {
        [notes, _rest @ ..] => bears_notes(arena.tag(id)) && !arena.kids(*notes).is_empty(),
        [] => false,
    }
}

/// Whether trees with this tag are axioms or annotations.
fn bears_notes(tag: Tag) -> bool
    ensures { result ≡ bears_notes tag }
{
    tag == Tag::Annotation || tag.is_axiom()
}

/// The number of the tree without its annotations.
pub fn bare(alloc: Global, arena: &mut Arena, id: ExprId) -> Result<ExprId, NormFault>
    requires { id < length arena.old.trees }
    ensures made { IfOk result (λ made. IsMade arena.old.trees arena.new.trees made
        (canonical (bare (tree_at arena.old.trees id)))) }
    ensures memory { IfErr result (λ fault. fault ≡ NormFault.Memory) }
{
    // What every arena holds is canonical.
    let _trees = arena.distinct();
    let tag = arena.tag(id);
    let mut kids = Vec::from_slice(alloc, arena.kids(id))?;
    if kids.is_empty() {
        return Ok(id);
    }
    kids[0] = make(arena, Tag::Notes, Vec::new(alloc))?;
    make(arena, tag, kids)
}

/// Those that are not needless.
fn kept(
    alloc: Global,
    arena: &Arena,
    ids: &[ExprId],
    said: &[ExprId],
) -> Result<Vec<ExprId>, NormFault>
    requires held { AreHeld arena.now.trees ids.now }
    requires said { HasBareForms arena.now.trees ids.now said.now }
    ensures kept { IfOk result (λ kept. AreMade arena.now.trees arena.now.trees kept.items
        (needed (trees_at arena.now.trees ids.now))) }
    ensures memory { IfErr result (λ fault. fault ≡ NormFault.Memory) }
{
    let mut kept = Vec::with_capacity(alloc, ids.len())?;
    'ids: for id in ids {
        if !is_needless(arena, said, *id) {
            push(&mut kept, *id)?;
        }
    }
    Ok(kept)
}

/// Whether one triple says the tree, and one of the others says it with
/// annotations.
fn is_needless(arena: &Arena, said: &[ExprId], id: ExprId) -> bool
    requires id { id < length arena.now.trees }
    requires ascends { IsAscending nat_cmp said.now }
    ensures { (ids : List ℕ) → HasBareForms arena.now.trees ids said.now
        → result ≡ is_needless (trees_at arena.now.trees ids) (tree_at arena.now.trees id) }
{
    // Equal trees have one number.
    let _trees = arena.distinct();
    is_one_triple(arena, id) && is_in(said, id)
}

/// Whether the number is among these, which ascend.
fn is_in(ids: &[ExprId], id: ExprId) -> bool
    requires { IsAscending nat_cmp ids.now }
    ensures { IsTrue result ↔ Contains ids.now id }
{
    ids.binary_search(&id).is_ok()
}

/// Whether one triple says the axiom, or the annotation.
fn is_one_triple(arena: &Arena, id: ExprId) -> bool
    requires { id < length arena.now.trees }
    ensures { result ≡ is_one_triple (tree_at arena.now.trees id) }
{
    let tag = arena.tag(id);
    !is_negative(tag) && (!lists_members(tag) || arena.kids(id).len() <= 3)
}

/// Whether the axiom has a node of its own, as a negative assertion.
fn is_negative(tag: Tag) -> bool
    ensures { result ≡ is_negative tag }
{
    tag == Tag::NegativeObjectPropertyAssertion || tag == Tag::NegativeDataPropertyAssertion
}

/// Whether the axiom has a node with the list of its members, if they are many.
fn lists_members(tag: Tag) -> bool
    ensures { result ≡ lists_members tag }
{
    tag == Tag::DisjointClasses
        || tag == Tag::DisjointObjectProperties
        || tag == Tag::DisjointDataProperties
        || tag == Tag::DifferentIndividuals
}
