//! The third step.

ghost use Rattle.std.specs.Prelude.{◌≡◌, ◌<◌, ◌++◌, IfErr, IfOk, OnOk, filter, length, map, not};
ghost use Rattle.std.specs.Option.{option_map};
ghost use Rattle.owl_arena.specs.Held.{AreHeld, tree_at, trees_at};
ghost use Rattle.owl_tree.specs.Canonical.{canonical};
ghost use Rattle.rdf_normal.specs.Makings.{AreMade, IsMade, IsParted};
ghost use Rattle.rdf_normal.specs.NormalForms.{annotation_of, is_about, iri_at, is_same_iri, subject_in};
ghost use Rattle.owl_tree.specs.Trees.{kids_in};
ghost use Rattle.rdf_normal.specs.declared.fault.NormFault.{NormFault};

use crate::fault::NormFault;
use crate::making::{make, push};
use owl_arena::{Arena, ExprId};
use owl_atom::Iri;
use owl_tree::{Atom, Tag};
use std::alloc::Global;

/// Axioms by whether they are about the ontology.
#[derive(Drop)]
pub struct Parted {
    pub own: Vec<ExprId>,
    pub others: Vec<ExprId>,
}

/// The axioms, by whether they are about what is called so.
pub fn part(
    alloc: Global,
    arena: &Arena,
    name: &Option<Iri>,
    ids: &[ExprId],
) -> Result<Parted, NormFault>
    requires { AreHeld arena.now.trees ids.now }
    ensures parted { IfOk result (λ made.
        IsParted arena.now.trees (is_about name.now) ids.now made) }
    ensures memory { IfErr result (λ fault. fault ≡ NormFault.Memory) }
{
    let mut own = Vec::new(alloc);
    let mut others = Vec::with_capacity(alloc, ids.len())?;
    'ids: for id in ids {
        if is_about(arena, name, *id) {
            push(&mut own, *id)?;
        } else {
            push(&mut others, *id)?;
        }
    }
    Ok(Parted { own, others })
}

/// Whether the axiom asserts an annotation of what is called so.
pub fn is_about(arena: &Arena, name: &Option<Iri>, id: ExprId) -> bool
    requires { id < length arena.now.trees }
    ensures { result ≡ is_about name.now (tree_at arena.now.trees id) }
{
    arena.tag(id) == Tag::AnnotationAssertion && is_same_iri(name, subject_in(arena, id))
}

/// The IRI that is the subject, where the tree has one.
fn subject_in(arena: &Arena, id: ExprId) -> Option<&Iri>
    requires { id < length arena.now.trees }
    ensures { option_map (λ iri. iri.now) result
        ≡ subject_in (kids_in (tree_at arena.now.trees id)) }
{
    match arena.kids(id) {
        [_notes, _property, subject, _value] => iri_at(arena, *subject),
        _ => None,
    }
}

/// The IRI of a leaf.
fn iri_at(arena: &Arena, id: ExprId) -> Option<&Iri>
    requires { id < length arena.now.trees }
    ensures { option_map (λ iri. iri.now) result ≡ iri_at (tree_at arena.now.trees id) }
{
    match arena.atom(id) {
        Some(Atom::Iri(iri)) => Some(iri),
        _ => None,
    }
}

/// Whether both are there and are the same.
fn is_same_iri(name: &Option<Iri>, iri: Option<&Iri>) -> bool
    ensures { result ≡ is_same_iri name.now (option_map (λ found. found.now) iri.entry) }
{
    match (name, iri) {
        (Some(name), Some(iri)) => name == iri,
        _ => false,
    }
}

/// The annotations, and those that the assertions assert.
pub fn annotations(
    alloc: Global,
    arena: &mut Arena,
    notes: &[ExprId],
    own: &[ExprId],
) -> Result<Vec<ExprId>, NormFault>
    requires notes { AreHeld arena.old.trees notes.now }
    requires own { AreHeld arena.old.trees own.now }
    ensures made { IfOk result (λ made. AreMade arena.old.trees arena.new.trees made.items
        (trees_at arena.old.trees notes.now
        ++ map (λ t. canonical (annotation_of t)) (trees_at arena.old.trees own.now))) }
    ensures memory { IfErr result (λ fault. fault ≡ NormFault.Memory) }
{
    // What every arena holds is canonical.
    let _trees = arena.distinct();
    let mut made = Vec::from_slice(alloc, notes)?;
    'own: for id in own {
        let annotation = annotation_of(alloc, arena, *id)?;
        push(&mut made, annotation)?;
    }
    Ok(made)
}

/// The number of the annotation that the assertion asserts.
fn annotation_of(alloc: Global, arena: &mut Arena, id: ExprId) -> Result<ExprId, NormFault>
    requires { id < length arena.old.trees }
    ensures made { IfOk result (λ made. IsMade arena.old.trees arena.new.trees made
        (canonical (annotation_of (tree_at arena.old.trees id)))) }
    ensures memory { IfErr result (λ fault. fault ≡ NormFault.Memory) }
{
    // What every arena holds is canonical.
    let _trees = arena.distinct();
    match arena.kids(id) {
        [notes, property, _subject, value] => {
            let kids = Vec::from_slice(alloc, &[*notes, *property, *value])?;
            make(arena, Tag::Annotation, kids)
        }
        _ => Ok(id),
    }
}
