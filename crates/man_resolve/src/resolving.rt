//! What a document means.

ghost use Rattle.std.specs.Prelude.{◌≡◌, ◌≤◌, ◌<◌, IfErr, IfOk, IsSome, None, OnOk};
ghost use Rattle.owl_arena.specs.Held.{AreHeld, trees_at};
ghost use Rattle.owl_arena.specs.Shared.{heaviest};
ghost use Rattle.owl_assembly.specs.Filling.{AreAnnotations, AreAxioms};
ghost use Rattle.owl_doc.specs.Documents.{ontology_of};
ghost use Rattle.owl_doc.specs.Heads.{StandsBeside, head_of};
ghost use Rattle.man_resolve.specs.Items.{head_in};
ghost use Rattle.owl_tree.specs.Ontologies.{canonical_ontology, ontology_weight};
ghost use Rattle.man_resolve.specs.Limits.{IsLimitFault, IsWeightFault, IsWithin, ontology_at, ontology_made};
ghost use Rattle.man_resolve.specs.Making.{trees_of};
ghost use Rattle.man_resolve.specs.Resolved.{FramesMean, HaveNoClash, IsClashFault, IsResolveFault};

use crate::document::mean_document;
use crate::fault::ResolveFault;
use crate::making::{Made, make_both};
use crate::step::Step;
use man_raw::{RawDoc, RawHead};
use owl_arena::{Arena, ExprId};
use owl_assembly::assemble;
use owl_characters::NoMemory;
use owl_doc::{Doc, Head};
use owl_kind::Kinds;
use rdf_terms::Iri;
use std::alloc::{AllocError, Global};
use tree_stores::{Depths, TreeFault, fits};

/// The ontology that the frames of the document mean under these kinds, with its
/// prefixes (Manchester Syntax, sections 2.1 to 2.6).
///
/// In this order: `TwoKinds` where an IRI has kinds that no IRI may share, with the
/// first such IRI; the first in the order of the text of `WrongForm`, where an
/// expression is of no form that its place takes, and `Untyped` and `WrongKind`, where
/// a name has no kind that its place needs; `TooDeep` where an annotation or an axiom
/// is more than 128 levels deep; `TooHeavy` where the ontology has more than 2^24
/// nodes and leaves.
pub fn resolve(alloc: Global, raw: &RawDoc, kinds: &Kinds) -> Result<Doc, ResolveFault>
    ensures said { IfOk result (λ doc. FramesMean raw.now kinds.now (ontology_of doc)) }
    ensures prefixes { IfOk result (λ doc. doc.prefixes ≡ raw.now.prefixes) }
    ensures fault { IfErr result (IsResolveFault raw.now kinds.now) }
{
    check_kinds(kinds)?;
    let mut notes = Vec::new(alloc);
    let mut axioms = Vec::new(alloc);
    mean_document(kinds, raw, &mut notes, &mut axioms)?;
    make_document(alloc, raw, &notes, &axioms)
}

/// `TwoKinds` where an IRI has kinds that no IRI may share.
fn check_kinds(kinds: &Kinds) -> Result<(), ResolveFault>
    ensures none { OnOk result (HaveNoClash kinds.now) }
    ensures fault { IfErr result (IsClashFault kinds.now) }
{
    match kinds.clash() {
        Some(iri) => Err(ResolveFault::TwoKinds {
            iri: iri.copy(kinds.allocator())?,
        }),
        None => Ok(()),
    }
}

/// The document with the annotations and the axioms that the steps make.
fn make_document(
    alloc: Global,
    raw: &RawDoc,
    notes: &[Step],
    axioms: &[Step],
) -> Result<Doc, ResolveFault>
    requires are_annotations { AreAnnotations (trees_of notes.now) }
    requires are_axioms { AreAxioms (trees_of axioms.now) }
    ensures said { IfOk result (λ doc.
        IsWithin (ontology_made raw.now.head notes.now axioms.now) (ontology_of doc)) }
    ensures prefixes { IfOk result (λ doc. doc.prefixes ≡ raw.now.prefixes) }
    ensures fault { IfErr result (IsLimitFault
        (ontology_made raw.now.head notes.now axioms.now)) }
{
    let mut arena = Arena::new(alloc);
    match make_both(alloc, &mut arena, notes, axioms) {
        Ok(made) => {
            // What an arena holds is small.
            fits(&arena);
            finish(alloc, raw, arena, made)
        }
        Err(TreeFault::TooDeep) => Err(ResolveFault::TooDeep),
        Err(TreeFault::TooHeavy(())) => Err(fault_of_heavy(alloc, raw, notes, axioms)),
        Err(TreeFault::Memory) => Err(ResolveFault::Memory),
    }
}

/// What is told where a tree is too heavy: any tree that is too deep comes first.
fn fault_of_heavy(alloc: Global, raw: &RawDoc, notes: &[Step], axioms: &[Step]) -> ResolveFault
    requires { heaviest < ontology_weight (ontology_made raw.now.head notes.now axioms.now) }
    ensures { IsLimitFault (ontology_made raw.now.head notes.now axioms.now) result }
{
    match make_both(alloc, &mut Depths, notes, axioms) {
        Ok(_) => ResolveFault::TooHeavy,
        Err(TreeFault::TooDeep) => ResolveFault::TooDeep,
        Err(TreeFault::Memory) => ResolveFault::Memory,
    }
}

/// The document with the annotations and the axioms that have these numbers.
fn finish(
    alloc: Global,
    raw: &RawDoc,
    arena: Arena,
    made: Made<ExprId>,
) -> Result<Doc, ResolveFault>
    requires annotations { AreHeld arena.trees made.notes.items }
    requires axioms { AreHeld arena.trees made.axioms.items }
    requires are_annotations { AreAnnotations (trees_at arena.trees made.notes.items) }
    requires are_axioms { AreAxioms (trees_at arena.trees made.axioms.items) }
    ensures ontology { IfOk result (λ doc. ontology_of doc ≡ canonical_ontology
        (ontology_at raw.now.head arena.trees made.notes.items made.axioms.items)) }
    ensures light { OnOk result (ontology_weight
        (ontology_at raw.now.head arena.trees made.notes.items made.axioms.items) ≤ heaviest) }
    ensures prefixes { IfOk result (λ doc. doc.prefixes ≡ raw.now.prefixes) }
    ensures fault { IfErr result (IsWeightFault
        (ontology_at raw.now.head arena.trees made.notes.items made.axioms.items)) }
{
    let head = head(alloc, raw)?;
    let prefixes = raw.prefixes.copy(alloc)?;
    Ok(assemble(alloc, prefixes, head, arena, &made.notes, &made.axioms)?)
}

/// How the document's ontology is called, and what it imports (Manchester Syntax,
/// section 2.4).
pub fn head(alloc: Global, raw: &RawDoc) -> Result<Head, NoMemory>
    ensures head { IfOk result (λ head. head_of head ≡ head_in raw.now.head) }
    ensures beside { IfOk result (λ head. StandsBeside head.version head.iri) }
{
    Ok(Head {
        iri: copy_of(alloc, &raw.head.iri)?,
        version: version_of(alloc, &raw.head)?,
        imports: copies_of(alloc, &raw.head.imports)?,
    })
}

/// The version IRI, which stands only beside an ontology IRI.
fn version_of(alloc: Global, head: &RawHead) -> Result<Option<Iri>, NoMemory>
    ensures some { IfOk result (λ version. IsSome head.now.iri → version ≡ head.now.version) }
    ensures none { IfOk result (λ version. head.now.iri ≡ None → version ≡ None) }
{
    if head.iri.is_some() {
        copy_of(alloc, &head.version)
    } else {
        Ok(None)
    }
}

/// An equal IRI, where there is one.
fn copy_of(alloc: Global, iri: &Option<Iri>) -> Result<Option<Iri>, NoMemory>
    ensures { IfOk result (λ copy. copy ≡ iri.now) }
{
    match iri {
        Some(iri) => Ok(Some(iri.copy(alloc)?)),
        None => Ok(None),
    }
}

/// Equal IRIs in the same order.
fn copies_of(alloc: Global, iris: &[Iri]) -> Result<Vec<Iri>, NoMemory>
    ensures { IfOk result (λ copies. copies.items ≡ iris.now) }
{
    let mut copies = Vec::with_capacity(alloc, iris.len())?;
    'iris: for iri in iris {
        copies.push(iri.copy(alloc)?).map_err(AllocError::from)?;
    }
    Ok(copies)
}
