//! What is read of bytes: ontologies.

ghost use Rattle.std.specs.Prelude.{◌≡◌, ◌++◌, ◌<◌, ◌≤◌, ◌↔◌, ◌∷◌, [], ℕ, List, IfErr, IfOk, IfSome, IsTrue, OnOk, length};
ghost use Rattle.std.specs.List.{AllByRecursion};
ghost use Rattle.owl_arena.specs.Held.{AreHeld, tree_at, trees_at};
ghost use Rattle.owl_arena.specs.Shared.{heaviest};
ghost use Rattle.owl_assembly.specs.Assembled.{assembled};
ghost use Rattle.owl_assembly.specs.Filling.{AreAnnotations, AreAxioms};
ghost use Rattle.owl_atom.specs.Prefixes.{fixed_prefixes};
ghost use Rattle.owl_canon.specs.Bytes.{counted, ontology_bytes, optional_bytes, text_bytes};
ghost use Rattle.owl_canon.specs.Inputs.{Finds};
ghost use Rattle.owl_canon.specs.Limits.{AreFew, HasBytes, IsText, IsWithinLimits};
ghost use Rattle.owl_characters.specs.Iri.{IsIri};
ghost use Rattle.owl_doc.specs.Documents.{ontology_of};
ghost use Rattle.owl_doc.specs.Heads.{StandsBeside, head_of, iri_in, version_in};
ghost use Rattle.owl_canon.specs.declared.fault.CanonFault.{CanonFault};
ghost use Rattle.owl_tree.specs.Trees.{tag_of};
ghost use Rattle.owl_tree.specs.declared.tag.Tag.TheVariants as tag;
ghost use Rattle.owl_tree.specs.Ontologies.{IsHead, IsOntology, Ontology, canonical_ontology, ontology_weight};

use crate::fault::CanonFault;
use crate::input::Input;
use crate::terms::{read_iri, read_optional_iri};
use crate::trees::read_trees;
use owl_arena::{Arena, DEEPEST, ExprId};
use owl_assembly::{AssembleFault, assemble};
use owl_atom::{Iri, Prefixes};
use owl_doc::{Doc, Head};
use owl_tree::Tag;
use std::alloc::Global;

/// The document that the bytes tell, if they are canonical. Whether they are is
/// not known yet.
pub fn read_document(alloc: Global, bytes: &[u8]) -> Result<Doc, CanonFault>
    ensures prefixes { IfOk result (λ doc. doc.prefixes ≡ fixed_prefixes) }
    ensures found { (o : Ontology) → IsWithinLimits o → canonical_ontology o ≡ o →
        bytes.now ≡ ontology_bytes o → Finds result (λ doc. ontology_of doc ≡ o) }
{
    let mut input = Input::new(bytes);
    input.begin()?;
    let head = read_head(alloc, &mut input)?;
    let mut arena = Arena::new(alloc);
    let notes = read_trees(alloc, &mut input, &mut arena, DEEPEST)?;
    let axioms = read_trees(alloc, &mut input, &mut arena, DEEPEST)?;
    document_of(alloc, head, arena, &notes, &axioms)
}

/// How an ontology is called, and what it imports.
fn read_head(alloc: Global, input: &mut Input) -> Result<Head, CanonFault>
    ensures beside { IfOk result (λ head. StandsBeside head.version head.iri) }
    ensures found { (o : Ontology) (more : List ℕ) → IsHead o.head → HasBytes o →
        input.old.rest.now ≡ optional_bytes (iri_in o.head.name)
        ++ (optional_bytes (version_in o.head.name)
        ++ (counted text_bytes o.head.imports ++ more)) →
        Finds result (λ head. (head_of head ≡ o.head) × (input.new.rest.now ≡ more)) }
{
    let iri = read_optional_iri(alloc, input)?;
    let version = read_optional_iri(alloc, input)?;
    let imports = read_imports(alloc, input)?;
    if version.is_some() && iri.is_none() {
        return Err(CanonFault::NotCanon);
    }
    Ok(Head {
        iri,
        version,
        imports,
    })
}

/// How many IRIs there are, and each.
fn read_imports(alloc: Global, input: &mut Input) -> Result<Vec<Iri>, CanonFault>
    ensures { (iris : List (List ℕ)) (more : List ℕ) → AllByRecursion IsIri iris →
        AreFew IsText iris → input.old.rest.now ≡ counted text_bytes iris ++ more →
        Finds result (λ found. (found.items ≡ iris) × (input.new.rest.now ≡ more)) }
{
    let count = input.number()?;
    let mut iris = Vec::new(alloc);
    'iris: for _iri in 0..count {
        let iri = read_iri(alloc, input)?;
        push(&mut iris, iri)?;
    }
    Ok(iris)
}

/// Puts the IRI behind the others.
fn push(iris: &mut Vec<Iri>, iri: Iri) -> Result<(), CanonFault>
    ensures pushed { OnOk result (iris.new.items ≡ iris.old.items ++ iri ∷ []) }
    ensures memory { IfErr result (λ fault. fault ≡ CanonFault.Memory) }
{
    match iris.push(iri) {
        Ok(()) => Ok(()),
        Err(_full) => Err(CanonFault::Memory),
    }
}

/// The document of these parts.
fn document_of(
    alloc: Global,
    head: Head,
    arena: Arena,
    notes: &[ExprId],
    axioms: &[ExprId],
) -> Result<Doc, CanonFault>
    requires notes { AreHeld arena.trees notes.now }
    requires axioms { AreHeld arena.trees axioms.now }
    requires head { StandsBeside head.version head.iri }
    ensures prefixes { IfOk result (λ doc. doc.prefixes ≡ fixed_prefixes) }
    ensures found { IsOntology (assembled head arena.trees notes.now axioms.now) →
        ontology_weight (assembled head arena.trees notes.now axioms.now) ≤ heaviest →
        Finds result (λ doc. ontology_of doc
        ≡ canonical_ontology (assembled head arena.trees notes.now axioms.now)) }
{
    if !are_annotations(&arena, notes) {
        return Err(CanonFault::NotCanon);
    }
    if !are_axioms(&arena, axioms) {
        return Err(CanonFault::NotCanon);
    }
    let prefixes = Prefixes::fixed(alloc)?;
    match assemble(alloc, prefixes, head, arena, notes, axioms) {
        Ok(doc) => Ok(doc),
        Err(AssembleFault::TooHeavy) => Err(CanonFault::NotCanon),
        Err(AssembleFault::Memory) => Err(CanonFault::Memory),
    }
}

/// Whether these are annotations.
fn are_annotations(arena: &Arena, ids: &[ExprId]) -> bool
    requires { AreHeld arena.now.trees ids.now }
    ensures { IsTrue result ↔ AreAnnotations (trees_at arena.now.trees ids.now) }
{
    'ids: for id in ids {
        if !is_annotation(arena, *id) {
            return false;
        }
    }
    true
}

/// Whether this is an annotation.
fn is_annotation(arena: &Arena, id: ExprId) -> bool
    requires { id < length arena.now.trees }
    ensures { IsTrue result ↔ (tag_of (tree_at arena.now.trees id) ≡ tag.Annotation) }
{
    arena.tag(id) == Tag::Annotation
}

/// Whether these are axioms.
fn are_axioms(arena: &Arena, ids: &[ExprId]) -> bool
    requires { AreHeld arena.now.trees ids.now }
    ensures { IsTrue result ↔ AreAxioms (trees_at arena.now.trees ids.now) }
{
    'ids: for id in ids {
        if !arena.tag(*id).is_axiom() {
            return false;
        }
    }
    true
}
