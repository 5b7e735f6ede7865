//! The document of a normal form.

ghost use Rattle.std.specs.Prelude.{◌≡◌, ◌<◌, ◌+◌, ◌++◌, ◌↔◌, [], IfErr, IfOk, IsErrOf, OnOk, length};
ghost use Rattle.std.specs.List.{AllByRecursion};
ghost use Rattle.owl_arena.specs.Held.{AreHeld, trees_at};
ghost use Rattle.owl_arena.specs.Shared.{heaviest};
ghost use Rattle.owl_doc.specs.Documents.{ontology_of, total_weight, weight_at, with_head};
ghost use Rattle.owl_list.specs.Ascending.{AreApart};
ghost use Rattle.owl_tree.specs.Ontologies.{IsAnnotation, IsAxiom, canonical_ontology};
ghost use Rattle.rdf_normal.specs.Building.{document_with, with_axioms, with_imports, with_notes};
ghost use Rattle.rdf_normal.specs.declared.fault.NormFault.{NormFault};

use crate::fault::NormFault;
use owl_arena::{Arena, ExprId};
use owl_atom::Iri;
use owl_doc::{AddFault, Builder, Doc};
use std::alloc::Global;

/// A document with the head and prefixes of this one, and with these annotations
/// and axioms. `TooHeavy` exactly where they weigh too much.
pub fn build(
    alloc: Global,
    doc: &Doc,
    arena: Arena,
    notes: &[ExprId],
    axioms: &[ExprId],
) -> Result<Doc, NormFault>
    requires notes { AreHeld arena.trees notes.now × AreApart notes.now }
    requires axioms { AreHeld arena.trees axioms.now × AreApart axioms.now }
    requires are_notes { AllByRecursion IsAnnotation (trees_at arena.trees notes.now) }
    requires are_axioms { AllByRecursion IsAxiom (trees_at arena.trees axioms.now) }
    ensures ontology { IfOk result (λ made. ontology_of made
        ≡ canonical_ontology (ontology_of (document_with doc.now arena notes.now axioms.now))) }
    ensures prefixes { IfOk result (λ made. made.prefixes ≡ doc.now.prefixes) }
    ensures too_heavy { IsErrOf result NormFault.TooHeavy → heaviest
        < weight_at arena.trees notes.now + weight_at arena.trees axioms.now }
{
    let prefixes = doc.prefixes().copy(alloc)?;
    let mut builder = Builder::new(alloc, prefixes, arena);
    let filled = fill(alloc, &mut builder, doc, notes, axioms);
    let built = builder.finish();
    filled?;
    Ok(built)
}

/// Gives the document the head of this one, and annotations and axioms.
fn fill(
    alloc: Global,
    builder: &mut Builder,
    doc: &Doc,
    notes: &[ExprId],
    axioms: &[ExprId],
) -> Result<(), NormFault>
    requires notes { AreHeld builder.old.arena.trees notes.now × AreApart notes.now }
    requires axioms { AreHeld builder.old.arena.trees axioms.now × AreApart axioms.now }
    requires are_notes { AllByRecursion IsAnnotation (trees_at builder.old.arena.trees notes.now) }
    requires are_axioms { AllByRecursion IsAxiom (trees_at builder.old.arena.trees axioms.now) }
    requires empty { (builder.old.notes ≡ []) × (builder.old.axioms ≡ []) }
    requires no_imports { builder.old.head.imports ≡ [] }
    ensures filled { OnOk result (builder.new
        ≡ with_axioms axioms.now (with_notes notes.now (with_head doc.now.head builder.old))) }
    ensures too_heavy { IsErrOf result NormFault.TooHeavy → heaviest
        < weight_at builder.old.arena.trees notes.now
        + weight_at builder.old.arena.trees axioms.now }
{
    set_head(alloc, builder, doc)?;
    add_notes(builder, notes)?;
    add_axioms(builder, axioms)
}

/// Gives the document the head of this one.
fn set_head(alloc: Global, builder: &mut Builder, doc: &Doc) -> Result<(), NormFault>
    requires { builder.old.head.imports ≡ [] }
    ensures head { OnOk result (builder.new ≡ with_head doc.now.head builder.old) }
    ensures memory { IfErr result (λ fault. fault ≡ NormFault.Memory) }
{
    let head = doc.head().copy(alloc)?;
    builder.head(head.iri, head.version);
    add_imports(alloc, builder, &doc.head().imports)
}

/// Imports what is called so.
fn add_imports(alloc: Global, builder: &mut Builder, iris: &[Iri]) -> Result<(), NormFault>
    requires { builder.old.head.imports ≡ [] }
    ensures imports { OnOk result (builder.new ≡ with_imports iris.now builder.old) }
    ensures memory { IfErr result (λ fault. fault ≡ NormFault.Memory) }
{
    'iris: for iri in iris {
        let copy = iri.copy(alloc)?;
        builder.import(copy)?;
    }
    Ok(())
}

/// Adds these annotations.
fn add_notes(builder: &mut Builder, ids: &[ExprId]) -> Result<(), NormFault>
    requires held { AreHeld builder.old.arena.trees ids.now }
    requires are_notes { AllByRecursion IsAnnotation (trees_at builder.old.arena.trees ids.now) }
    requires apart { AreApart ids.now }
    requires empty { builder.old.notes ≡ [] }
    ensures added { OnOk result (builder.new ≡ with_notes ids.now builder.old) }
    ensures too_heavy { IsErrOf result NormFault.TooHeavy
        → heaviest < total_weight builder.old + weight_at builder.old.arena.trees ids.now }
{
    'ids: for id in ids {
        match builder.annotate(*id) {
            Ok(_new) => {}
            Err(AddFault::TooHeavy) => return Err(NormFault::TooHeavy),
            Err(AddFault::Memory) => return Err(NormFault::Memory),
            Err(AddFault::WrongTag) => unreachable!(),
        }
    }
    Ok(())
}

/// Adds these axioms.
fn add_axioms(builder: &mut Builder, ids: &[ExprId]) -> Result<(), NormFault>
    requires held { AreHeld builder.old.arena.trees ids.now }
    requires are_axioms { AllByRecursion IsAxiom (trees_at builder.old.arena.trees ids.now) }
    requires apart { AreApart ids.now }
    requires empty { builder.old.axioms ≡ [] }
    ensures added { OnOk result (builder.new ≡ with_axioms ids.now builder.old) }
    ensures too_heavy { IsErrOf result NormFault.TooHeavy
        → heaviest < total_weight builder.old + weight_at builder.old.arena.trees ids.now }
{
    'ids: for id in ids {
        match builder.add(*id) {
            Ok(_new) => {}
            Err(AddFault::TooHeavy) => return Err(NormFault::TooHeavy),
            Err(AddFault::Memory) => return Err(NormFault::Memory),
            Err(AddFault::WrongTag) => unreachable!(),
        }
    }
    Ok(())
}
