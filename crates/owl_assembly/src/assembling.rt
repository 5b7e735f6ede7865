//! Documents from a head and from the numbers of their annotations and axioms.

ghost use Rattle.std.specs.Prelude.{◌≡◌, ◌<◌, ◌≤◌, [], IfErr, IfOk, IsErrOf, OnOk};
ghost use Rattle.owl_arena.specs.Held.{AreHeld, trees_at};
ghost use Rattle.owl_arena.specs.Shared.{heaviest};
ghost use Rattle.owl_assembly.specs.Assembled.{assembled};
ghost use Rattle.owl_assembly.specs.Filling.{AreAnnotations, AreAxioms, HasAxioms, HasNotes, IsFilled, with_axioms, with_imports, with_notes};
ghost use Rattle.owl_assembly.specs.declared.fault.AssembleFault.{AssembleFault};
ghost use Rattle.owl_doc.specs.Documents.{nothing_yet, ontology_of};
ghost use Rattle.owl_doc.specs.Heads.{StandsBeside};
ghost use Rattle.owl_tree.specs.Ontologies.{canonical_ontology, ontology_weight};

use crate::fault::AssembleFault;
use owl_arena::{Arena, ExprId};
use owl_atom::{Iri, Prefixes};
use owl_doc::{AddFault, Builder, Doc, Head};
use std::alloc::Global;

/// The document with these prefixes, this head, and the annotations and axioms
/// that have these numbers in the arena, each once (Structural Specification,
/// section 3).
///
/// `TooHeavy` where together they have more than 2^24 nodes and leaves.
pub fn assemble(
    alloc: Global,
    prefixes: Prefixes,
    head: Head,
    arena: Arena,
    annotations: &[ExprId],
    axioms: &[ExprId],
) -> Result<Doc, AssembleFault>
    requires annotations { AreHeld arena.trees annotations.now }
    requires axioms { AreHeld arena.trees axioms.now }
    requires are_annotations { AreAnnotations (trees_at arena.trees annotations.now) }
    requires are_axioms { AreAxioms (trees_at arena.trees axioms.now) }
    requires head { StandsBeside head.version head.iri }
    ensures ontology { IfOk result (λ doc. ontology_of doc
        ≡ canonical_ontology (assembled head arena.trees annotations.now axioms.now)) }
    ensures prefixes { IfOk result (λ doc. doc.prefixes ≡ prefixes) }
    ensures heavy { IsErrOf result AssembleFault.TooHeavy
        → heaviest < ontology_weight (assembled head arena.trees annotations.now axioms.now) }
    ensures light { OnOk result
        (ontology_weight (assembled head arena.trees annotations.now axioms.now) ≤ heaviest) }
{
    let mut builder = Builder::new(alloc, prefixes, arena);
    let filled = fill(&mut builder, head, annotations, axioms);
    let doc = builder.finish_by_ranks(alloc);
    // No document is too heavy.
    let _light = doc.axioms();
    filled?;
    Ok(doc)
}

/// Gives the document this head, and these annotations and axioms.
fn fill(
    builder: &mut Builder,
    head: Head,
    annotations: &[ExprId],
    axioms: &[ExprId],
) -> Result<(), AssembleFault>
    requires annotations { AreHeld builder.old.arena.trees annotations.now }
    requires axioms { AreHeld builder.old.arena.trees axioms.now }
    requires are_annotations { AreAnnotations
        (trees_at builder.old.arena.trees annotations.now) }
    requires are_axioms { AreAxioms (trees_at builder.old.arena.trees axioms.now) }
    requires head { StandsBeside head.version head.iri }
    requires empty { builder.old ≡ nothing_yet builder.old.prefixes builder.old.arena }
    ensures filled { OnOk result (IsFilled builder.old
        (assembled head builder.old.arena.trees annotations.now axioms.now) builder.new) }
    ensures heavy { IsErrOf result AssembleFault.TooHeavy → heaviest < ontology_weight
        (assembled head builder.old.arena.trees annotations.now axioms.now) }
{
    builder.head(head.iri, head.version);
    import_all(builder, head.imports)?;
    annotate_all(builder, annotations)?;
    add_all(builder, axioms)
}

/// Imports what is called so.
fn import_all(builder: &mut Builder, iris: Vec<Iri>) -> Result<(), AssembleFault>
    requires { builder.old.head.imports ≡ [] }
    ensures imports { OnOk result (builder.new ≡ with_imports iris.items builder.old) }
    ensures memory { IfErr result (λ fault. fault ≡ AssembleFault.Memory) }
{
    'iris: for iri in iris {
        builder.import(iri)?;
    }
    Ok(())
}

/// Adds these annotations, each once.
fn annotate_all(builder: &mut Builder, ids: &[ExprId]) -> Result<(), AssembleFault>
    requires held { AreHeld builder.old.arena.trees ids.now }
    requires are_annotations { AreAnnotations (trees_at builder.old.arena.trees ids.now) }
    requires empty { builder.old.notes ≡ [] }
    ensures added { OnOk result (HasNotes builder.old ids.now builder.new) }
    ensures heavy { IsErrOf result AssembleFault.TooHeavy
        → heaviest < ontology_weight (ontology_of (with_notes ids.now builder.old)) }
{
    'ids: for id in ids {
        // Equal trees have one number.
        let _trees = builder.arena().distinct();
        match builder.annotate(*id) {
            Ok(_new) => {}
            Err(AddFault::TooHeavy) => return Err(AssembleFault::TooHeavy),
            Err(AddFault::Memory) => return Err(AssembleFault::Memory),
            Err(AddFault::WrongTag) => unreachable!(),
        }
    }
    Ok(())
}

/// Adds these axioms, each once.
fn add_all(builder: &mut Builder, ids: &[ExprId]) -> Result<(), AssembleFault>
    requires held { AreHeld builder.old.arena.trees ids.now }
    requires are_axioms { AreAxioms (trees_at builder.old.arena.trees ids.now) }
    requires empty { builder.old.axioms ≡ [] }
    ensures added { OnOk result (HasAxioms builder.old ids.now builder.new) }
    ensures heavy { IsErrOf result AssembleFault.TooHeavy
        → heaviest < ontology_weight (ontology_of (with_axioms ids.now builder.old)) }
{
    'ids: for id in ids {
        // Equal trees have one number.
        let _trees = builder.arena().distinct();
        match builder.add(*id) {
            Ok(_new) => {}
            Err(AddFault::TooHeavy) => return Err(AssembleFault::TooHeavy),
            Err(AddFault::Memory) => return Err(AssembleFault::Memory),
            Err(AddFault::WrongTag) => unreachable!(),
        }
    }
    Ok(())
}
