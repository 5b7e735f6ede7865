//! Documents in normal form.

ghost use Rattle.std.specs.Prelude.{◌≡◌, ◌<◌, ◌≤◌, IfOk, IsErrOf, OnOk};
ghost use Rattle.man_resolve.specs.Expressions.{knows};
ghost use Rattle.man_text.specs.Blocks.{normal_form};
ghost use Rattle.owl_arena.specs.Shared.{heaviest};
ghost use Rattle.owl_assembly.specs.declared.fault.AssembleFault.{AssembleFault};
ghost use Rattle.owl_doc.specs.Documents.{ontology_of};
ghost use Rattle.owl_tree.specs.Ontologies.{canonical_ontology, ontology_weight};
ghost use Rattle.rdf_normal.specs.declared.fault.NormFault.{NormFault};

use crate::heads::with_declarations;
use owl_assembly::{AssembleFault, assemble};
use owl_doc::Doc;
use owl_kind::Kinds;
use rdf_normal::{NormFault, copied};
use std::alloc::Global;

/// The normal form of the document for Manchester Syntax, with its prefixes: with
/// the declaration of each name that heads the block of an axiom, where a frame
/// names what it is of (section 2.5). An IRI that annotations are of is named by
/// these kinds.
///
/// `TooHeavy` exactly where the normal form has more than 2^24 nodes and leaves,
/// unless memory runs out.
pub fn normal(alloc: Global, doc: &Doc, kinds: &Kinds) -> Result<Doc, NormFault>
    ensures ontology { IfOk result (λ form. ontology_of form
        ≡ canonical_ontology (normal_form (knows kinds.now) (ontology_of doc.now))) }
    ensures prefixes { IfOk result (λ form. form.prefixes ≡ doc.now.prefixes) }
    ensures light { OnOk result
        (ontology_weight (normal_form (knows kinds.now) (ontology_of doc.now)) ≤ heaviest) }
    ensures too_heavy { IsErrOf result NormFault.TooHeavy → heaviest
        < ontology_weight (normal_form (knows kinds.now) (ontology_of doc.now)) }
{
    let prefixes = doc.prefixes().copy(alloc)?;
    let head = doc.head().copy(alloc)?;
    let mut arena = copied(alloc, doc.arena())?;
    let axioms = with_declarations(alloc, &mut arena, kinds, doc.axioms())?;
    match assemble(alloc, prefixes, head, arena, doc.notes(), &axioms) {
        Ok(form) => Ok(form),
        Err(AssembleFault::TooHeavy) => Err(NormFault::TooHeavy),
        Err(AssembleFault::Memory) => Err(NormFault::Memory),
    }
}
