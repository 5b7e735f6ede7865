//! Documents with the declarations that they need.

ghost use Rattle.std.specs.Prelude.{◌≡◌, ◌<◌, ◌≤◌, ◌++◌, IfErr, IfOk, IsErrOf, OnErr, OnOk, map};
ghost use Rattle.owl_arena.specs.Held.{AreHeld, trees_at};
ghost use Rattle.owl_arena.specs.Shared.{heaviest};
ghost use Rattle.owl_assembly.specs.declared.fault.AssembleFault.{AssembleFault};
ghost use Rattle.owl_doc.specs.Documents.{ontology_of};
ghost use Rattle.owl_doc.specs.Entities.{AddsAll, AddsSome, AreWellTyped};
ghost use Rattle.owl_declare.specs.Needed.{DeclaresWhole, IsTooHeavy, KnowsSome, KnowsWhole, SharesKinds, declarations, entity_of, named_in, with_needs};
ghost use Rattle.owl_tree.specs.Ontologies.{canonical_ontology, ontology_weight};
ghost use Rattle.rdf_normal.specs.declared.fault.NormFault.{NormFault};
ghost use Rattle.rdf_normal.specs.Makings.{AreMade};

use crate::fault::DeclareFault;
use crate::finding::needed;
use crate::need::Need;
use owl_arena::{Arena, ExprId};
use owl_assembly::{AssembleFault, assemble};
use owl_characters::NoMemory;
use owl_declarations::declaration;
use owl_doc::Doc;
use owl_kind::Kinds;
use rdf_normal::{NormFault, copied};
use std::alloc::{AllocError, Global};

/// The document with the declarations that it needs and the kinds lack, without
/// annotations, and with its prefixes. Afterwards the kinds have these too.
///
/// `TwoKinds` exactly where an IRI has then two kinds that no IRI may share, with the
/// least such IRI in order of bytes, and else `TooHeavy` exactly where the ontology would
/// have more than 2^24 nodes and leaves, unless memory runs out. After a refusal the kinds
/// have what they had, and perhaps some of what is needed.
pub fn declare(alloc: Global, doc: &Doc, kinds: &mut Kinds) -> Result<Doc, DeclareFault>
    ensures declared { IfOk result (λ declared.
        DeclaresWhole kinds.old (ontology_of doc.now) (ontology_of declared)) }
    ensures prefixes { IfOk result (λ declared. declared.prefixes ≡ doc.now.prefixes) }
    ensures typed { IfOk result (λ declared.
        AreWellTyped kinds.new (named_in (ontology_of declared))) }
    ensures kinds { OnOk result (KnowsWhole kinds.old (ontology_of doc.now) kinds.new) }
    ensures two_kinds { IfErr result (SharesKinds kinds.old (ontology_of doc.now)) }
    ensures heavy { IsErrOf result DeclareFault.TooHeavy →
        IsTooHeavy kinds.old (ontology_of doc.now) }
    ensures some { OnErr result (KnowsSome kinds.old (ontology_of doc.now) kinds.new) }
{
    // A document is in canonical form.
    doc.notes();
    let needs = needed(alloc, doc, kinds)?;
    know_all(alloc, &needs, kinds)?;
    if let Some(iri) = kinds.clash() {
        let iri = iri.copy(alloc)?;
        return Err(DeclareFault::TwoKinds { iri });
    }
    Ok(with_needs(alloc, doc, &needs)?)
}

/// Declares the needs, besides what is declared.
fn know_all(alloc: Global, needs: &[Need], kinds: &mut Kinds) -> Result<(), NoMemory>
    ensures ok { OnOk result (AddsAll kinds.old (map entity_of needs.now) kinds.new) }
    ensures err { OnErr result (AddsSome kinds.old (map entity_of needs.now) kinds.new) }
{
    'needs: for need in needs {
        kinds.declare(need.kind, need.iri.copy(alloc)?)?;
    }
    Ok(())
}

/// The axioms, and behind them the declarations of the needs.
fn declare_each(
    alloc: Global,
    arena: &mut Arena,
    needs: &[Need],
    axioms: &[ExprId],
) -> Result<Vec<ExprId>, NormFault>
    requires { AreHeld arena.old.trees axioms.now }
    ensures made { IfOk result (λ made. AreMade arena.old.trees arena.new.trees made.items
        (trees_at arena.old.trees axioms.now ++ declarations (map entity_of needs.now))) }
    ensures memory { IfErr result (λ fault. fault ≡ NormFault.Memory) }
{
    let mut made = Vec::from_slice(alloc, axioms)?;
    'needs: for need in needs {
        let id = declaration(alloc, arena, need.kind, need.iri.copy(alloc)?)?;
        made.push(id).map_err(AllocError::from)?;
    }
    Ok(made)
}

/// The document, which declares the needs too, with its prefixes.
fn with_needs(alloc: Global, doc: &Doc, needs: &[Need]) -> Result<Doc, AssembleFault>
    ensures ontology { IfOk result (λ declared. ontology_of declared
        ≡ canonical_ontology (with_needs (map entity_of needs.now) (ontology_of doc.now))) }
    ensures prefixes { IfOk result (λ declared. declared.prefixes ≡ doc.now.prefixes) }
    ensures light { OnOk result (ontology_weight
        (with_needs (map entity_of needs.now) (ontology_of doc.now)) ≤ heaviest) }
    ensures heavy { IsErrOf result AssembleFault.TooHeavy → heaviest < ontology_weight
        (with_needs (map entity_of needs.now) (ontology_of doc.now)) }
{
    let prefixes = doc.prefixes().copy(alloc)?;
    let head = doc.head().copy(alloc)?;
    let Ok(mut arena) = copied(alloc, doc.arena()) else {
        return Err(AssembleFault::Memory);
    };
    let Ok(axioms) = declare_each(alloc, &mut arena, needs, doc.axioms()) else {
        return Err(AssembleFault::Memory);
    };
    assemble(alloc, prefixes, head, arena, doc.notes(), &axioms)
}
