//! What the documents of a closure say, by numbers.

ghost use Rattle.std.specs.Prelude.{◌≡◌, ◌∷◌, [], IfOk};
ghost use Rattle.std.specs.List.{flat_map};
ghost use Rattle.owl_doc.specs.Documents.{ontology_of};
ghost use Rattle.owl_pool.specs.Pooling.{ArePooled};

use owl_arena::ExprId;
use owl_characters::NoMemory;
use owl_doc::Doc;
use owl_pool::Pooled;
use std::alloc::{AllocError, Global};

/// What a document says, by the numbers in its own arena.
pub fn pooled_alone(alloc: Global, doc: &Doc) -> Result<Vec<Pooled>, NoMemory>
    ensures { IfOk result (λ pooled.
        ArePooled doc.now.arena.trees (ontology_of doc.now ∷ []) pooled.items) }
{
    let mut pooled = Vec::new(alloc);
    pooled
        .push(Pooled::of(alloc, doc)?)
        .map_err(AllocError::from)?;
    Ok(pooled)
}

/// The axioms of all documents.
pub fn all_axioms(alloc: Global, pooled: &[Pooled]) -> Result<Vec<ExprId>, AllocError>
    ensures { IfOk result (λ axioms. axioms.items ≡ flat_map (λ n. n.axioms) pooled.now) }
{
    let mut axioms = Vec::new(alloc);
    'documents: for document in pooled {
        axioms.extend_from_slice(document.axioms())?;
    }
    Ok(axioms)
}
