//! From axioms and annotations to those of the normal form.

ghost use Rattle.std.specs.Prelude.{◌≡◌, ◌<◌, ◌-◌, IfErr, IfOk, length, map};
ghost use Rattle.std.specs.List.{AllByRecursion};
ghost use Rattle.owl_arena.specs.Held.{AreHeld, trees_at};
ghost use Rattle.owl_doc.specs.Documents.{ontology_of};
ghost use Rattle.owl_list.specs.Ascending.{ascending};
ghost use Rattle.owl_tree.specs.Order.{tree_cmp};
ghost use Rattle.rdf_normal.specs.Makings.{AreMade, image};
ghost use Rattle.rdf_normal.specs.Results.{IsSettled, IsUnsettled};
ghost use Rattle.rdf_normal.specs.NormalForms.{needed};
ghost use Rattle.rdf_normal.specs.declared.fault.NormFault.{NormFault};

use crate::fault::NormFault;
use crate::needless::needed;
use crate::own::{annotations, part};
use crate::spreading::spread_all;
use crate::tidying::{images, tidied_all};
use owl_arena::{Arena, ExprId};
use owl_doc::Doc;
use std::alloc::Global;

/// Annotations and axioms behind the third step.
#[derive(Drop)]
pub struct Unsettled {
    pub notes: Vec<ExprId>,
    pub axioms: Vec<ExprId>,
}

/// Annotations and axioms of the normal form, and how many axioms were absorbed.
#[derive(Drop)]
pub struct Settled {
    pub notes: Vec<ExprId>,
    pub axioms: Vec<ExprId>,
    pub absorbed: u64,
}

/// The annotations and axioms of the normal form, over a copy of the document's
/// arena.
pub fn settle_all(alloc: Global, arena: &mut Arena, doc: &Doc) -> Result<Settled, NormFault>
    requires { arena.old.trees ≡ doc.now.arena.trees }
    ensures settled { IfOk result (λ made.
        IsSettled arena.old.trees arena.new.trees (ontology_of doc.now) made) }
    ensures memory { IfErr result (λ fault. fault ≡ NormFault.Memory) }
{
    let unsettled = behind_third(alloc, arena, doc)?;
    let known = tidied_all(alloc, arena)?;
    let notes = settle(alloc, arena, &known, &unsettled.notes)?;
    let axioms = settle(alloc, arena, &known, &unsettled.axioms)?;
    let absorbed = fewer(&unsettled.axioms, &axioms);
    Ok(Settled {
        notes,
        axioms,
        absorbed,
    })
}

/// The annotations and axioms behind the third step.
fn behind_third(alloc: Global, arena: &mut Arena, doc: &Doc) -> Result<Unsettled, NormFault>
    requires { arena.old.trees ≡ doc.now.arena.trees }
    ensures made { IfOk result (λ made.
        IsUnsettled arena.old.trees arena.new.trees (ontology_of doc.now) made) }
    ensures memory { IfErr result (λ fault. fault ≡ NormFault.Memory) }
{
    // What every arena holds is canonical.
    let _trees = arena.distinct();
    let mut spread = spread_all(alloc, arena, doc.axioms())?;
    arena.sort_set(&mut spread);
    let parted = part(alloc, arena, &doc.head().iri, &spread)?;
    let mut notes = annotations(alloc, arena, doc.notes(), &parted.own)?;
    arena.sort_set(&mut notes);
    Ok(Unsettled {
        notes,
        axioms: parted.others,
    })
}

/// Those that are needed of the tidied trees of these numbers.
fn settle(
    alloc: Global,
    arena: &mut Arena,
    known: &[ExprId],
    ids: &[ExprId],
) -> Result<Vec<ExprId>, NormFault>
    requires known { AreHeld arena.old.trees known.now }
    requires ids { AllByRecursion (λ id. id < length known.now) ids.now }
    ensures made { IfOk result (λ made. AreMade arena.old.trees arena.new.trees made.items
        (needed (ascending tree_cmp (trees_at arena.old.trees (map (image known.now) ids.now))))) }
    ensures memory { IfErr result (λ fault. fault ≡ NormFault.Memory) }
{
    let images = images(alloc, known, ids)?;
    needed(alloc, arena, images)
}

/// How many fewer there are behind than before.
fn fewer(before: &[ExprId], behind: &[ExprId]) -> u64
    ensures { result ≡ length before.now - length behind.now }
{
    before.len().saturating_sub(behind.len()) as u64
}
