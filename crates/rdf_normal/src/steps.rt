//! The four steps.

ghost use Rattle.std.specs.Prelude.{◌≡◌, ◌<◌, ◌≤◌, IfErr, IfOk, IsErrOf, OnOk};
ghost use Rattle.std.specs.List.{AllByRecursion};
ghost use Rattle.owl_arena.specs.Held.{AreHeld, trees_at};
ghost use Rattle.owl_arena.specs.Shared.{heaviest};
ghost use Rattle.owl_doc.specs.Documents.{ontology_of};
ghost use Rattle.owl_tree.specs.Ontologies.{ontology_weight};
ghost use Rattle.rdf_normal.specs.NormalForms.{absorbed_count, normal_form};
ghost use Rattle.rdf_normal.specs.declared.fault.NormFault.{NormFault};

use crate::build::build;
use crate::copies::copied;
use crate::fault::NormFault;
use crate::settling::settle_all;
use owl_doc::Doc;
use std::alloc::Global;

/// The normal form of the document, with its prefixes, and how many axioms are
/// absorbed: bare ones that stand beside an annotated one, and those that only
/// annotations of annotations told apart (Mapping to RDF Graphs, section 2).
///
/// `TooHeavy` exactly where the normal form has more than 2^24 nodes and leaves,
/// unless memory runs out.
pub fn normal(alloc: Global, doc: &Doc) -> Result<(Doc, u64), NormFault>
    ensures form { IfOk result (λ made. ontology_of made.0 ≡ normal_form (ontology_of doc.now)) }
    ensures prefixes { IfOk result (λ made. made.0.prefixes ≡ doc.now.prefixes) }
    ensures absorbed { IfOk result (λ made. made.1 ≡ absorbed_count (ontology_of doc.now)) }
    ensures light { OnOk result (ontology_weight (normal_form (ontology_of doc.now)) ≤ heaviest) }
    ensures too_heavy { IsErrOf result NormFault.TooHeavy
        → heaviest < ontology_weight (normal_form (ontology_of doc.now)) }
{
    // A document is in canonical form.
    let _document = doc.axioms();
    let mut arena = copied(alloc, doc.arena())?;
    let settled = settle_all(alloc, &mut arena, doc)?;
    // What every arena holds is canonical.
    let _trees = arena.distinct();
    let made = build(alloc, doc, arena, &settled.notes, &settled.axioms)?;
    // A document is not too heavy.
    let _axioms = made.axioms();
    Ok((made, settled.absorbed))
}
