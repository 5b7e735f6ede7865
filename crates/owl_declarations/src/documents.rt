//! Documents with more declarations.

ghost use Rattle.std.specs.Prelude.{◌≡◌, ◌<◌, ◌≤◌, IfOk, IsErrOf, OnOk};
ghost use Rattle.owl_arena.specs.Shared.{heaviest};
ghost use Rattle.owl_assembly.specs.declared.fault.AssembleFault.{AssembleFault};
ghost use Rattle.owl_declarations.specs.Declarations.{with_declarations};
ghost use Rattle.owl_doc.specs.Documents.{ontology_of};
ghost use Rattle.owl_tree.specs.Ontologies.{canonical_ontology, ontology_weight};

use crate::declaring::declare_all;
use owl_assembly::{AssembleFault, assemble};
use owl_atom::Iri;
use owl_doc::Doc;
use owl_kind::Kind;
use rdf_normal::copied;
use std::alloc::Global;

/// The document, which declares these IRIs as this kind too, without annotations,
/// with its prefixes.
///
/// `TooHeavy` exactly where it has more than 2^24 nodes and leaves with them, unless
/// memory runs out.
pub fn with_declarations(
    alloc: Global,
    doc: &Doc,
    kind: Kind,
    iris: &[Iri],
) -> Result<Doc, AssembleFault>
    ensures ontology { IfOk result (λ declaring. ontology_of declaring
        ≡ canonical_ontology (with_declarations kind iris.now (ontology_of doc.now))) }
    ensures prefixes { IfOk result (λ declaring. declaring.prefixes ≡ doc.now.prefixes) }
    ensures light { OnOk result
        (ontology_weight (with_declarations kind iris.now (ontology_of doc.now)) ≤ heaviest) }
    ensures heavy { IsErrOf result AssembleFault.TooHeavy → heaviest
        < ontology_weight (with_declarations kind iris.now (ontology_of doc.now)) }
{
    let prefixes = doc.prefixes().copy(alloc)?;
    let head = doc.head().copy(alloc)?;
    let Ok(mut arena) = copied(alloc, doc.arena()) else {
        return Err(AssembleFault::Memory);
    };
    let Ok(axioms) = declare_all(alloc, &mut arena, kind, iris, doc.axioms()) else {
        return Err(AssembleFault::Memory);
    };
    assemble(alloc, prefixes, head, arena, doc.notes(), &axioms)
}
