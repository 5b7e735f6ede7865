//! What breaks the rules of OWL 2 DL.

ghost use Rattle.std.specs.Prelude.{IfOk, map};
ghost use Rattle.owl_doc.specs.Documents.{ontology_of};
ghost use Rattle.owl_pool.specs.Pooling.{ArePooled};
ghost use Rattle.owl_dl.specs.Listing.{TellBreaches};

use crate::facts::Facts;
use crate::listing::list_breaches;
use breach_lists::{all_axioms, marks_by_number, pooled_alone};
use dl_graphs::{cyclic_definitions, misused_datatypes};
use dl_local::local_faults;
use owl_arena::Arena;
use owl_characters::NoMemory;
use owl_doc::{Breach, Closure};
use owl_pool::{Pooled, pool};
use property_hierarchy::{broken_chains, composite_properties};
use std::alloc::Global;

/// Each rule of OWL 2 DL with each part of the documents that breaks it
/// (Structural Specification, sections 3 and 11), in the order of the rules, of
/// the documents, and of their parts, the header before the axioms in canonical
/// order. `NoMemory` comes only where memory runs out, or where several documents
/// hold more than 2^28 trees between them.
///
/// The time grows with what the documents hold, and for each pair of a chain that
/// may be part of a fault of the order with the number of properties again.
pub fn breaches(alloc: Global, closure: &Closure) -> Result<Vec<Breach>, NoMemory>
    ensures { IfOk result (λ found. TellBreaches closure.now found.items) }
{
    if let [doc] = closure.docs() {
        let pooled = pooled_alone(alloc, doc)?;
        return breaches_over(alloc, closure, doc.arena(), &pooled);
    }
    let (arena, pooled) = pool(alloc, closure.docs())?;
    breaches_over(alloc, closure, &arena, &pooled)
}

/// Each rule with each part that breaks it, where all trees stand in one arena.
fn breaches_over(
    alloc: Global,
    closure: &Closure,
    arena: &Arena,
    pooled: &[Pooled],
) -> Result<Vec<Breach>, NoMemory>
    requires { ArePooled arena.now.trees (map ontology_of closure.now.documents) pooled.now }
    ensures { IfOk result (λ found. TellBreaches closure.now found.items) }
{
    let axioms = all_axioms(alloc, pooled)?;
    let misused = misused_datatypes(alloc, arena, &axioms)?;
    let composite = composite_properties(alloc, arena, &axioms)?;
    let local = local_faults(alloc, arena, closure.kinds(), &misused, &composite)?;
    let cyclic = cyclic_definitions(alloc, arena, &axioms)?;
    let broken = broken_chains(alloc, arena, &axioms)?;
    let cyclic = marks_by_number(alloc, arena.distinct(), &axioms, &cyclic)?;
    let broken = marks_by_number(alloc, arena.distinct(), &axioms, &broken)?;
    let facts = Facts {
        closure,
        arena,
        pooled,
        local: &local,
        cyclic: &cyclic,
        broken: &broken,
    };
    list_breaches(alloc, &facts)
}
