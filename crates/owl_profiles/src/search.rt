//! What breaks the rules of the profiles.

ghost use Rattle.std.specs.Prelude.{◌≡◌, IfOk, map};
ghost use Rattle.owl_doc.specs.Documents.{ontology_of};
ghost use Rattle.owl_pool.specs.Pooling.{ArePooled};
ghost use Rattle.owl_profiles.specs.declared.rules.Profile.TheVariants.{El};
ghost use Rattle.owl_profiles.specs.Lacking.{AreTold, MarkLacking};
ghost use Rattle.owl_profiles.specs.Listing.{TellBreaches};

use crate::facts::Facts;
use crate::listing::list_breaches;
use crate::rules::Profile;
use breach_lists::{all_axioms, marks_by_number, pooled_alone};
use owl_arena::Arena;
use owl_characters::NoMemory;
use owl_doc::{Breach, Closure};
use owl_pool::{Pooled, pool};
use profile_sorts::sorts_in;
use range_restrictions::chains_without_ranges;
use std::alloc::Global;

/// Each rule of the profile, but for those of OWL 2 DL, with each axiom of the documents
/// that breaks it (OWL 2 Profiles, sections 2, 3 and 4), in the order of the rules, of
/// the documents, and of their axioms. `NoMemory` comes only where memory runs out, or
/// where several documents hold more than 2^28 trees between them.
pub fn breaches(alloc: Global, closure: &Closure, profile: Profile) -> Result<Vec<Breach>, NoMemory>
    ensures { IfOk result (λ found. TellBreaches profile closure.now found.items) }
{
    if let [doc] = closure.docs() {
        let pooled = pooled_alone(alloc, doc)?;
        return breaches_over(alloc, closure, doc.arena(), &pooled, profile);
    }
    let (arena, pooled) = pool(alloc, closure.docs())?;
    breaches_over(alloc, closure, &arena, &pooled, profile)
}

/// Each rule with each axiom that breaks it, where all trees stand in one arena.
fn breaches_over(
    alloc: Global,
    closure: &Closure,
    arena: &Arena,
    pooled: &[Pooled],
    profile: Profile,
) -> Result<Vec<Breach>, NoMemory>
    requires { ArePooled arena.now.trees (map ontology_of closure.now.documents) pooled.now }
    ensures { IfOk result (λ found. TellBreaches profile closure.now found.items) }
{
    let sets = sorts_in(alloc, arena)?;
    let lacking = lacking_chains(alloc, profile, arena, pooled)?;
    let facts = Facts {
        closure,
        arena,
        pooled,
        sets: &sets,
        lacking: &lacking,
    };
    list_breaches(alloc, &facts, profile.rules())
}

/// For each axiom, by its number, whether it is a chain that lacks a range, where the
/// profile asks for that.
fn lacking_chains(
    alloc: Global,
    profile: Profile,
    arena: &Arena,
    pooled: &[Pooled],
) -> Result<Vec<bool>, NoMemory>
    requires { AreTold arena.now.trees pooled.now }
    ensures { IfOk result (λ marks. profile ≡ El
        → MarkLacking arena.now.trees pooled.now marks.items) }
{
    match profile {
        Profile::El => chain_marks(alloc, arena, pooled),
        Profile::Ql | Profile::Rl => Ok(Vec::new(alloc)),
    }
}

/// For each axiom, by its number, whether it is a chain that lacks a range.
fn chain_marks(alloc: Global, arena: &Arena, pooled: &[Pooled]) -> Result<Vec<bool>, NoMemory>
    requires { AreTold arena.now.trees pooled.now }
    ensures { IfOk result (λ marks. MarkLacking arena.now.trees pooled.now marks.items) }
{
    let axioms = all_axioms(alloc, pooled)?;
    let marks = chains_without_ranges(alloc, arena, &axioms)?;
    Ok(marks_by_number(alloc, arena.distinct(), &axioms, &marks)?)
}
