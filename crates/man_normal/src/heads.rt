//! The names that head the blocks of axioms.

ghost use Rattle.std.specs.Prelude.{◌≡◌, ◌<◌, ◌++◌, IfErr, IfOk, OnOk, length};
ghost use Rattle.std.specs.List.{AllByRecursion, flat_map};
ghost use Rattle.man_resolve.specs.Expressions.{knows};
ghost use Rattle.man_text.specs.Blocks.{declared_name, headed, note_subject};
ghost use Rattle.owl_arena.specs.Held.{AreHeld, tree_at, trees_at};
ghost use Rattle.owl_tree.specs.Ontologies.{IsAxiom};
ghost use Rattle.rdf_normal.specs.declared.fault.NormFault.{NormFault};
ghost use Rattle.rdf_normal.specs.Makings.{AreMade};

use crate::declaring::{declare, declare_iri};
use crate::subjects::subject;
use owl_arena::{Arena, ExprId};
use owl_kind::Kinds;
use owl_tree::{Atom, Tag};
use rdf_normal::NormFault;
use std::alloc::Global;

/// The axioms, and behind them the declarations of the names that head their blocks.
pub fn with_declarations(
    alloc: Global,
    arena: &mut Arena,
    kinds: &Kinds,
    axioms: &[ExprId],
) -> Result<Vec<ExprId>, NormFault>
    requires held { AreHeld arena.old.trees axioms.now }
    requires are_axioms { AllByRecursion IsAxiom (trees_at arena.old.trees axioms.now) }
    ensures made { IfOk result (λ made. AreMade arena.old.trees arena.new.trees made.items
        (trees_at arena.old.trees axioms.now
        ++ flat_map (headed (knows kinds.now)) (trees_at arena.old.trees axioms.now))) }
    ensures memory { IfErr result (λ fault. fault ≡ NormFault.Memory) }
{
    let mut made = Vec::from_slice(alloc, axioms)?;
    'axioms: for id in axioms {
        declare_head(alloc, arena, kinds, *id, &mut made)?;
    }
    Ok(made)
}

/// Puts the declaration of the name that heads the block of the axiom behind the
/// others.
fn declare_head(
    alloc: Global,
    arena: &mut Arena,
    kinds: &Kinds,
    id: ExprId,
    made: &mut Vec<ExprId>,
) -> Result<(), NormFault>
    requires id { id < length arena.old.trees }
    requires is_axiom { IsAxiom (tree_at arena.old.trees id) }
    requires held { AreHeld arena.old.trees made.old.items }
    ensures made { OnOk result (AreMade arena.old.trees arena.new.trees made.new.items
        (trees_at arena.old.trees made.old.items
        ++ headed (knows kinds.now) (tree_at arena.old.trees id))) }
    ensures memory { IfErr result (λ fault. fault ≡ NormFault.Memory) }
{
    // What every arena holds is canonical.
    let _trees = arena.distinct();
    match subject(arena, id) {
        Some(about) if arena.tag(id) == Tag::AnnotationAssertion => {
            declare_annotated(alloc, arena, kinds, about, made)
        }
        Some(name) => declare(alloc, arena, name, made),
        None => Ok(()),
    }
}

/// Puts the declaration of what an annotation is about behind the others, where it
/// is an IRI that has a kind.
fn declare_annotated(
    alloc: Global,
    arena: &mut Arena,
    kinds: &Kinds,
    about: ExprId,
    made: &mut Vec<ExprId>,
) -> Result<(), NormFault>
    requires about { about < length arena.old.trees }
    requires held { AreHeld arena.old.trees made.old.items }
    ensures made { OnOk result (AreMade arena.old.trees arena.new.trees made.new.items
        (trees_at arena.old.trees made.old.items
        ++ declared_name (note_subject (knows kinds.now) (tree_at arena.old.trees about)))) }
    ensures memory { IfErr result (λ fault. fault ≡ NormFault.Memory) }
{
    match arena.atom(about) {
        Some(Atom::Iri(iri)) => {
            let iri = iri.copy(alloc)?;
            declare_iri(alloc, arena, kinds, iri, made)
        }
        _ => declare(alloc, arena, about, made),
    }
}
