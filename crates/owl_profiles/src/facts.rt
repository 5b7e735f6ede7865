//! Whether an axiom breaks a rule.

ghost use Rattle.std.specs.Prelude.{◌↔◌, ◌<◌, IsTrue, length};
ghost use Rattle.breach_lists.specs.Marks.{IsAxiomOf};
ghost use Rattle.owl_arena.specs.Held.{tree_at};
ghost use Rattle.owl_doc.specs.Parts.{of_axiom};
ghost use Rattle.owl_tree.specs.Ontologies.{Ontology};
ghost use Rattle.owl_profiles.specs.Facts.{AreFactsFor, closure_in};
ghost use Rattle.owl_profiles.specs.Rules.{BreaksIt};

use crate::rules::AxiomRule;
use graph_walks::has_mark;
use owl_arena::{Arena, ExprId};
use owl_doc::Closure;
use owl_pool::Pooled;
use profile_sorts::{SortSet, set_at};

/// What is known of an import closure, whose trees stand in one arena.
#[derive(Clone, Copy, Debug)]
pub struct Facts<'a> {
    pub closure: &'a Closure,
    pub arena: &'a Arena,
    /// What each document says.
    pub pooled: &'a [Pooled],
    /// For each tree the sorts that it is of.
    pub sets: &'a [SortSet],
    /// For each axiom, by its number, whether it is a chain that lacks a range. It is
    /// left out where no rule asks for it.
    pub lacking: &'a [bool],
}

/// Whether the axiom breaks the rule.
pub fn breaks(facts: &Facts, rule: AxiomRule, id: ExprId) -> bool
    requires facts { AreFactsFor rule facts.now }
    requires axiom { IsAxiomOf facts.now.pooled.now id }
    requires held { id < length facts.now.arena.now.trees }
    ensures { (o : Ontology) → IsTrue result
        ↔ BreaksIt (closure_in facts.now) rule o (of_axiom (tree_at facts.now.arena.now.trees id)) }
{
    match rule {
        AxiomRule::Sort(_, sort) => !set_at(facts.sets, id).has(sort),
        AxiomRule::ChainRanges => has_mark(facts.lacking, id.place()),
    }
}
