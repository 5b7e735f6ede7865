//! The list of what breaks rules.

ghost use Rattle.std.specs.Prelude.{◌<◌, [], IfOk, OnOk, length};
ghost use Rattle.std.specs.List.{AllByRecursion};
ghost use Rattle.breach_lists.specs.Adding.{AreAxiomsOf, sites_at};
ghost use Rattle.graph_walks.specs.Marks.{MarkEach};
ghost use Rattle.owl_arena.specs.Held.{trees_at};
ghost use Rattle.owl_breaches.specs.Sites.{sites, sites_from};
ghost use Rattle.owl_doc.specs.Parts.{of_axiom};
ghost use Rattle.owl_tree.specs.Ontologies.{Ontology};
ghost use Rattle.owl_profiles.specs.Facts.{AddsBreaches, AreFactsFor, closure_in};
ghost use Rattle.owl_profiles.specs.Rules.{BreaksIt};

use crate::facts::{Facts, breaks};
use crate::rules::AxiomRule;
use breach_lists::add_parts;
use owl_arena::ExprId;
use owl_characters::NoMemory;
use owl_doc::Breach;
use std::alloc::{AllocError, Global};

/// Each of the rules with each part of the documents that breaks it.
pub fn list_breaches(
    alloc: Global,
    facts: &Facts,
    rules: &[AxiomRule],
) -> Result<Vec<Breach>, NoMemory>
    requires { AllByRecursion (λ rule. AreFactsFor rule facts.now) rules.now }
    ensures { IfOk result (λ found. AddsBreaches facts.now
        (sites rules.now (closure_in facts.now).all) [] found.items) }
{
    let mut found = Vec::new(alloc);
    'rules: for rule in rules {
        add_rule(alloc, facts, *rule, &mut found)?;
    }
    Ok(found)
}

/// Adds each part of the documents that breaks the rule.
fn add_rule(
    alloc: Global,
    facts: &Facts,
    rule: AxiomRule,
    found: &mut Vec<Breach>,
) -> Result<(), NoMemory>
    requires { AreFactsFor rule facts.now }
    ensures { OnOk result (AddsBreaches facts.now
        (sites_from rule 0 (closure_in facts.now).all) found.old.items found.new.items) }
{
    'places: for place in 0..facts.closure.docs().len() {
        add_document(alloc, facts, rule, place, found)?;
    }
    Ok(())
}

/// Adds each axiom of the document in this place that breaks the rule: the header breaks
/// none.
fn add_document(
    alloc: Global,
    facts: &Facts,
    rule: AxiomRule,
    place: usize,
    found: &mut Vec<Breach>,
) -> Result<(), NoMemory>
    requires facts { AreFactsFor rule facts.now }
    requires place { place < length facts.now.closure.now.documents }
    ensures { OnOk result (AddsBreaches facts.now
        (sites_at (closure_in facts.now) rule place) found.old.items found.new.items) }
{
    let doc = &facts.closure.docs()[place];
    let marks = axiom_marks(alloc, facts, rule, facts.pooled[place].axioms())?;
    add_parts(rule.name(), place, false, doc.axioms(), &marks, found)
}

/// For each of these axioms whether it breaks the rule.
fn axiom_marks(
    alloc: Global,
    facts: &Facts,
    rule: AxiomRule,
    axioms: &[ExprId],
) -> Result<Vec<bool>, AllocError>
    requires facts { AreFactsFor rule facts.now }
    requires axioms { AreAxiomsOf facts.now.arena.now.trees facts.now.pooled.now axioms.now }
    ensures { IfOk result (λ marks. (o : Ontology) → MarkEach
        (λ _ t. BreaksIt (closure_in facts.now) rule o (of_axiom t))
        (trees_at facts.now.arena.now.trees axioms.now) marks.items) }
{
    let mut marks = Vec::with_capacity(alloc, axioms.len())?;
    'axioms: for id in axioms {
        marks.push(breaks(facts, rule, *id))?;
    }
    Ok(marks)
}
