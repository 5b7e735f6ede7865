//! The list of what breaks rules.

ghost use Rattle.std.specs.Prelude.{◌≡◌, ◌<◌, [], IfOk, OnOk, length};
ghost use Rattle.dl_rules.specs.Rules.{Breaks, dl_name, dl_rules};
ghost use Rattle.graph_walks.specs.Marks.{MarkEach};
ghost use Rattle.dl_rules.specs.declared.rule.DlRule.TheVariants as dl;
ghost use Rattle.owl_arena.specs.Held.{trees_at};
ghost use Rattle.owl_breaches.specs.Sites.{sites, sites_from};
ghost use Rattle.owl_doc.specs.Parts.{of_axiom};
ghost use Rattle.owl_tree.specs.Ontologies.{Ontology};
ghost use Rattle.breach_lists.specs.Adding.{AreAxiomsOf, sites_at};
ghost use Rattle.owl_dl.specs.Facts.{AddsBreaches, AreFacts, closure_in};

use crate::facts::{Facts, breaks_in_axiom, breaks_in_header};
use breach_lists::add_parts;
use dl_graphs::ring_assertions;
use dl_rules::DlRule;
use owl_arena::ExprId;
use owl_characters::NoMemory;
use owl_doc::{Breach, Rule};
use std::alloc::{AllocError, Global};

/// The rules in the order of their numbers.
const RULES: [DlRule; 13] = [
    DlRule::Typing,
    DlRule::Clash,
    DlRule::ReservedName,
    DlRule::Datatypes,
    DlRule::DatatypeOrder,
    DlRule::LexicalForms,
    DlRule::DataRanges,
    DlRule::TopDataProperty,
    DlRule::SimpleProperties,
    DlRule::Hierarchy,
    DlRule::NamedIndividuals,
    DlRule::Forest,
    DlRule::OntologyIri,
];

/// Each rule with each part of the documents that breaks it.
pub fn list_breaches(alloc: Global, facts: &Facts) -> Result<Vec<Breach>, NoMemory>
    requires { AreFacts facts.now }
    ensures { IfOk result (λ found. AddsBreaches facts.now
        (sites dl_rules (closure_in facts.now).all) [] found.items) }
{
    let mut found = Vec::new(alloc);
    'rules: for rule in &RULES {
        add_rule(alloc, facts, *rule, &mut found)?;
    }
    Ok(found)
}

/// Adds each part of the documents that breaks the rule.
fn add_rule(
    alloc: Global,
    facts: &Facts,
    rule: DlRule,
    found: &mut Vec<Breach>,
) -> Result<(), NoMemory>
    requires { AreFacts facts.now }
    ensures { OnOk result (AddsBreaches facts.now
        (sites_from rule 0 (closure_in facts.now).all) found.old.items found.new.items) }
{
    'places: for place in 0..facts.closure.docs().len() {
        add_document(alloc, facts, rule, place, found)?;
    }
    Ok(())
}

/// Adds each part of the document in this place that breaks the rule.
fn add_document(
    alloc: Global,
    facts: &Facts,
    rule: DlRule,
    place: usize,
    found: &mut Vec<Breach>,
) -> Result<(), NoMemory>
    requires facts { AreFacts facts.now }
    requires place { place < length facts.now.closure.now.documents }
    ensures { OnOk result (AddsBreaches facts.now
        (sites_at (closure_in facts.now) rule place) found.old.items found.new.items) }
{
    let doc = &facts.closure.docs()[place];
    let pooled = &facts.pooled[place];
    let header_breaks = breaks_in_header(facts, rule, doc.head(), pooled.notes());
    let marks = axiom_marks(alloc, facts, rule, pooled.axioms())?;
    add_parts(
        numbered(rule),
        place,
        header_breaks,
        doc.axioms(),
        &marks,
        found,
    )
}

/// For each of these axioms of one document whether it breaks the rule.
fn axiom_marks(
    alloc: Global,
    facts: &Facts,
    rule: DlRule,
    axioms: &[ExprId],
) -> Result<Vec<bool>, NoMemory>
    requires facts { AreFacts facts.now }
    requires axioms { AreAxiomsOf facts.now.arena.now.trees facts.now.pooled.now axioms.now }
    ensures { IfOk result (λ marks. (o : Ontology)
        → trees_at facts.now.arena.now.trees axioms.now ≡ o.axioms
        → MarkEach (λ _ t. Breaks (closure_in facts.now) rule o (of_axiom t)) o.axioms marks.items) }
{
    if rule == DlRule::Forest {
        return ring_assertions(alloc, facts.arena, axioms);
    }
    Ok(marks_by_test(alloc, facts, rule, axioms)?)
}

/// For each of these axioms whether it breaks the rule, which is not that on
/// forests.
fn marks_by_test(
    alloc: Global,
    facts: &Facts,
    rule: DlRule,
    axioms: &[ExprId],
) -> Result<Vec<bool>, AllocError>
    requires facts { AreFacts facts.now }
    requires axioms { AreAxiomsOf facts.now.arena.now.trees facts.now.pooled.now axioms.now }
    requires rule { rule ≡ dl.Forest → ⊥ }
    ensures { IfOk result (λ marks. (o : Ontology) → MarkEach
        (λ _ t. Breaks (closure_in facts.now) rule o (of_axiom t))
        (trees_at facts.now.arena.now.trees axioms.now) marks.items) }
{
    let mut marks = Vec::with_capacity(alloc, axioms.len())?;
    'axioms: for id in axioms {
        marks.push(breaks_in_axiom(facts, rule, *id))?;
    }
    Ok(marks)
}

/// The rule by its number.
#[tactic(auto, unfolding(dl_rules::specs::Rules::number_of))]
fn numbered(rule: DlRule) -> Rule
    ensures { result ≡ dl_name rule }
{
    Rule::Dl(match rule {
        DlRule::Typing => 1,
        DlRule::Clash => 2,
        DlRule::ReservedName => 3,
        DlRule::Datatypes => 4,
        DlRule::DatatypeOrder => 5,
        DlRule::LexicalForms => 6,
        DlRule::DataRanges => 7,
        DlRule::TopDataProperty => 8,
        DlRule::SimpleProperties => 9,
        DlRule::Hierarchy => 10,
        DlRule::NamedIndividuals => 11,
        DlRule::Forest => 12,
        DlRule::OntologyIri => 13,
    })
}
