//! Whether a part of an ontology breaks a rule.

ghost use Rattle.std.specs.Prelude.{◌≡◌, ◌↔◌, ◌<◌, IsTrue, length};
ghost use Rattle.dl_rules.specs.declared.rule.DlRule.TheVariants as dl;
ghost use Rattle.dl_rules.specs.Rules.{Breaks, HasReservedName};
ghost use Rattle.owl_arena.specs.Held.{AreHeld, tree_at, trees_at};
ghost use Rattle.owl_breaches.specs.Those.{HoldsOfSome};
ghost use Rattle.owl_doc.specs.Entities.{declaration};
ghost use Rattle.owl_doc.specs.Heads.{head_of};
ghost use Rattle.owl_doc.specs.Parts.{of_axiom, of_header};
ghost use Rattle.owl_kind.specs.Kinds.{HasBoth, SharesKinds};
ghost use Rattle.rdf_terms.specs.Vocabulary.{is_reserved};
ghost use Rattle.owl_tree.specs.Ontologies.{Ontology};
ghost use Rattle.breach_lists.specs.Marks.{IsAxiomOf};
ghost use Rattle.owl_dl.specs.Facts.{AreFacts, closure_in};

use dl_local::{LocalFaults, axiom_is_at_fault, header_is_at_fault};
use dl_rules::DlRule;
use graph_walks::has_mark;
use owl_arena::{Arena, ExprId};
use owl_atom::{Iri, reserved};
use owl_doc::{Closure, Head, declaration};
use owl_kind::{Kind, Kinds};
use owl_pool::Pooled;

/// What is known of an import closure, whose trees stand in one arena.
#[derive(Clone, Copy, Debug)]
pub struct Facts<'a> {
    pub closure: &'a Closure,
    pub arena: &'a Arena,
    /// What each document says.
    pub pooled: &'a [Pooled],
    /// For each tree what is at fault in it.
    pub local: &'a [LocalFaults],
    /// For each axiom, by its number, whether it is a definition of a datatype by
    /// itself.
    pub cyclic: &'a [bool],
    /// For each axiom, by its number, whether it is a chain that breaks the order.
    pub broken: &'a [bool],
}

/// Whether the axiom breaks the rule, which is not that on forests.
pub fn breaks_in_axiom(facts: &Facts, rule: DlRule, id: ExprId) -> bool
    requires facts { AreFacts facts.now }
    requires axiom { IsAxiomOf facts.now.pooled.now id }
    requires held { id < length facts.now.arena.now.trees }
    ensures { (o : Ontology) → (rule ≡ dl.Forest → ⊥) → IsTrue result
        ↔ Breaks (closure_in facts.now) rule o (of_axiom (tree_at facts.now.arena.now.trees id)) }
{
    match rule {
        DlRule::Clash => declares_clash(facts.arena, id, facts.closure.kinds()),
        DlRule::DatatypeOrder => has_mark(facts.cyclic, id.place()),
        DlRule::Hierarchy => has_mark(facts.broken, id.place()),
        DlRule::Forest | DlRule::OntologyIri => false,
        _ => axiom_is_at_fault(facts.arena, facts.local, rule, id),
    }
}

/// Whether the header with these annotations breaks the rule.
pub fn breaks_in_header(facts: &Facts, rule: DlRule, head: &Head, notes: &[ExprId]) -> bool
    requires facts { AreFacts facts.now }
    requires notes { AreHeld facts.now.arena.now.trees notes.now }
    ensures { (o : Ontology) → head_of head.now ≡ o.head → IsTrue result
        ↔ Breaks (closure_in facts.now) rule o (of_header (trees_at facts.now.arena.now.trees notes.now)) }
{
    match rule {
        DlRule::OntologyIri => has_reserved_name(head),
        _ => header_is_at_fault(facts.local, rule, notes),
    }
}

/// Whether the ontology IRI or the version IRI is reserved.
fn has_reserved_name(head: &Head) -> bool
    ensures { IsTrue result ↔ HoldsOfSome HasReservedName (head_of head.now).name }
{
    match &head.iri {
        Some(iri) => reserved(iri) || is_reserved(&head.version),
        None => false,
    }
}

/// Whether there is an IRI, and it is reserved.
fn is_reserved(iri: &Option<Iri>) -> bool
    ensures { IsTrue result ↔ HoldsOfSome (λ iri. IsTrue (is_reserved iri)) iri.now }
{
    match iri {
        Some(iri) => reserved(iri),
        None => false,
    }
}

/// Whether the tree declares an IRI that has two kinds which no IRI may share.
fn declares_clash(arena: &Arena, id: ExprId, kinds: &Kinds) -> bool
    requires { id < length arena.now.trees }
    ensures { IsTrue result ↔ HoldsOfSome (λ e. SharesKinds kinds.now e.iri)
        (declaration (tree_at arena.now.trees id)) }
{
    match declaration(arena, id) {
        Some((_, iri)) => shares_kinds(kinds, iri),
        None => false,
    }
}

/// Whether the IRI has two kinds of properties, or is a class and a datatype
/// (Structural Specification, section 5.8.1).
fn shares_kinds(kinds: &Kinds, iri: &Iri) -> bool
    ensures { IsTrue result ↔ SharesKinds kinds.now iri.now }
{
    has_both(kinds, Kind::Class, Kind::Datatype, iri)
        || has_both(kinds, Kind::ObjectProperty, Kind::DataProperty, iri)
        || has_both(kinds, Kind::ObjectProperty, Kind::AnnotationProperty, iri)
        || has_both(kinds, Kind::DataProperty, Kind::AnnotationProperty, iri)
}

/// Whether the IRI has both kinds.
fn has_both(kinds: &Kinds, one: Kind, other: Kind, iri: &Iri) -> bool
    ensures { IsTrue result ↔ HasBoth kinds.now one other iri.now }
{
    kinds.has(one, iri) && kinds.has(other, iri)
}
