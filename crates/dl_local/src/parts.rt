//! The parts of a document that break a rule by a fault of a tree in them.

ghost use Rattle.std.specs.Prelude.{◌≡◌, ◌<◌, ◌↔◌, List, true, false, IsTrue, length};
ghost use Rattle.dl_local.specs.Faults.{AreLocalFaults};
ghost use Rattle.dl_local.specs.LocalRules.{is_local, test_of};
ghost use Rattle.dl_rules.specs.Local.{barred_over};
ghost use Rattle.dl_rules.specs.Rules.{Breaks};
ghost use Rattle.owl_arena.specs.Held.{AreHeld, tree_at, trees_at};
ghost use Rattle.owl_breaches.specs.Sites.{Ontologies};
ghost use Rattle.owl_doc.specs.Parts.{of_axiom, of_header};
ghost use Rattle.owl_tree.specs.declared.tag.Tag.TheVariants as tag;
ghost use Rattle.owl_tree.specs.Ontologies.{Ontology};
ghost use Rattle.owl_tree.specs.Trees.{Tree};

use crate::faults::{Local, LocalFaults, faults_of, some_has};
use dl_rules::DlRule;
use owl_arena::{Arena, ExprId};
use owl_tree::Tag;

/// Whether the axiom with this number breaks the rule by a fault of a tree in it. No
/// axiom breaks other rules so.
#[tactic(auto, unfolding(crate::specs::LocalRules::test_of))]
pub fn axiom_is_at_fault(arena: &Arena, found: &[LocalFaults], rule: DlRule, id: ExprId) -> bool
    requires { id < length arena.now.trees }
    ensures local { (c : Ontologies) (o : Ontology) → AreLocalFaults c arena.now.trees found.now
        → is_local rule ≡ true
        → IsTrue result ↔ Breaks c rule o (of_axiom (tree_at arena.now.trees id)) }
    ensures other { is_local rule ≡ false → result ≡ false }
{
    match rule {
        DlRule::TopDataProperty => {
            let barred = barred(arena.tag(id), arena.kids(id));
            some_has(found, barred, Local::TopData)
        }
        other => match test_of(other) {
            Some(test) => faults_of(found, id).has(test),
            None => false,
        },
    }
}

/// What trees are tested for by the rule.
#[tactic(auto, unfolding(crate::specs::LocalRules::test_of))]
fn test_of(rule: DlRule) -> Option<Local>
    ensures { result ≡ test_of rule }
{
    match rule {
        DlRule::Typing => Some(Local::Undeclared),
        DlRule::ReservedName => Some(Local::Misnamed),
        DlRule::Datatypes => Some(Local::Datatype),
        DlRule::LexicalForms => Some(Local::Form),
        DlRule::DataRanges => Some(Local::Range),
        DlRule::TopDataProperty => Some(Local::TopData),
        DlRule::SimpleProperties => Some(Local::NotSimple),
        DlRule::NamedIndividuals => Some(Local::Anonymous),
        DlRule::Clash
        | DlRule::DatatypeOrder
        | DlRule::Hierarchy
        | DlRule::Forest
        | DlRule::OntologyIri => None,
    }
}

/// Where the top data property may not stand in an axiom with this tag and these kids.
#[tactic(auto, unfolding(dl_rules::specs::Local::barred_over), using(crate::proofs::PartLaws::barred_other))]
fn barred(tag: Tag, kids: &[ExprId]) -> &[ExprId]
    ensures barred { (ts : List Tree)
        → trees_at ts result.now ≡ barred_over tag (trees_at ts kids.now) }
    ensures held { (ts : List Tree) → AreHeld ts kids.now → AreHeld ts result.now }
{
    match tag {
        Tag::Declaration => &[],
        Tag::SubDataPropertyOf => barred_in_sub(kids),
        _ => kids,
    }
}

/// Where the top data property may not stand in a SubDataPropertyOf with these kids.
fn barred_in_sub(kids: &[ExprId]) -> &[ExprId]
    ensures barred { (ts : List Tree)
        → trees_at ts result.now ≡ barred_over tag.SubDataPropertyOf (trees_at ts kids.now) }
    ensures held { (ts : List Tree) → AreHeld ts kids.now → AreHeld ts result.now }
{
    if kids.len() < 2 { kids } else { &kids[1..2] }
}

/// Whether a header with these annotations breaks the rule by a fault of a tree in it.
#[tactic(auto, unfolding(crate::specs::LocalRules::test_of))]
pub fn header_is_at_fault(found: &[LocalFaults], rule: DlRule, notes: &[ExprId]) -> bool
    ensures local { (c : Ontologies) (ts : List Tree) (o : Ontology) → AreLocalFaults c ts found.now
        → AreHeld ts notes.now → is_local rule ≡ true
        → IsTrue result ↔ Breaks c rule o (of_header (trees_at ts notes.now)) }
    ensures other { is_local rule ≡ false → result ≡ false }
{
    match rule {
        DlRule::Typing => some_has(found, notes, Local::Undeclared),
        DlRule::ReservedName => some_has(found, notes, Local::Misnamed),
        _ => false,
    }
}
