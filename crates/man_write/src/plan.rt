//! The blocks of axioms, as they are to be written.

ghost use Rattle.std.specs.Prelude.{◌≡◌, ◌<◌, ◌++◌, length, List, Some};
ghost use Rattle.man_resolve.specs.Expressions.{Knows, knows};
ghost use Rattle.man_text.specs.Blocks.{begins_with_chain, block_of, block_with, entity_heading, in_section, note_subject};
ghost use Rattle.owl_arena.specs.Held.{AreHeld, tree_at};
ghost use Rattle.owl_tree.specs.Trees.{Tree, tag_of};
ghost use Rattle.owl_tree.specs.declared.tag.Tag.TheVariants as tag;
ghost use Rattle.man_write.specs.Parts.{forms_at, ids_in};
ghost use Rattle.man_write.specs.Plans.{IsPlanHeld, IsSubjectHeld, bare, is_chain_node, is_chain_tag, form_at, plan_seen, stated_as, stated_at, subject_seen};
ghost use Rattle.man_write.specs.declared.manner.Manner.{Manner};

use crate::listed::{Listed, Members, written};
use crate::manner::{
    Manner, characteristic_of, entity_heading, fact_form, manner_of, subject_heading, where_of,
};
use man_raw::{Characteristic, Form, Heading, Section};
use man_resolve::sentence_of;
use man_sayable::frame_kind;
use owl_arena::{Arena, ExprId};
use owl_kind::{Kind, Kinds};
use owl_tree::{Atom, Tag};
use rdf_terms::Iri;

/// What a frame is of.
#[derive(Clone, Copy, Debug)]
pub enum Subject<'a> {
    /// A tree of the arena.
    Held(ExprId),
    /// A name that has the kind, or none.
    Named(Option<Kind>, &'a Iri),
}

/// What stands in a section, behind annotations.
#[derive(Clone, Copy, Debug)]
pub enum Body<'a> {
    /// A tree.
    Whole(ExprId),
    /// The members of a list.
    List(Members<'a>),
    /// Two trees.
    Pair(Form, ExprId, ExprId),
    /// The word of a characteristic.
    Word(Characteristic),
}

/// A block: what it is of where it is a frame, and what stands in its section, behind
/// these annotations.
#[derive(Clone, Copy, Debug)]
pub struct Plan<'a> {
    pub heading: Heading,
    pub section: Section,
    pub subject: Option<Subject<'a>>,
    pub part: Option<(ExprId, Body<'a>)>,
}

/// An item of which nothing is told.
fn bare<'a>(heading: Heading, section: Section) -> Plan<'a>
    ensures plan { (trees : List Tree) → plan_seen trees result ≡ bare
        (in_section heading section) }
    ensures held { (trees : List Tree) → IsPlanHeld trees result }
{
    Plan {
        heading,
        section,
        subject: None,
        part: None,
    }
}

/// A subject, and what is said of it.
#[tactic(auto, using(crate::proofs::ListedLaws::held_there, crate::proofs::ListedLaws::held_drop, crate::proofs::PlanLaws::three_ids, crate::proofs::PlanLaws::not_beside))]
fn beside<'a>(heading: Heading, section: Section, kids: &Listed<'a>) -> Plan<'a>
    ensures plan { (trees : List Tree) (t : Tag) → plan_seen trees result
        ≡ stated_as Manner.Beside (in_section heading section) t (forms_at trees
        (ids_in kids.now)) }
    ensures held { (trees : List Tree) → AreHeld trees (ids_in kids.now) → IsPlanHeld trees result }
{
    if kids.len() != 3 {
        return bare(heading, section);
    }
    Plan {
        heading,
        section,
        subject: Some(Subject::Held(kids.at(1))),
        part: Some((kids.at(0), Body::Whole(kids.at(2)))),
    }
}

/// What is said of a subject, and the subject.
#[tactic(auto, using(crate::proofs::ListedLaws::held_there, crate::proofs::ListedLaws::held_drop, crate::proofs::PlanLaws::three_ids, crate::proofs::PlanLaws::not_ahead))]
fn ahead<'a>(heading: Heading, section: Section, kids: &Listed<'a>) -> Plan<'a>
    ensures plan { (trees : List Tree) (t : Tag) → plan_seen trees result
        ≡ stated_as Manner.Ahead (in_section heading section) t (forms_at trees (ids_in kids.now)) }
    ensures held { (trees : List Tree) → AreHeld trees (ids_in kids.now) → IsPlanHeld trees result }
{
    if kids.len() != 3 {
        return bare(heading, section);
    }
    Plan {
        heading,
        section,
        subject: Some(Subject::Held(kids.at(2))),
        part: Some((kids.at(0), Body::Whole(kids.at(1)))),
    }
}

/// A subject, and the members of a list.
#[tactic(auto, using(crate::proofs::ListedLaws::held_there, crate::proofs::ListedLaws::held_drop, crate::proofs::PlanLaws::first_ids, crate::proofs::PlanLaws::not_union))]
fn union<'a>(heading: Heading, section: Section, kids: &Listed<'a>) -> Plan<'a>
    ensures plan { (trees : List Tree) (t : Tag) → plan_seen trees result
        ≡ stated_as Manner.Union (in_section heading section) t (forms_at trees (ids_in kids.now)) }
    ensures held { (trees : List Tree) → AreHeld trees (ids_in kids.now) → IsPlanHeld trees result }
{
    if kids.len() < 2 {
        return members(heading, section, kids);
    }
    Plan {
        heading,
        section,
        subject: Some(Subject::Held(kids.at(1))),
        part: Some((kids.at(0), Body::List(kids.behind(2).alone()))),
    }
}

/// The members of a list.
#[tactic(auto, using(crate::proofs::ListedLaws::held_there, crate::proofs::ListedLaws::held_drop, crate::proofs::PlanLaws::first_id, crate::proofs::PlanLaws::not_members))]
fn members<'a>(heading: Heading, section: Section, kids: &Listed<'a>) -> Plan<'a>
    ensures plan { (trees : List Tree) (t : Tag) → plan_seen trees result
        ≡ stated_as Manner.Members (in_section heading section) t (forms_at trees
        (ids_in kids.now)) }
    ensures held { (trees : List Tree) → AreHeld trees (ids_in kids.now) → IsPlanHeld trees result }
{
    if kids.len() < 1 {
        return bare(heading, section);
    }
    Plan {
        heading,
        section,
        subject: None,
        part: Some((kids.at(0), Body::List(kids.behind(1).alone()))),
    }
}

/// A property, a subject and a value.
#[tactic(auto, using(crate::proofs::ListedLaws::held_there, crate::proofs::ListedLaws::held_drop, crate::proofs::PlanLaws::four_ids, crate::proofs::PlanLaws::not_fact))]
fn fact<'a>(heading: Heading, section: Section, tag: Tag, kids: &Listed<'a>) -> Plan<'a>
    ensures plan { (trees : List Tree) → plan_seen trees result
        ≡ stated_as Manner.Fact (in_section heading section) tag (forms_at trees
        (ids_in kids.now)) }
    ensures held { (trees : List Tree) → AreHeld trees (ids_in kids.now) → IsPlanHeld trees result }
{
    if kids.len() != 4 {
        return bare(heading, section);
    }
    Plan {
        heading,
        section,
        subject: Some(Subject::Held(kids.at(2))),
        part: Some((
            kids.at(0),
            Body::Pair(fact_form(tag), kids.at(1), kids.at(3)),
        )),
    }
}

/// A subject, of which the tag is told.
#[tactic(auto, using(crate::proofs::ListedLaws::held_there, crate::proofs::ListedLaws::held_drop, crate::proofs::PlanLaws::two_ids, crate::proofs::PlanLaws::not_word))]
fn word<'a>(heading: Heading, section: Section, tag: Tag, kids: &Listed<'a>) -> Plan<'a>
    ensures plan { (trees : List Tree) → plan_seen trees result
        ≡ stated_as Manner.Word (in_section heading section) tag (forms_at trees
        (ids_in kids.now)) }
    ensures held { (trees : List Tree) → AreHeld trees (ids_in kids.now) → IsPlanHeld trees result }
{
    if kids.len() != 2 {
        return bare(heading, section);
    }
    Plan {
        heading,
        section,
        subject: Some(Subject::Held(kids.at(1))),
        part: Some((kids.at(0), Body::Word(characteristic_of(tag)))),
    }
}

/// A subject, and two groups.
#[tactic(auto, using(crate::proofs::ListedLaws::held_there, crate::proofs::ListedLaws::held_drop, crate::proofs::PlanLaws::four_ids, crate::proofs::PlanLaws::not_key))]
fn key<'a>(arena: &'a Arena, heading: Heading, section: Section, kids: &Listed<'a>) -> Plan<'a>
    requires { AreHeld arena.now.trees (ids_in kids.now) }
    ensures plan { (t : Tag) → plan_seen arena.now.trees result
        ≡ stated_as Manner.Key (in_section heading section) t (forms_at arena.now.trees
        (ids_in kids.now)) }
    ensures held { IsPlanHeld arena.now.trees result }
{
    if kids.len() != 4 {
        return bare(heading, section);
    }
    let groups = Members {
        first: written(arena, kids.at(2)),
        others: written(arena, kids.at(3)),
    };
    Plan {
        heading,
        section,
        subject: Some(Subject::Held(kids.at(1))),
        part: Some((kids.at(0), Body::List(groups))),
    }
}

/// The block of an axiom with this tag and these kids, by its section.
fn stated<'a>(arena: &'a Arena, tag: Tag, kids: &Listed<'a>) -> Plan<'a>
    requires { AreHeld arena.now.trees (ids_in kids.now) }
    ensures plan { plan_seen arena.now.trees result
        ≡ stated_at tag (forms_at arena.now.trees (ids_in kids.now)) }
    ensures held { IsPlanHeld arena.now.trees result }
{
    let (heading, section) = where_of(tag, begins_with_chain(arena, kids));
    let manner = manner_of(sentence_of(heading, section));
    in_manner(arena, manner, heading, section, tag, kids)
}

/// The block of an axiom that is written there, in this manner.
fn in_manner<'a>(
    arena: &'a Arena,
    manner: Manner,
    heading: Heading,
    section: Section,
    tag: Tag,
    kids: &Listed<'a>,
) -> Plan<'a>
    requires { AreHeld arena.now.trees (ids_in kids.now) }
    ensures plan { plan_seen arena.now.trees result
        ≡ stated_as manner (in_section heading section) tag (forms_at arena.now.trees
        (ids_in kids.now)) }
    ensures held { IsPlanHeld arena.now.trees result }
{
    match manner {
        Manner::Beside => beside(heading, section, kids),
        Manner::Ahead => ahead(heading, section, kids),
        Manner::Union => union(heading, section, kids),
        Manner::Members => members(heading, section, kids),
        Manner::Key => key(arena, heading, section, kids),
        Manner::Fact => fact(heading, section, tag, kids),
        Manner::Word => word(heading, section, tag, kids),
        Manner::Bare => bare(heading, section),
    }
}

/// The block of an axiom under these kinds of names.
pub fn plan_of<'a>(kinds: &Kinds, arena: &'a Arena, id: ExprId) -> Plan<'a>
    requires { id < length arena.now.trees }
    ensures plan { plan_seen arena.now.trees result
        ≡ block_of (knows kinds.now) (tree_at arena.now.trees id) }
    ensures held { IsPlanHeld arena.now.trees result }
{
    let tag = arena.tag(id);
    let kids = written(arena, id);
    match tag {
        Tag::Declaration => declared(arena, &kids),
        Tag::AnnotationAssertion => noted(kinds, arena, &kids),
        _ => stated(arena, tag, &kids),
    }
}

/// The block of a declaration with these kids.
#[tactic(auto, using(crate::proofs::ListedLaws::held_there))]
fn declared<'a>(arena: &'a Arena, kids: &Listed<'a>) -> Plan<'a>
    requires { AreHeld arena.now.trees (ids_in kids.now) }
    ensures plan { (k : Knows) → plan_seen arena.now.trees result
        ≡ block_with k tag.Declaration (forms_at arena.now.trees (ids_in kids.now)) }
    ensures held { IsPlanHeld arena.now.trees result }
{
    if kids.len() != 2 {
        return stated(arena, Tag::Declaration, kids);
    }
    let entity = kids.at(1);
    Plan {
        heading: entity_heading(arena.tag(entity)),
        section: Section::Annotations,
        subject: Some(Subject::Held(entity)),
        part: None,
    }
}

/// The block of an annotation assertion with these kids.
#[tactic(auto, using(crate::proofs::ListedLaws::held_there))]
fn noted<'a>(kinds: &Kinds, arena: &'a Arena, kids: &Listed<'a>) -> Plan<'a>
    requires { AreHeld arena.now.trees (ids_in kids.now) }
    ensures plan { plan_seen arena.now.trees result
        ≡ block_with (knows kinds.now) tag.AnnotationAssertion (forms_at arena.now.trees
        (ids_in kids.now)) }
    ensures held { IsPlanHeld arena.now.trees result }
{
    if kids.len() != 4 {
        return stated(arena, Tag::AnnotationAssertion, kids);
    }
    let (heading, subject) = note_subject(kinds, arena, kids.at(2));
    Plan {
        heading,
        section: Section::Annotations,
        subject: Some(subject),
        part: Some((
            kids.at(0),
            Body::Pair(Form::Assertion, kids.at(1), kids.at(3)),
        )),
    }
}

/// The keyword of the frame of what an annotation is about, and that itself.
fn note_subject<'a>(kinds: &Kinds, arena: &'a Arena, id: ExprId) -> (Heading, Subject<'a>)
    requires { id < length arena.now.trees }
    ensures subject { subject_seen arena.now.trees result.1
        ≡ note_subject (knows kinds.now) (form_at arena.now.trees id) }
    ensures heading { result.0
        ≡ entity_heading (tag_of (note_subject (knows kinds.now) (form_at arena.now.trees id))) }
    ensures held { IsSubjectHeld arena.now.trees (Some result.1) }
{
    match arena.atom(id) {
        Some(Atom::Iri(iri)) => {
            let kind = frame_kind(kinds, iri);
            (subject_heading(kind), Subject::Named(kind, iri))
        }
        _ => (entity_heading(arena.tag(id)), Subject::Held(id)),
    }
}

/// Whether the kid behind the annotations is a property chain.
#[tactic(auto, using(crate::proofs::PlanLaws::chain_first, crate::proofs::PlanLaws::no_chain))]
fn begins_with_chain(arena: &Arena, kids: &Listed<'_>) -> bool
    requires { AreHeld arena.now.trees (ids_in kids.now) }
    ensures { result ≡ begins_with_chain (forms_at arena.now.trees (ids_in kids.now)) }
{
    if kids.len() < 2 {
        false
    } else {
        is_chain(arena, kids.at(1))
    }
}

/// Whether the tree is a property chain.
fn is_chain(arena: &Arena, id: ExprId) -> bool
    requires { id < length arena.now.trees }
    ensures { result ≡ is_chain_node (tree_at arena.now.trees id) }
{
    arena.atom(id).is_none() && is_chain_tag(arena.tag(id))
}

fn is_chain_tag(tag: Tag) -> bool
    ensures { result ≡ is_chain_tag tag }
{
    matches!(tag, Tag::ObjectPropertyChain)
}
