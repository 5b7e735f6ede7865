//! What frames and the other items mean.

ghost use Rattle.std.specs.Prelude.{◌≡◌, ◌≤◌, ◌<◌, ◌+◌, ◌^◌, ◌++◌, IfErr, IfOk, Ok, OnOk, Some, length, map, option_map};
ghost use Rattle.std.specs.List.{flat_map};
ghost use Rattle.man_resolve.specs.Building.{AddsAll, AddsKids, AddsTree, IsFaultOf, all_built, built, leaf_seen, leaves};
ghost use Rattle.man_resolve.specs.Expressions.{all_of, knows, meant};
ghost use Rattle.man_resolve.specs.Places.{name_place};
ghost use Rattle.man_resolve.specs.Items.{assertion_in, axiom_of, axioms_of, called, declaration_of, fact, fact_by, key, members, members_in, named, note, pair_of, properties, stated, subject_of, word, word_in};

use crate::expressions::{mean, mean_by_property, mean_each, parts_of, takes};
use crate::fault::ResolveFault;
use crate::groups::mean_group;
use crate::names::leaf_of;
use crate::place::Place;
use crate::sentence::{Sentence, fact_tags, name_place, negative_tags, sentence_of, word_tag};
use crate::shape::{ByKind, Places};
use crate::step::{Leaf, Step, add, add_leaf};
use man_raw::{Form, Heading, Raw, RawItem, RawPart, What};
use owl_characters::NoMemory;
use owl_kind::Kinds;
use owl_tree::{Atom, Tag};

/// Adds the axioms of the item (Manchester Syntax, sections 2.5 and 2.6).
#[tactic(auto, unfolding(crate::specs::Items::axioms_of))]
pub fn mean_item<'a>(
    kinds: &Kinds,
    item: &'a RawItem,
    steps: &mut Vec<Step<'a>>,
) -> Result<(), ResolveFault>
    ensures added { OnOk result (AddsAll steps.old.items steps.new.items
        (all_of (axioms_of (knows kinds.now) item.now))) }
    ensures fault { IfErr result (IsFaultOf (all_of (axioms_of (knows kinds.now) item.now))) }
{
    let subject = subject_of(kinds, item)?;
    add_declaration(subject, steps)?;
    for part in &item.parts {
        mean_axiom(kinds, item.heading, subject, part, steps)?;
    }
    Ok(())
}

/// What a frame is of; nothing, where the item is no frame.
fn subject_of<'a>(kinds: &Kinds, item: &'a RawItem) -> Result<Option<Leaf<'a>>, ResolveFault>
    ensures subject { IfOk result (λ subject. subject_of (knows kinds.now) item.now.at
        (name_place item.now.heading) item.now.name ≡ Ok (leaves subject)) }
    ensures fault { IfErr result (IsFaultOf (subject_of (knows kinds.now) item.now.at
        (name_place item.now.heading) item.now.name)) }
{
    match (name_place(item.heading), &item.name) {
        (Some(place), Some(name)) => Ok(Some(named(kinds, place, name)?)),
        (None, None) => Ok(None),
        _ => Err(ResolveFault::WrongForm { at: item.at }),
    }
}

/// What the name means at the place.
fn named<'a>(kinds: &Kinds, place: Place, name: &'a Raw) -> Result<Leaf<'a>, ResolveFault>
    ensures leaf { IfOk result (λ leaf.
        named (knows kinds.now) name.now place ≡ Ok (leaf_seen leaf)) }
    ensures fault { IfErr result (IsFaultOf (named (knows kinds.now) name.now place)) }
{
    match &name.what {
        What::Atom(atom) => leaf_of(kinds, place, name.at, atom),
        _ => Err(ResolveFault::WrongForm { at: name.at }),
    }
}

/// Declares the name, but no anonymous individual.
fn add_declaration<'a>(subject: Option<Leaf<'a>>, steps: &mut Vec<Step<'a>>) -> Result<(), NoMemory>
    ensures { OnOk result (built steps.new.items
        ≡ built steps.old.items ++ all_built (flat_map declaration_of (leaves subject.entry))) }
{
    match subject {
        Some(leaf) if leaf.tag != Tag::Anonymous => {
            add(steps, Step::Node(Tag::Notes, 0))?;
            add(steps, Step::Leaf(leaf))?;
            add(steps, Step::Node(Tag::Declaration, 2))
        }
        _ => Ok(()),
    }
}

/// Adds the axiom of one element of a section.
#[tactic(auto, unfolding(crate::specs::Items::axiom_of))]
fn mean_axiom<'a>(
    kinds: &Kinds,
    heading: Heading,
    subject: Option<Leaf<'a>>,
    part: &'a RawPart,
    steps: &mut Vec<Step<'a>>,
) -> Result<(), ResolveFault>
    ensures added { OnOk result (AddsTree steps.old.items steps.new.items
        (axiom_of (knows kinds.now) heading (leaves subject.entry) part.now)) }
    ensures fault { IfErr result (IsFaultOf
        (axiom_of (knows kinds.now) heading (leaves subject.entry) part.now)) }
{
    mean(kinds, Place::Notes, &part.notes, steps)?;
    let sentence = sentence_of(heading, part.section);
    let (tag, count) = mean_sentence(kinds, heading, sentence, subject, &part.body, steps)?;
    add(steps, Step::Node(tag, count + 1))?;
    Ok(())
}

/// Adds what the sentence says of the subject with this element, and says of which tag
/// and how many they are the kids behind the annotations.
fn mean_sentence<'a>(
    kinds: &Kinds,
    heading: Heading,
    sentence: Sentence,
    subject: Option<Leaf<'a>>,
    body: &'a Raw,
    steps: &mut Vec<Step<'a>>,
) -> Result<(Tag, usize), ResolveFault>
    ensures added { IfOk result (λ told. AddsKids steps.old.items steps.new.items told.0 told.1
        (stated (knows kinds.now) heading sentence (leaves subject.entry) body.now)) }
    ensures fault { IfErr result (IsFaultOf
        (stated (knows kinds.now) heading sentence (leaves subject.entry) body.now)) }
    ensures few { IfOk result (λ told. told.1 < 2 ^ 63) }
{
    match sentence {
        Sentence::Beside(tag, place) => {
            let given = add_leaf(steps, subject)?;
            mean(kinds, place, body, steps)?;
            Ok((tag, given + 1))
        }
        Sentence::Ahead(tag, place) => {
            mean(kinds, place, body, steps)?;
            let given = add_leaf(steps, subject)?;
            Ok((tag, given + 1))
        }
        Sentence::Members(tag, place) => mean_members(kinds, tag, place, subject, body, steps),
        Sentence::Properties(by) => mean_properties(kinds, by, body, steps),
        Sentence::Key => mean_key(kinds, subject, body, steps),
        Sentence::Fact => mean_fact(kinds, subject, body, steps),
        Sentence::Note => mean_note(kinds, subject, body, steps),
        Sentence::Word => mean_word(heading, subject, body, steps),
        Sentence::Wrong => Err(ResolveFault::WrongForm { at: body.at }),
    }
}

/// The members of a list.
fn members_in(body: &Raw) -> Option<&[Raw]>
    ensures { option_map (λ members. members.now) result ≡ members_in body.now }
{
    match body.what {
        What::Form(Form::List) => Some(parts_of(body)),
        _ => None,
    }
}

/// The subject, and the members of a list.
fn mean_members<'a>(
    kinds: &Kinds,
    tag: Tag,
    place: Place,
    subject: Option<Leaf<'a>>,
    body: &'a Raw,
    steps: &mut Vec<Step<'a>>,
) -> Result<(Tag, usize), ResolveFault>
    ensures added { IfOk result (λ told. AddsKids steps.old.items steps.new.items told.0 told.1
        (members (knows kinds.now) tag place (leaves subject.entry) body.now)) }
    ensures fault { IfErr result (IsFaultOf
        (members (knows kinds.now) tag place (leaves subject.entry) body.now)) }
    ensures few { IfOk result (λ told. told.1 < 2 ^ 63) }
{
    let Some(parts) = members_in(body) else {
        return Err(ResolveFault::WrongForm { at: body.at });
    };
    let given = add_leaf(steps, subject)?;
    if !takes(tag, 1 + (given + parts.len())) {
        return Err(ResolveFault::WrongForm { at: body.at });
    }
    let others = mean_each(kinds, Places::all(place), parts, 0, steps)?;
    Ok((tag, given + others))
}

/// The members of a list, of the kind of the first.
fn mean_properties<'a>(
    kinds: &Kinds,
    by: ByKind,
    body: &'a Raw,
    steps: &mut Vec<Step<'a>>,
) -> Result<(Tag, usize), ResolveFault>
    ensures added { IfOk result (λ told. AddsKids steps.old.items steps.new.items told.0 told.1
        (properties (knows kinds.now) by body.now)) }
    ensures fault { IfErr result (IsFaultOf (properties (knows kinds.now) by body.now)) }
    ensures few { IfOk result (λ told. told.1 < 2 ^ 63) }
{
    match members_in(body) {
        Some(parts) => mean_by_property(kinds, by, None, body.at, parts, 1, steps),
        None => Err(ResolveFault::WrongForm { at: body.at }),
    }
}

/// The subject, and the members of a list in two groups.
fn mean_key<'a>(
    kinds: &Kinds,
    subject: Option<Leaf<'a>>,
    body: &'a Raw,
    steps: &mut Vec<Step<'a>>,
) -> Result<(Tag, usize), ResolveFault>
    ensures added { IfOk result (λ told. AddsKids steps.old.items steps.new.items told.0 told.1
        (key (knows kinds.now) (leaves subject.entry) body.now)) }
    ensures fault { IfErr result (IsFaultOf
        (key (knows kinds.now) (leaves subject.entry) body.now)) }
    ensures few { IfOk result (λ told. told.1 < 2 ^ 63) }
{
    let Some(parts) = members_in(body) else {
        return Err(ResolveFault::WrongForm { at: body.at });
    };
    if parts.is_empty() {
        return Err(ResolveFault::WrongForm { at: body.at });
    }
    let given = add_leaf(steps, subject)?;
    mean_group(kinds, Tag::ObjectKeys, false, parts, steps)?;
    mean_group(kinds, Tag::DataKeys, true, parts, steps)?;
    Ok((Tag::HasKey, given + 2))
}

/// What a fact says, or one behind `not`.
fn fact_by(body: &Raw) -> Option<ByKind>
    ensures { result ≡ fact_by body.now }
{
    match body.what {
        What::Form(Form::Fact) => Some(fact_tags()),
        What::Form(Form::NegativeFact) => Some(negative_tags()),
        _ => None,
    }
}

/// A property, the subject and a value.
fn mean_fact<'a>(
    kinds: &Kinds,
    subject: Option<Leaf<'a>>,
    body: &'a Raw,
    steps: &mut Vec<Step<'a>>,
) -> Result<(Tag, usize), ResolveFault>
    ensures added { IfOk result (λ told. AddsKids steps.old.items steps.new.items told.0 told.1
        (fact (knows kinds.now) (leaves subject.entry) body.now)) }
    ensures fault { IfErr result (IsFaultOf
        (fact (knows kinds.now) (leaves subject.entry) body.now)) }
    ensures few { IfOk result (λ told. told.1 < 2 ^ 63) }
{
    let Some(by) = fact_by(body) else {
        return Err(ResolveFault::WrongForm { at: body.at });
    };
    let parts = parts_of(body);
    if !takes(by.object_tag, 1 + (count(subject) + parts.len())) {
        return Err(ResolveFault::WrongForm { at: body.at });
    }
    mean_by_property(kinds, by, subject, body.at, parts, 1, steps)
}

fn count(subject: Option<Leaf>) -> usize
    ensures count { result ≡ length (leaves subject.entry) }
    ensures few { result ≤ 1 }
{
    match subject {
        Some(_) => 1,
        None => 0,
    }
}

/// What an annotation that is about the subject calls it.
fn called(subject: Option<Leaf<'_>>) -> Option<Leaf<'_>>
    ensures { leaves result ≡ map called (leaves subject.entry) }
{
    let Leaf { tag, atom } = subject?;
    let tag = match atom {
        Atom::Iri(_) => Tag::PlainIri,
        Atom::Label(_) => Tag::Anonymous,
        Atom::Literal(_) | Atom::Number(_) => tag,
    };
    Some(Leaf { tag, atom })
}

/// The property and the value of an assertion.
fn assertion_in(body: &Raw) -> Option<(&Raw, &Raw)>
    ensures { option_map (λ parts. (parts.0.now, parts.1.now)) result ≡ assertion_in body.now }
{
    match body.what {
        What::Form(Form::Assertion) => pair_of(parts_of(body)),
        _ => None,
    }
}

fn pair_of(parts: &[Raw]) -> Option<(&Raw, &Raw)>
    ensures { option_map (λ pair. (pair.0.now, pair.1.now)) result ≡ pair_of parts.now }
{
    match parts {
        [property, value] => Some((property, value)),
        _ => None,
    }
}

/// An annotation property, the subject and a value.
fn mean_note<'a>(
    kinds: &Kinds,
    subject: Option<Leaf<'a>>,
    body: &'a Raw,
    steps: &mut Vec<Step<'a>>,
) -> Result<(Tag, usize), ResolveFault>
    ensures added { IfOk result (λ told. AddsKids steps.old.items steps.new.items told.0 told.1
        (note (knows kinds.now) (leaves subject.entry) body.now)) }
    ensures fault { IfErr result (IsFaultOf
        (note (knows kinds.now) (leaves subject.entry) body.now)) }
    ensures few { IfOk result (λ told. told.1 < 2 ^ 63) }
{
    let Some((property, value)) = assertion_in(body) else {
        return Err(ResolveFault::WrongForm { at: body.at });
    };
    mean(kinds, Place::AnnotationProperty, property, steps)?;
    let given = add_leaf(steps, called(subject))?;
    mean(kinds, Place::Value, value, steps)?;
    Ok((Tag::AnnotationAssertion, 2 + given))
}

/// What a word says of the subject.
fn mean_word<'a>(
    heading: Heading,
    subject: Option<Leaf<'a>>,
    body: &'a Raw,
    steps: &mut Vec<Step<'a>>,
) -> Result<(Tag, usize), ResolveFault>
    ensures added { IfOk result (λ told. AddsKids steps.old.items steps.new.items told.0 told.1
        (word (leaves subject.entry) heading body.now)) }
    ensures fault { IfErr result (IsFaultOf (word (leaves subject.entry) heading body.now)) }
    ensures few { IfOk result (λ told. told.1 < 2 ^ 63) }
{
    let Some(tag) = word_in(heading, body) else {
        return Err(ResolveFault::WrongForm { at: body.at });
    };
    let given = add_leaf(steps, subject)?;
    Ok((tag, given))
}

fn word_in(heading: Heading, body: &Raw) -> Option<Tag>
    ensures { result ≡ word_in heading body.now }
{
    match body.what {
        What::Word(word) => word_tag(heading, word),
        _ => None,
    }
}
