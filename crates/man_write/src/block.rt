//! How blocks are written.

ghost use Rattle.std.specs.Prelude.{◌≡◌, ◌<◌, ◌++◌, codes, IsErrOf, OnOk, Some, length};
ghost use Rattle.man_text.specs.Text.{section_front};
ghost use Rattle.man_text.specs.Words.{colon, heading_class, section_class};
ghost use Rattle.man_resolve.specs.Expressions.{knows};
ghost use Rattle.owl_arena.specs.Held.{AreHeld, tree_at};
ghost use Rattle.owl_writing.specs.Terms.{iri_text};
ghost use Rattle.owl_writing.specs.Limits.{IsTooLong};
ghost use Rattle.owl_writing.specs.declared.fault.WriteFault.{WriteFault};
ghost use Rattle.man_write.specs.Parts.{gap, joined_from, said_at, words_seen};
ghost use Rattle.man_write.specs.Plans.{IsBodyHeld, IsPartHeld, IsSubjectHeld, block_of_text, body_alone, body_seen, body_words, element_text, is_list_form, is_list_node, members_in, members_text, name_seen, pair_text, part_seen, told_text};
ghost use Rattle.man_write.specs.declared.plan.Body.TheVariants as body;

use crate::listed::Members;
use crate::plan::{Body, Plan, Subject, plan_of};
use crate::tree::{add_operands, add_tree};
use crate::words::{
    Around, add_gap, body_words, characteristic_class, form_of, heading_class, section_class,
};
use man_grammar::Class;
use man_raw::{Form, Heading, Section};
use owl_arena::{Arena, ExprId};
use owl_atom::Prefixes;
use owl_kind::Kinds;
use owl_writing::{Draft, WriteFault};
use rdf_terms::Iri;

/// Adds a keyword and its colon.
#[tactic(auto, using(owl_characters::proofs::Utf8Laws::size_append))]
pub fn add_keyword(draft: &mut Draft, class: Class) -> Result<(), WriteFault>
    ensures ok { OnOk result (draft.new ≡ draft.old ++ colon class) }
    ensures too_long { IsErrOf result WriteFault.TooLong
        → IsTooLong (draft.old ++ colon class) }
{
    draft.add(class.word())?;
    draft.add_ascii(":")
}

/// Adds what stands in front of what a section says.
#[tactic(auto, unfolding(man_text::specs::Text::section_front))]
fn add_section_front(draft: &mut Draft, section: Section) -> Result<(), WriteFault>
    ensures ok { OnOk result (draft.new ≡ draft.old ++ section_front section) }
    ensures too_long { IsErrOf result WriteFault.TooLong
        → IsTooLong (draft.old ++ section_front section) }
{
    match section {
        Section::Members => draft.add_ascii(" "),
        _ => add_section_line(draft, section_class(section)),
    }
}

/// Adds the front of a line with this keyword.
#[tactic(auto, using(owl_characters::proofs::Utf8Laws::size_append))]
fn add_section_line(draft: &mut Draft, class: Class) -> Result<(), WriteFault>
    ensures ok { OnOk result (draft.new ≡ draft.old ++ (codes "\n    " ++ (colon class
        ++ codes " "))) }
    ensures too_long { IsErrOf result WriteFault.TooLong
        → IsTooLong (draft.old ++ (codes "\n    " ++ (colon class ++ codes " "))) }
{
    draft.add_ascii("\n    ")?;
    add_keyword(draft, class)?;
    draft.add_ascii(" ")
}

/// Adds the members of a list, with these words between them.
pub fn add_members(
    draft: &mut Draft,
    arena: &Arena,
    prefixes: &Prefixes,
    words: Around,
    members: &Members<'_>,
) -> Result<(), WriteFault>
    requires { AreHeld arena.now.trees (members_in members.now) }
    ensures ok { OnOk result (draft.new ≡ draft.old ++ members_text prefixes.now arena.now.trees
        (words_seen words) members.now) }
    ensures too_long { IsErrOf result WriteFault.TooLong
        → IsTooLong (draft.old ++ members_text prefixes.now arena.now.trees
        (words_seen words) members.now) }
{
    for place in 0..members.len() {
        add_member(draft, arena, prefixes, words, place, members.at(place))?;
    }
    Ok(())
}

/// Adds the member at this place, and what stands in front of it.
#[tactic(auto, using(owl_characters::proofs::Utf8Laws::size_append))]
fn add_member(
    draft: &mut Draft,
    arena: &Arena,
    prefixes: &Prefixes,
    words: Around,
    place: usize,
    id: ExprId,
) -> Result<(), WriteFault>
    requires { id < length arena.now.trees }
    ensures ok { OnOk result (draft.new ≡ draft.old ++ (gap (words_seen words) place
        ++ said_at prefixes.now arena.now.trees id)) }
    ensures too_long { IsErrOf result WriteFault.TooLong
        → IsTooLong (draft.old ++ (gap (words_seen words) place
        ++ said_at prefixes.now arena.now.trees id)) }
{
    add_gap(draft, words, place)?;
    add_tree(draft, arena, prefixes, id)
}

/// Adds two trees with words around them.
#[tactic(auto, using(owl_characters::proofs::Utf8Laws::size_append))]
fn add_pair(
    draft: &mut Draft,
    arena: &Arena,
    prefixes: &Prefixes,
    words: Around,
    first: ExprId,
    second: ExprId,
) -> Result<(), WriteFault>
    requires first { first < length arena.now.trees }
    requires second { second < length arena.now.trees }
    ensures ok { OnOk result (draft.new ≡ draft.old ++ pair_text prefixes.now arena.now.trees
        (words_seen words) first second) }
    ensures too_long { IsErrOf result WriteFault.TooLong
        → IsTooLong (draft.old ++ pair_text prefixes.now arena.now.trees
        (words_seen words) first second) }
{
    draft.add(words.front)?;
    add_tree(draft, arena, prefixes, first)?;
    draft.add(words.first)?;
    add_tree(draft, arena, prefixes, second)?;
    draft.add(words.last)
}

/// Adds a tree as it stands in this section: a list of which the members stand as the
/// section has them, or any other.
#[tactic(auto, using(crate::proofs::BlockLaws::whole_list, crate::proofs::BlockLaws::whole_other))]
fn add_whole(
    draft: &mut Draft,
    arena: &Arena,
    prefixes: &Prefixes,
    section: Section,
    id: ExprId,
) -> Result<(), WriteFault>
    requires { id < length arena.now.trees }
    ensures ok { OnOk result (draft.new ≡ draft.old ++ body_alone prefixes.now section
        (body_seen arena.now.trees (body.Whole id))) }
    ensures too_long { IsErrOf result WriteFault.TooLong
        → IsTooLong (draft.old ++ body_alone prefixes.now section (body_seen arena.now.trees
        (body.Whole id))) }
{
    if is_list(arena, id) {
        add_operands(draft, arena, prefixes, body_words(section, Form::List), id)
    } else {
        add_tree(draft, arena, prefixes, id)
    }
}

/// Whether the tree is written as a list.
fn is_list(arena: &Arena, id: ExprId) -> bool
    requires { id < length arena.now.trees }
    ensures { result ≡ is_list_node (tree_at arena.now.trees id) }
{
    arena.atom(id).is_none() && is_list_form(form_of(arena.tag(id)))
}

fn is_list_form(form: Form) -> bool
    ensures { result ≡ is_list_form form }
{
    matches!(form, Form::List)
}

/// Adds what stands in a section.
#[tactic(auto, using(crate::proofs::BlockLaws::list_body, crate::proofs::BlockLaws::pair_body, crate::proofs::BlockLaws::word_body))]
fn add_body(
    draft: &mut Draft,
    arena: &Arena,
    prefixes: &Prefixes,
    section: Section,
    body: &Body<'_>,
) -> Result<(), WriteFault>
    requires { IsBodyHeld arena.now.trees body.now }
    ensures ok { OnOk result (draft.new ≡ draft.old ++ body_alone prefixes.now section
        (body_seen arena.now.trees body.now)) }
    ensures too_long { IsErrOf result WriteFault.TooLong
        → IsTooLong (draft.old ++ body_alone prefixes.now section
        (body_seen arena.now.trees body.now)) }
{
    match body {
        Body::Whole(id) => add_whole(draft, arena, prefixes, section, *id),
        Body::List(members) => add_members(
            draft,
            arena,
            prefixes,
            body_words(section, Form::List),
            members,
        ),
        Body::Pair(form, first, second) => add_pair(
            draft,
            arena,
            prefixes,
            body_words(section, *form),
            *first,
            *second,
        ),
        Body::Word(word) => draft.add(characteristic_class(*word).word()),
    }
}

/// Adds what a section says: its front, annotations, and what stands behind them.
#[tactic(auto, using(owl_characters::proofs::Utf8Laws::size_append))]
fn add_element(
    draft: &mut Draft,
    arena: &Arena,
    prefixes: &Prefixes,
    section: Section,
    part: &(ExprId, Body<'_>),
) -> Result<(), WriteFault>
    requires { IsPartHeld arena.now.trees (Some part.now) }
    ensures ok { OnOk result (draft.new ≡ draft.old
        ++ element_text prefixes.now arena.now.trees section part.now) }
    ensures too_long { IsErrOf result WriteFault.TooLong
        → IsTooLong (draft.old ++ element_text prefixes.now arena.now.trees section part.now) }
{
    let (notes, body) = part;
    add_section_front(draft, section)?;
    add_tree(draft, arena, prefixes, *notes)?;
    add_body(draft, arena, prefixes, section, body)
}

/// Adds the section of a block, if it has one.
#[tactic(auto, using(crate::proofs::BlockLaws::element_is))]
fn add_section(
    draft: &mut Draft,
    arena: &Arena,
    prefixes: &Prefixes,
    section: Section,
    part: &Option<(ExprId, Body<'_>)>,
) -> Result<(), WriteFault>
    requires { IsPartHeld arena.now.trees part.now }
    ensures ok { OnOk result (draft.new ≡ draft.old
        ++ part_seen prefixes.now arena.now.trees section part.now) }
    ensures too_long { IsErrOf result WriteFault.TooLong
        → IsTooLong (draft.old ++ part_seen prefixes.now arena.now.trees section part.now) }
{
    match part {
        Some(part) => add_element(draft, arena, prefixes, section, part),
        None => Ok(()),
    }
}

/// Adds what a frame is of, behind a space.
#[tactic(auto, using(crate::proofs::BlockLaws::named_text))]
fn add_subject(
    draft: &mut Draft,
    arena: &Arena,
    prefixes: &Prefixes,
    subject: &Option<Subject<'_>>,
) -> Result<(), WriteFault>
    requires { IsSubjectHeld arena.now.trees subject.now }
    ensures ok { OnOk result (draft.new ≡ draft.old
        ++ name_seen prefixes.now arena.now.trees subject.now) }
    ensures too_long { IsErrOf result WriteFault.TooLong
        → IsTooLong (draft.old ++ name_seen prefixes.now arena.now.trees subject.now) }
{
    match subject {
        Some(Subject::Held(id)) => add_name(draft, arena, prefixes, *id),
        Some(Subject::Named(_, iri)) => add_named(draft, prefixes, iri),
        None => Ok(()),
    }
}

/// Adds a tree behind a space.
#[tactic(auto, using(owl_characters::proofs::Utf8Laws::size_append))]
fn add_name(
    draft: &mut Draft,
    arena: &Arena,
    prefixes: &Prefixes,
    id: ExprId,
) -> Result<(), WriteFault>
    requires { id < length arena.now.trees }
    ensures ok { OnOk result (draft.new ≡ draft.old ++ (codes " "
        ++ said_at prefixes.now arena.now.trees id)) }
    ensures too_long { IsErrOf result WriteFault.TooLong
        → IsTooLong (draft.old ++ (codes " " ++ said_at prefixes.now arena.now.trees id)) }
{
    draft.add_ascii(" ")?;
    add_tree(draft, arena, prefixes, id)
}

/// Adds an IRI behind a space.
#[tactic(auto, using(owl_characters::proofs::Utf8Laws::size_append))]
fn add_named(draft: &mut Draft, prefixes: &Prefixes, iri: &Iri) -> Result<(), WriteFault>
    ensures ok { OnOk result (draft.new ≡ draft.old ++ (codes " "
        ++ iri_text prefixes.now iri.now)) }
    ensures too_long { IsErrOf result WriteFault.TooLong
        → IsTooLong (draft.old ++ (codes " " ++ iri_text prefixes.now iri.now)) }
{
    draft.add_ascii(" ")?;
    draft.add_iri(prefixes, iri)
}

/// Adds a block, with the line feed behind it.
#[tactic(auto, using(owl_characters::proofs::Utf8Laws::size_append))]
fn add_plan(
    draft: &mut Draft,
    arena: &Arena,
    prefixes: &Prefixes,
    heading: Heading,
    section: Section,
    subject: &Option<Subject<'_>>,
    part: &Option<(ExprId, Body<'_>)>,
) -> Result<(), WriteFault>
    requires subject { IsSubjectHeld arena.now.trees subject.now }
    requires part { IsPartHeld arena.now.trees part.now }
    ensures ok { OnOk result (draft.new ≡ draft.old
        ++ told_text prefixes.now arena.now.trees heading section subject.now part.now) }
    ensures too_long { IsErrOf result WriteFault.TooLong
        → IsTooLong (draft.old
        ++ told_text prefixes.now arena.now.trees heading section subject.now part.now) }
{
    add_keyword(draft, heading_class(heading))?;
    add_subject(draft, arena, prefixes, subject)?;
    add_section(draft, arena, prefixes, section, part)?;
    draft.add_ascii("\n")
}

/// Adds the block of an axiom under these kinds of names.
#[tactic(auto, using(crate::proofs::BlockLaws::plan_is))]
pub fn add_block(
    draft: &mut Draft,
    kinds: &Kinds,
    arena: &Arena,
    prefixes: &Prefixes,
    id: ExprId,
) -> Result<(), WriteFault>
    requires { id < length arena.now.trees }
    ensures ok { OnOk result (draft.new ≡ draft.old ++ block_of_text
        (knows kinds.now) prefixes.now (tree_at arena.now.trees id)) }
    ensures too_long { IsErrOf result WriteFault.TooLong
        → IsTooLong (draft.old ++ block_of_text (knows kinds.now) prefixes.now
        (tree_at arena.now.trees id)) }
{
    let Plan {
        heading,
        section,
        subject,
        part,
    } = plan_of(kinds, arena, id);
    add_plan(draft, arena, prefixes, heading, section, &subject, &part)
}
