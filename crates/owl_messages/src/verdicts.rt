//! What is told of an import closure that is checked.

ghost use Rattle.std.specs.Prelude.{◌≡◌, ◌≤◌, ◌++◌, List, [], length, IfOk, IsErrOf, OnOk};
ghost use Rattle.std.specs.List.{All, AllZip};
ghost use Rattle.std.specs.Str.{encode_utf8_all};
ghost use Rattle.breach_lists.specs.Telling.{Tells};
ghost use Rattle.owl_breaches.specs.Sites.{Site};
ghost use Rattle.owl_characters.specs.Limit.{most_bytes};
ghost use Rattle.owl_doc.specs.Entities.{IsHeldItem};
ghost use Rattle.owl_doc.specs.Parts.{part_at};
ghost use Rattle.owl_messages.specs.Answers.{outcome_of};
ghost use Rattle.owl_messages.specs.Outcome.{IsLimited};
ghost use Rattle.owl_messages.specs.VerdictLines.{IsHeldBreach, found_line, found_lines, line_front, part_line};
ghost use Rattle.owl_messages.specs.Verdicts.{no_line, part_text, verdict};
ghost use Rattle.owl_profiles.specs.Profiles.{ProfileRule, name_of};
ghost use Rattle.owl_writing.specs.Limits.{IsTooLong};

use crate::answer::{Answer, Output, too_long_output};
use fss_write::axiom_text;
use owl_characters::{NoMemory, Text};
use owl_command::{Profile, Status};
use owl_doc::{Breach, Closure, Doc, Item, Rule};
use owl_writing::{Draft, WriteFault};
use std::alloc::Global;

/// What a check of this profile tells of an import closure whose documents stand at
/// these places among all that are named, and in which these break rules: `yes`
/// where there are none, and else `no` and a line for each of them.
pub fn verdict(
    alloc: Global,
    profile: Profile,
    closure: &Closure,
    places: &[usize],
    found: &[Breach],
) -> Result<Answer, NoMemory>
    requires places { length places.now ≡ length closure.now.documents }
    requires found { (breaches : List (Site ProfileRule))
        × AllZip (Tells name_of closure.now.documents) breaches found.now }
    ensures { IfOk result (λ answer. (breaches : List (Site ProfileRule)) →
        AllZip (Tells name_of closure.now.documents) breaches found.now →
        IsLimited (λ wanted. wanted ≡ verdict profile places.now breaches) (outcome_of answer)) }
{
    if found.is_empty() {
        return agree(alloc, profile);
    }
    match verdict_text(alloc, closure, places, found) {
        Ok(text) => refuse(alloc, profile, found.len(), text),
        Err(WriteFault::TooLong) => too_long_output(alloc),
        Err(WriteFault::Memory) => Err(NoMemory),
    }
}

/// The answer where nothing breaks a rule of the profile.
fn agree(alloc: Global, profile: Profile) -> Result<Answer, NoMemory>
    ensures { IfOk result (λ answer. outcome_of answer ≡ verdict profile [] []) }
{
    let word = profile.word();
    Ok(Answer {
        status: Status::Done,
        output: Output::Text(Text::of(alloc, "yes\n")?),
        line: format!(in alloc; "profile {word}: yes\n")?,
    })
}

/// The answer where so many break rules of the profile, which the text tells.
fn refuse(alloc: Global, profile: Profile, count: usize, text: Text) -> Result<Answer, NoMemory>
    ensures { IfOk result (λ answer. outcome_of answer ≡ record {
      status = Status.No;
      text = encode_utf8_all text;
      line = no_line profile count;
    }) }
{
    let word = profile.word();
    Ok(Answer {
        status: Status::No,
        output: Output::Text(text),
        line: format!(in alloc; "profile {word}: no; breaches {count}\n")?,
    })
}

/// The text with a line for each of these.
fn verdict_text(
    alloc: Global,
    closure: &Closure,
    places: &[usize],
    found: &[Breach],
) -> Result<Text, WriteFault>
    requires places { length places.now ≡ length closure.now.documents }
    requires held { All (IsHeldBreach closure.now.documents) found.now }
    ensures text { IfOk result (λ text.
        text ≡ found_lines closure.now.documents places.now found.now) }
    ensures within { IfOk result (λ text. length (encode_utf8_all text) ≤ most_bytes) }
    ensures too_long { IsErrOf result WriteFault.TooLong →
        IsTooLong (found_lines closure.now.documents places.now found.now) }
{
    let mut draft = Draft::new(alloc);
    add_breaches(&mut draft, closure, places, found)?;
    Ok(draft.into_text())
}

/// Adds the answer, and a line for each of these.
#[tactic(auto, using(owl_characters::proofs::Utf8Laws::size_append))]
fn add_breaches(
    draft: &mut Draft,
    closure: &Closure,
    places: &[usize],
    found: &[Breach],
) -> Result<(), WriteFault>
    requires places { length places.now ≡ length closure.now.documents }
    requires held { All (IsHeldBreach closure.now.documents) found.now }
    ensures ok { OnOk result (draft.new
        ≡ draft.old ++ found_lines closure.now.documents places.now found.now) }
    ensures too_long { IsErrOf result WriteFault.TooLong →
        IsTooLong (draft.old ++ found_lines closure.now.documents places.now found.now) }
{
    draft.add_ascii("no\n")?;
    'found: for breach in found {
        add_breach(draft, closure, places, breach)?;
    }
    Ok(())
}

/// Adds the line of this breach.
fn add_breach(
    draft: &mut Draft,
    closure: &Closure,
    places: &[usize],
    breach: &Breach,
) -> Result<(), WriteFault>
    requires places { length places.now ≡ length closure.now.documents }
    requires held { IsHeldBreach closure.now.documents breach.now }
    ensures ok { OnOk result (draft.new
        ≡ draft.old ++ found_line closure.now.documents places.now breach.now) }
    ensures too_long { IsErrOf result WriteFault.TooLong →
        IsTooLong (draft.old ++ found_line closure.now.documents places.now breach.now) }
{
    let doc = &closure.docs()[breach.document];
    add_line(
        draft,
        breach.rule,
        places[breach.document],
        doc,
        breach.item,
    )
}

/// Adds the line of this rule and of a part of the document in this place.
#[tactic(auto, using(owl_characters::proofs::Utf8Laws::size_append))]
fn add_line(
    draft: &mut Draft,
    rule: Rule,
    place: usize,
    doc: &Doc,
    item: Item,
) -> Result<(), WriteFault>
    requires { IsHeldItem doc.now item }
    ensures ok { OnOk result (draft.new
        ≡ draft.old ++ part_line rule place (part_text (part_at doc.now item))) }
    ensures too_long { IsErrOf result WriteFault.TooLong →
        IsTooLong (draft.old ++ part_line rule place (part_text (part_at doc.now item))) }
{
    add_front(draft, rule, place)?;
    add_part(draft, doc, item)?;
    draft.add_ascii("\n")
}

/// Adds the rule, and the number of the document in this place.
fn add_front(draft: &mut Draft, rule: Rule, place: usize) -> Result<(), WriteFault>
    ensures ok { OnOk result (draft.new ≡ draft.old ++ line_front rule place) }
    ensures too_long { IsErrOf result WriteFault.TooLong →
        IsTooLong (draft.old ++ line_front rule place) }
{
    // One more than the last of all places has 65 bits.
    let number = place as u128 + 1;
    let front = format!(in draft.allocator(); "{rule} {number} ")?;
    draft.add_ascii(front.as_str())
}

/// Adds a part of the document: an axiom with its IRIs in full.
#[tactic(auto, using(owl_characters::proofs::Utf8Laws::size_append))]
fn add_part(draft: &mut Draft, doc: &Doc, item: Item) -> Result<(), WriteFault>
    requires { IsHeldItem doc.now item }
    ensures ok { OnOk result (draft.new ≡ draft.old ++ part_text (part_at doc.now item)) }
    ensures too_long { IsErrOf result WriteFault.TooLong →
        IsTooLong (draft.old ++ part_text (part_at doc.now item)) }
{
    match item {
        Item::Header => draft.add_ascii("header"),
        Item::Axiom(id) => {
            let text = axiom_text(draft.allocator(), doc, id)?;
            draft.add(text.as_str())
        }
    }
}
