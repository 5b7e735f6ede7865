//! What is told of documents by what they say.

ghost use Rattle.std.specs.Prelude.{◌≡◌, ◌<◌, List, IfOk, length};
ghost use Rattle.fss_terms.specs.Functional.{ReadsFunctional};
ghost use Rattle.owl_doc.specs.Documents.{ontology_of};
ghost use Rattle.owl_documents.specs.Documents.{Parsed, said_of};
ghost use Rattle.owl_writing.specs.Tables.{declared_prefixes};
ghost use Rattle.owl_answer.specs.Answers.{IsInTurtle, IsToldOf, IsToldOfMain, IsTranslated};
ghost use Rattle.owl_answer.specs.Outcome.{IsSuccess};
ghost use Rattle.owl_answer.specs.Reading.{IsReadAs, asks_types};
ghost use Rattle.owl_answer.specs.TurtleOutcome.{IsFunctionalTranslation};
ghost use Rattle.owl_messages.specs.Answers.{outcome_of};
ghost use Rattle.owl_messages.specs.Outcome.{IsLimited, shown, translation};

use crate::canonical::{tell_canonical, tell_digest};
use crate::checking::check;
use crate::closure::Closure;
use crate::declaring::tell_declaration;
use crate::manchester::translate_to_manchester;
use crate::turtle::translate_to_turtle;
use crate::typing::typing_refusal;
use crate::written::translated;
use fss_write::{WriteFault, write};
use owl_characters::{MOST_BYTES, NoMemory};
use owl_command::{Action, Layout, Status, Target};
use owl_doc::Doc;
use owl_messages::{Answer, summary, told, told_as_translated, too_long_output};
use owl_tree::Kinds;
use std::alloc::Global;

/// What an action tells of the main document, which is the first, and of those that it
/// reaches: this is what they say.
pub fn tell_closure(
    alloc: Global,
    action: Action,
    asks: bool,
    closure: Closure,
    said: Vec<Doc>,
) -> Result<Answer, NoMemory>
    requires some { 0 < length said.items }
    requires each { length closure.places.items ≡ length said.items }
    ensures { IfOk result (λ answer. (documents : List Parsed)
        → IsReadAs documents closure said.items asks
        → IsToldOf action documents (outcome_of answer)) }
{
    match action {
        Action::Translate(target) => {
            tell_translation(alloc, target, asks, &closure.kinds, &said[0])
        }
        Action::Check(profile) => check(alloc, profile, closure, said),
        Action::Show => show(alloc, &said[0]),
        Action::Declare(target) => tell_declaration(alloc, target, closure, &said[0]),
        Action::Canon => tell_canonical(alloc, &said[0]),
        Action::Digest => tell_digest(alloc, &said[0]),
    }
}

/// The translation of the main document, told as one.
fn tell_translation(
    alloc: Global,
    target: Target,
    asks: bool,
    kinds: &Kinds,
    main: &Doc,
) -> Result<Answer, NoMemory>
    ensures { IfOk result (λ answer. (documents : List Parsed) (parsed : Parsed)
        → asks_types parsed ≡ asks → IsToldOfMain (Action.Translate target) documents parsed
        kinds.now (said_of main.now) (outcome_of answer)) }
{
    let answer = translate(alloc, target, asks, kinds, main)?;
    told_as_translated(alloc, answer)
}

/// The translation of the main document.
pub fn translate(
    alloc: Global,
    target: Target,
    asks: bool,
    kinds: &Kinds,
    main: &Doc,
) -> Result<Answer, NoMemory>
    ensures { IfOk result (λ answer. (parsed : Parsed) → asks_types parsed ≡ asks →
        IsTranslated target parsed kinds.now (said_of main.now) (outcome_of answer)) }
{
    match target {
        Target::Fss => translate_in_functional(alloc, asks, kinds, main),
        Target::Ttl(layout) => translate_in_turtle(alloc, layout, kinds, main),
        Target::Omn => translate_to_manchester(alloc, main, kinds),
    }
}

/// The translation of the main document to Functional-Style Syntax, which says of
/// what is written in it no more than was written.
fn translate_in_functional(
    alloc: Global,
    asks: bool,
    kinds: &Kinds,
    main: &Doc,
) -> Result<Answer, NoMemory>
    ensures { IfOk result (λ answer. (parsed : Parsed) → asks_types parsed ≡ asks →
        IsTranslated Target.Fss parsed kinds.now (said_of main.now) (outcome_of answer)) }
{
    if asks {
        translate_typed(alloc, kinds, main)
    } else {
        translate_to_functional(alloc, main)
    }
}

/// The translation of what another document says to Functional-Style Syntax.
fn translate_typed(alloc: Global, kinds: &Kinds, main: &Doc) -> Result<Answer, NoMemory>
    ensures outcome { IfOk result (λ answer.
        IsFunctionalTranslation kinds.now (said_of main.now) (outcome_of answer)) }
    ensures back { IfOk result (λ answer. IsSuccess answer.status →
        ReadsFunctional (outcome_of answer).text (declared_prefixes main.now.prefixes)
        (ontology_of main.now)) }
{
    match typing_refusal(alloc, kinds, main)? {
        Some(refusal) => Ok(refusal),
        None => translate_to_functional(alloc, main),
    }
}

/// The translation of a document to Functional-Style Syntax.
fn translate_to_functional(alloc: Global, doc: &Doc) -> Result<Answer, NoMemory>
    ensures outcome { IfOk result (λ answer.
        IsLimited (λ wanted. wanted ≡ translation (said_of doc.now)) (outcome_of answer)) }
    ensures back { IfOk result (λ answer. IsSuccess answer.status →
        ReadsFunctional (outcome_of answer).text (declared_prefixes doc.now.prefixes)
        (ontology_of doc.now)) }
{
    // What is known of every document.
    doc.notes();
    match write(alloc, doc) {
        Ok(text) => translated(alloc, doc, 0, text),
        Err(WriteFault::TooLong) => too_long_output(alloc),
        Err(WriteFault::Memory) => Err(NoMemory),
    }
}

/// The translation of a document to Turtle.
fn translate_in_turtle(
    alloc: Global,
    layout: Layout,
    kinds: &Kinds,
    main: &Doc,
) -> Result<Answer, NoMemory>
    ensures { IfOk result (λ answer.
        IsInTurtle layout kinds.now (said_of main.now) (outcome_of answer)) }
{
    // What is known of every document.
    main.notes();
    translate_to_turtle(alloc, layout, main, kinds)
}

/// What a document counts.
fn show(alloc: Global, doc: &Doc) -> Result<Answer, NoMemory>
    ensures { IfOk result (λ answer.
        IsLimited (λ wanted. wanted ≡ shown (said_of doc.now)) (outcome_of answer)) }
{
    let text = summary(alloc, doc)?;
    if MOST_BYTES < text.as_str().len() as u64 {
        too_long_output(alloc)
    } else {
        told(alloc, Status::Done, text, "shown\n")
    }
}
