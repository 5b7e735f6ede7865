//! What is answered for documents that are read.

ghost use Rattle.std.specs.Prelude.{◌≡◌, IfOk, map};
ghost use Rattle.owl_command.specs.Commands.{request_of};
ghost use Rattle.owl_documents.specs.Documents.{parsed_of};
ghost use Rattle.owl_answer.specs.Asked.{IsAnswerFor, IsAnswerTo, IsAsked, IsOfAction};
ghost use Rattle.owl_answer.specs.Reading.{asks_types};
ghost use Rattle.owl_answer.specs.Runs.{HasImports};

use crate::asked::Asked;
use crate::closure::closure_of;
use crate::comparison::compare_both;
use crate::guessing::with_guesses;
use crate::imports::first_missing;
use crate::reading::read_closure;
use crate::telling::tell_closure;
use crate::trial::answer_trial;
use owl_characters::NoMemory;
use owl_command::{Action, Command};
use owl_documents::Document;
use owl_messages::{Answer, refuse_import, refuse_unsaid};
use std::alloc::Global;

/// What is answered for the documents that a command names, all of which are
/// read: imports are looked at, annotation properties are guessed where that is
/// asked for, then what documents say under their kinds, and then what is asked for.
pub fn conclude(alloc: Global, asked: Asked) -> Result<Answer, NoMemory>
    requires { IsAsked asked }
    ensures { IfOk result (IsAnswerTo asked.entry) }
{
    match first_missing(alloc, &asked)? {
        Some(missing) => refuse_import(alloc, asked.command.name(missing.document), &missing.iri),
        None => answer_guessed(alloc, asked),
    }
}

/// What is answered for documents whose imports are there.
fn answer_guessed(alloc: Global, asked: Asked) -> Result<Answer, NoMemory>
    requires asked { IsAsked asked }
    requires imports { HasImports (request_of asked.command.now)
        (map parsed_of asked.docs.items) }
    ensures { IfOk result (IsAnswerTo asked.entry) }
{
    let Asked { command, docs } = asked;
    let docs = with_guesses(alloc, command, docs)?;
    answer_command(alloc, Asked { command, docs })
}

/// What is answered by what these documents say.
fn answer_command(alloc: Global, asked: Asked) -> Result<Answer, NoMemory>
    requires { IsAsked asked }
    ensures { IfOk result (IsAnswerFor asked.entry) }
{
    match asked.command {
        Command::OfMain { action, .. } => answer_action(alloc, asked, *action),
        Command::Same { .. } => compare_both(alloc, &asked),
        Command::Trial { size } => answer_trial(alloc, *size),
    }
}

/// What is answered by an action of the main document, once each that it reaches is
/// known to say something.
fn answer_action(alloc: Global, asked: Asked, action: Action) -> Result<Answer, NoMemory>
    requires { IsOfAction asked action }
    ensures { IfOk result (IsAnswerFor asked.entry) }
{
    let Asked { command, docs } = asked;
    let closure = closure_of(alloc, &docs)?;
    let asks = asks_types(&docs[0]);
    match read_closure(alloc, docs, &closure) {
        Ok(said) => tell_closure(alloc, action, asks, closure, said),
        Err(unsaid) => refuse_unsaid(alloc, command.name(unsaid.document), &unsaid.fault),
    }
}

/// Whether each name of the document has to have its kind before it is written in
/// Functional-Style Syntax.
fn asks_types(doc: &Document) -> bool
    ensures { result ≡ asks_types (parsed_of doc.now) }
{
    match doc {
        Document::Ontology(_) => false,
        Document::Canonical(_) | Document::Graph(_) | Document::Frames(_) => true,
    }
}
