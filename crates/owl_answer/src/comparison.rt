//! What is answered of two documents that are compared.

ghost use Rattle.std.specs.Prelude.{IfOk, map};
ghost use Rattle.owl_command.specs.Commands.{request_of};
ghost use Rattle.owl_documents.specs.Documents.{parsed_of, said_of};
ghost use Rattle.owl_answer.specs.Asked.{IsAnswerFor, IsOfTwo};
ghost use Rattle.owl_answer.specs.Outcome.{IsComparison};
ghost use Rattle.owl_answer.specs.UnderKinds.{SaysAt};
ghost use Rattle.owl_messages.specs.Answers.{outcome_of};
ghost use Rattle.owl_messages.specs.Outcome.{IsLimited};

use crate::asked::Asked;
use crate::reading::read_alone;
use owl_characters::NoMemory;
use owl_command::Status;
use owl_doc::Doc;
use owl_messages::{Answer, refuse_unsaid, said};
use std::alloc::Global;

/// What is answered of two documents, each of which is read under the kinds that
/// it declares itself.
pub fn compare_both(alloc: Global, asked: &Asked) -> Result<Answer, NoMemory>
    requires { IsOfTwo asked.now }
    ensures { IfOk result (IsAnswerFor asked.now) }
{
    match read_alone(alloc, &asked.docs[0]) {
        Ok(first) => compare_second(alloc, asked, first.doc()),
        Err(fault) => refuse_unsaid(alloc, asked.command.name(0), &fault),
    }
}

/// What is answered where this is what the first document says.
fn compare_second(alloc: Global, asked: &Asked, first: &Doc) -> Result<Answer, NoMemory>
    requires two { IsOfTwo asked.now }
    requires first { SaysAt (request_of asked.now.command.now)
        (map parsed_of asked.now.docs.items) 0 (said_of first.now) }
    ensures { IfOk result (IsAnswerFor asked.now) }
{
    match read_alone(alloc, &asked.docs[1]) {
        Ok(second) => compare(alloc, first, second.doc()),
        Err(fault) => refuse_unsaid(alloc, asked.command.name(1), &fault),
    }
}

/// Whether two documents say the same.
fn compare(alloc: Global, doc: &Doc, other: &Doc) -> Result<Answer, NoMemory>
    ensures { IfOk result (λ answer.
        IsLimited (IsComparison (said_of doc.now) (said_of other.now)) (outcome_of answer)) }
{
    if doc.same(other) {
        said(alloc, Status::Done, "same\n")
    } else {
        said(alloc, Status::No, "different\n")
    }
}
