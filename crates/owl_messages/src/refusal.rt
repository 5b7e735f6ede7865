//! What is answered where a document is not read.

ghost use Rattle.std.specs.Prelude.{◌≡◌, ◌≢◌, ◌++◌, string_bytes, codes, decimal, IfOk};
ghost use Rattle.owl_messages.specs.Outcome.{defect_outcome, missing_import, passed_limit, reason_word, refusal_outcome};
ghost use Rattle.owl_messages.specs.Answers.{outcome_of, trouble_outcome};

use crate::answer::{Answer, refused};
use crate::unsaid::refuse_headless;
use owl_atom::Iri;
use owl_characters::NoMemory;
use owl_command::Status;
use owl_documents::{Refusal, Trouble};
use owl_reader::{ReadFault, Reason};
use std::alloc::{AllocError, Global};

/// The word that a reason is told by.
fn word(reason: Reason) -> &'static str
    ensures { result.now ≡ reason_word reason }
{
    match reason {
        Reason::BadUtf8 => "BadUtf8",
        Reason::BadToken => "BadToken",
        Reason::NotHere => "NotHere",
        Reason::UnknownPrefix => "UnknownPrefix",
        Reason::PrefixTwice => "PrefixTwice",
        Reason::PrefixFixed => "PrefixFixed",
        Reason::BadLiteral => "BadLiteral",
        Reason::EmptyKey => "EmptyKey",
        Reason::BadIri => "BadIri",
        Reason::RelativeWithoutBase => "RelativeWithoutBase",
    }
}

/// Where an item begins, and what is wrong with it at which place.
fn defect_line(
    alloc: Global,
    name: &str,
    item_at: u64,
    at: u64,
    reason: Reason,
) -> Result<String, AllocError>
    ensures { IfOk result (λ line. string_bytes line
        ≡ name.now ++ (codes ": item at " ++ (decimal item_at ++ (codes ": " ++ (reason_word reason ++ (codes " at " ++ (decimal at ++ codes "\n"))))))) }
{
    let word = word(reason);
    format!(in alloc; "{name}: item at {item_at}: {word} at {at}\n")
}

/// Which limit was passed, and where.
fn limit_line(alloc: Global, count: &str, name: &str) -> Result<String, AllocError>
    ensures { IfOk result (λ line. string_bytes line ≡ codes "limit: " ++ (count.now ++ (codes ": " ++ (name.now ++ codes "\n")))) }
{
    format!(in alloc; "limit: {count}: {name}\n")
}

/// What is answered where the document of this name passes this limit.
pub fn refuse_limit(alloc: Global, count: &str, name: &str) -> Result<Answer, NoMemory>
    ensures { IfOk result (λ answer. outcome_of answer ≡ passed_limit count.now name.now) }
{
    refused(alloc, Status::Limit, limit_line(alloc, count, name))
}

/// What is answered where what is to be written would pass this limit.
pub fn refuse_output(alloc: Global, count: &str) -> Result<Answer, NoMemory>
    ensures { IfOk result (λ answer. outcome_of answer ≡ passed_limit count.now (codes "output")) }
{
    refuse_limit(alloc, count, "output")
}

/// What is answered where the document of this name has this defect.
fn refuse_defect(alloc: Global, name: &str, fault: ReadFault) -> Result<Answer, NoMemory>
    ensures { IfOk result (λ answer. outcome_of answer ≡ defect_outcome name.now fault) }
{
    let line = match fault {
        ReadFault::Refused {
            item_at,
            at,
            reason,
        } => {
            let line = defect_line(alloc, name, item_at, at, reason);
            return refused(alloc, Status::Document, line);
        }
        ReadFault::TooLong => limit_line(alloc, "DocumentBytes", name),
        ReadFault::TooDeep => limit_line(alloc, "Depth", name),
        ReadFault::TooHeavy => limit_line(alloc, "Weight", name),
        ReadFault::NumberTooLarge => limit_line(alloc, "Cardinality", name),
        ReadFault::TooMany => limit_line(alloc, "Triples", name),
        ReadFault::Memory => return Err(NoMemory),
    };
    refused(alloc, Status::Limit, line)
}

/// What is answered where the bytes of the document of this name are not canonical.
fn refuse_bytes(alloc: Global, name: &str) -> Result<Answer, NoMemory>
    ensures { IfOk result (λ answer.
        outcome_of answer ≡ refusal_outcome name.now Refusal.NotCanon) }
{
    refused(
        alloc,
        Status::Document,
        format!(in alloc; "{name}: NotCanon\n"),
    )
}

/// What is answered where the document of this name is refused.
fn refuse(alloc: Global, name: &str, refusal: &Refusal) -> Result<Answer, NoMemory>
    ensures { IfOk result (λ answer. outcome_of answer ≡ refusal_outcome name.now refusal.now) }
{
    match refusal {
        Refusal::DocumentBytes => refuse_limit(alloc, "DocumentBytes", name),
        Refusal::AllBytes => refuse_limit(alloc, "AllBytes", name),
        Refusal::Unreadable(fault) => refuse_defect(alloc, name, *fault),
        Refusal::Headless(fault) => refuse_headless(alloc, name, fault),
        Refusal::NotCanon => refuse_bytes(alloc, name),
    }
}

/// What is answered where there is this trouble with the document of this name.
pub fn answer_trouble(alloc: Global, name: &str, trouble: &Trouble) -> Result<Answer, NoMemory>
    ensures outcome { IfOk result (λ answer.
        outcome_of answer ≡ trouble_outcome name.now trouble.now) }
    ensures memory { IfOk result (λ _. trouble.now ≢ Trouble.Memory) }
{
    match trouble {
        Trouble::ReadFailed => refused(
            alloc,
            Status::ReadFailed,
            format!(in alloc; "read: {name}\n"),
        ),
        Trouble::Refused(refusal) => refuse(alloc, name, refusal),
        Trouble::Memory => Err(NoMemory),
    }
}

/// The line of an import that names no document.
fn import_line(alloc: Global, name: &str, iri: &str) -> Result<String, AllocError>
    ensures { IfOk result (λ line. string_bytes line
        ≡ name.now ++ (codes ": MissingImport <" ++ (iri.now ++ codes ">\n"))) }
{
    format!(in alloc; "{name}: MissingImport <{iri}>\n")
}

/// What is answered where the document of this name has an import that names none.
pub fn refuse_import(alloc: Global, name: &str, iri: &Iri) -> Result<Answer, NoMemory>
    ensures { IfOk result (λ answer. outcome_of answer ≡ missing_import name.now iri.now) }
{
    refused(
        alloc,
        Status::Document,
        import_line(alloc, name, iri.text()),
    )
}
