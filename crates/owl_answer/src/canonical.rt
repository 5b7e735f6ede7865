//! What is told of the canonical bytes of documents.

ghost use Rattle.std.specs.Prelude.{◌≡◌, IfOk};
ghost use Rattle.owl_canon.specs.Limits.{ReadsCanonical};
ghost use Rattle.owl_doc.specs.Documents.{ontology_of};
ghost use Rattle.owl_documents.specs.Documents.{said_of};
ghost use Rattle.owl_answer.specs.Outcome.{IsSuccess};
ghost use Rattle.owl_messages.specs.Answers.{outcome_of};
ghost use Rattle.owl_messages.specs.Outcome.{IsLimited, canonical, digested};

use owl_canon::{WriteFault, digest_text, write};
use owl_characters::NoMemory;
use owl_command::Status;
use owl_doc::Doc;
use owl_messages::{Answer, told, told_in_bytes, too_long_output};
use std::alloc::Global;

/// The canonical bytes of a document, which read back to the same ontology.
pub fn tell_canonical(alloc: Global, doc: &Doc) -> Result<Answer, NoMemory>
    ensures outcome { IfOk result (λ answer.
        IsLimited (λ wanted. wanted ≡ canonical (said_of doc.now)) (outcome_of answer)) }
    ensures back { IfOk result (λ answer. IsSuccess answer.status →
        ReadsCanonical (outcome_of answer).text (ontology_of doc.now)) }
{
    match write(alloc, doc) {
        Ok(bytes) => told_in_bytes(alloc, Status::Done, bytes, "canonical\n"),
        Err(WriteFault::TooLong) => too_long_output(alloc),
        Err(WriteFault::Memory) => Err(NoMemory),
    }
}

/// The digest of the canonical bytes of a document, in hexadecimal digits.
pub fn tell_digest(alloc: Global, doc: &Doc) -> Result<Answer, NoMemory>
    ensures { IfOk result (λ answer. outcome_of answer ≡ digested (said_of doc.now)) }
{
    let mut text = digest_text(alloc, doc)?;
    text.push('\n')?;
    told(alloc, Status::Done, text, "digested\n")
}
