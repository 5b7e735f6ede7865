//! The answer with the text of a translation.

ghost use Rattle.std.specs.Prelude.{◌≡◌, IfOk};
ghost use Rattle.std.specs.Str.{encode_utf8_all};
ghost use Rattle.owl_command.specs.declared.status.Status.TheVariants.{Done};
ghost use Rattle.owl_doc.specs.Counts.{axiom_count};
ghost use Rattle.owl_doc.specs.Documents.{ontology_of};
ghost use Rattle.owl_messages.specs.Answers.{outcome_of};
ghost use Rattle.owl_messages.specs.Outcome.{counts_line};

use owl_characters::{NoMemory, Text};
use owl_command::Status;
use owl_doc::Doc;
use owl_messages::{Answer, Output, counts_line};
use std::alloc::Global;

/// The answer with this text of the document, for which so many axioms were
/// absorbed.
pub fn translated(alloc: Global, doc: &Doc, absorbed: u64, text: Text) -> Result<Answer, NoMemory>
    ensures { IfOk result (λ answer. outcome_of answer ≡ record {
      status = Done;
      text = encode_utf8_all text;
      line = counts_line (axiom_count (ontology_of doc.now)) absorbed;
    }) }
{
    let line = counts_line(alloc, doc.axioms().len() as u64, absorbed)?;
    Ok(Answer {
        status: Status::Done,
        output: Output::Text(text),
        line,
    })
}
