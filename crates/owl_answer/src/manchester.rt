//! What is answered for a document that is translated to Manchester Syntax.

ghost use Rattle.std.specs.Prelude.{◌≡◌, IfOk};
ghost use Rattle.man_text.specs.Readable.{CanBeWritten};
ghost use Rattle.owl_doc.specs.Documents.{ontology_of};
ghost use Rattle.owl_documents.specs.Documents.{said_of};
ghost use Rattle.owl_answer.specs.Answers.{IsInManchester};
ghost use Rattle.owl_answer.specs.ManchesterOutcome.{IsReadyForFrames, ReadsForm, manchester_translation};
ghost use Rattle.owl_answer.specs.Outcome.{IsSuccess};
ghost use Rattle.owl_answer.specs.TurtleOutcome.{IsTyped};
ghost use Rattle.owl_messages.specs.Answers.{outcome_of};
ghost use Rattle.owl_messages.specs.Outcome.{IsLimited};

use crate::typing::typing_refusal;
use crate::written::translated;
use man_normal::{NormFault, normal};
use man_write::{WriteFault, can, write};
use owl_characters::NoMemory;
use owl_doc::Doc;
use owl_messages::{Answer, refuse_output, refuse_unsayable, too_long_output};
use owl_tree::Kinds;
use std::alloc::Global;

/// What is answered for a normal form, by its text.
fn write_form(alloc: Global, form: &Doc, kinds: &Kinds) -> Result<Answer, NoMemory>
    requires written { CanBeWritten kinds.now (ontology_of form.now) }
    requires typed { IsTyped kinds.now (ontology_of form.now) }
    ensures outcome { IfOk result (λ answer.
        IsLimited (λ wanted. wanted ≡ manchester_translation kinds.now (said_of form.now))
        (outcome_of answer)) }
    ensures back { IfOk result (λ answer. IsSuccess (outcome_of answer).status
        → ReadsForm kinds.now (outcome_of answer).text (said_of form.now)) }
{
    // A document is in canonical form.
    form.notes();
    match write(alloc, form, kinds) {
        Ok(text) => translated(alloc, form, 0, text),
        Err(WriteFault::TooLong) => too_long_output(alloc),
        Err(WriteFault::Memory) => Err(NoMemory),
    }
}

/// What is answered for a document of which frames can say all, by its normal
/// form.
fn translate_sayable(alloc: Global, doc: &Doc, kinds: &Kinds) -> Result<Answer, NoMemory>
    requires { IsReadyForFrames kinds.now (ontology_of doc.now) }
    ensures { IfOk result (λ answer.
        IsInManchester kinds.now (said_of doc.now) (outcome_of answer)) }
{
    // A document is in canonical form.
    doc.notes();
    match normal(alloc, doc, kinds) {
        Ok(form) => write_form(alloc, &form, kinds),
        Err(NormFault::TooHeavy) => refuse_output(alloc, "Weight"),
        Err(NormFault::Memory) => Err(NoMemory),
    }
}

/// What is answered for a document that is well typed.
fn translate_typed(alloc: Global, doc: &Doc, kinds: &Kinds) -> Result<Answer, NoMemory>
    requires { IsTyped kinds.now (ontology_of doc.now) }
    ensures { IfOk result (λ answer.
        IsInManchester kinds.now (said_of doc.now) (outcome_of answer)) }
{
    // A document is in canonical form.
    doc.notes();
    if let Some(cant) = can(doc, kinds) {
        return refuse_unsayable(alloc, doc, &cant);
    }
    translate_sayable(alloc, doc, kinds)
}

/// What is answered for a document that is translated to Manchester Syntax, under
/// the kinds of its imports closure: the first refusal that there is cause for, or
/// the text of its normal form, which reads back to it.
pub fn translate_to_manchester(alloc: Global, doc: &Doc, kinds: &Kinds) -> Result<Answer, NoMemory>
    ensures { IfOk result (λ answer.
        IsInManchester kinds.now (said_of doc.now) (outcome_of answer)) }
{
    // A document is in canonical form.
    doc.notes();
    match typing_refusal(alloc, kinds, doc)? {
        Some(refusal) => Ok(refusal),
        None => translate_typed(alloc, doc, kinds),
    }
}
