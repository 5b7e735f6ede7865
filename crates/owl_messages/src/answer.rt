//! What a run answers, before anything is written.

ghost use Rattle.std.specs.Prelude.{◌≡◌, ◌++◌, [], string_bytes, IfOk, IsErr};
ghost use Rattle.std.specs.Str.{encode_utf8_all};
ghost use Rattle.owl_messages.specs.Outcome.{counts_line, declared, told_with, too_long_output, translated};
ghost use Rattle.owl_messages.specs.Answers.{outcome_of, output_bytes};

use owl_characters::{NoMemory, Text};
use owl_command::Status;
use std::alloc::{AllocError, Global};

/// What is written to the output.
#[derive(Debug, Drop)]
pub enum Output {
    /// A text, in UTF-8.
    Text(Text),
    /// Bytes that are no text.
    Bytes(Vec<u8>),
}

impl Output {
    /// The bytes that are written.
    pub fn as_bytes(&self) -> &[u8]
        ensures { result.now ≡ output_bytes self.now }
    {
        match self {
            Output::Text(text) => text.as_str().as_bytes(),
            Output::Bytes(bytes) => bytes.as_slice(),
        }
    }
}

/// The status of a run, what is written to the output, which is empty unless all is well, and the line for the note.
#[derive(Debug, Drop)]
pub struct Answer {
    pub status: Status,
    pub output: Output,
    pub line: String,
}

/// An answer that writes its line and nothing else.
pub fn refused(
    alloc: Global,
    status: Status,
    line: Result<String, AllocError>,
) -> Result<Answer, NoMemory>
    ensures ok { IfOk result (λ answer. IfOk line (λ text. outcome_of answer ≡ record { status = status; text = []; line = string_bytes text })) }
    ensures only { IsErr line → IsErr result }
{
    Ok(Answer {
        status,
        output: Output::Text(Text::new(alloc)),
        line: line?,
    })
}

/// An answer that writes a text, and a line.
pub fn told(alloc: Global, status: Status, text: Text, line: &str) -> Result<Answer, NoMemory>
    ensures { IfOk result (λ answer. outcome_of answer ≡ record { status = status; text = encode_utf8_all text; line = line.now }) }
{
    Ok(Answer {
        status,
        output: Output::Text(text),
        line: String::from_str(alloc, line)?,
    })
}

/// An answer that writes these bytes, and a line.
pub fn told_in_bytes(
    alloc: Global,
    status: Status,
    bytes: Vec<u8>,
    line: &str,
) -> Result<Answer, NoMemory>
    ensures { IfOk result (λ answer.
        outcome_of answer ≡ record { status = status; text = bytes.items; line = line.now }) }
{
    Ok(Answer {
        status,
        output: Output::Bytes(bytes),
        line: String::from_str(alloc, line)?,
    })
}

/// An answer that writes the same line as a text and to the note.
pub fn said(alloc: Global, status: Status, line: &str) -> Result<Answer, NoMemory>
    ensures { IfOk result (λ answer. outcome_of answer ≡ record { status = status; text = line.now; line = line.now }) }
{
    told(alloc, status, Text::of(alloc, line)?, line)
}

/// How many axioms were written, and how many are said in others.
pub fn counts_line(alloc: Global, axioms: u64, absorbed: u64) -> Result<String, AllocError>
    ensures { IfOk result (λ line. string_bytes line ≡ counts_line axioms absorbed) }
{
    format!(in alloc; "axioms {axioms}; absorbed {absorbed}\n")
}

/// The answer of a translation, told as one of a document as it is.
pub fn told_as_translated(alloc: Global, answer: Answer) -> Result<Answer, NoMemory>
    ensures { IfOk result (λ told. outcome_of told ≡ told_with translated (outcome_of answer)) }
{
    let Answer {
        status,
        output,
        line,
    } = answer;
    let line = match status {
        Status::Done => format!(in alloc; "translated; {line}")?,
        _ => line,
    };
    Ok(Answer {
        status,
        output,
        line,
    })
}

/// The answer of a translation, told as one of a document that so many declarations were
/// added to.
pub fn told_as_declared(alloc: Global, added: u64, answer: Answer) -> Result<Answer, NoMemory>
    ensures { IfOk result (λ told.
        outcome_of told ≡ told_with (declared added) (outcome_of answer)) }
{
    let Answer {
        status,
        output,
        line,
    } = answer;
    let line = match status {
        Status::Done => format!(in alloc; "declared; added {added}; {line}")?,
        _ => line,
    };
    Ok(Answer {
        status,
        output,
        line,
    })
}

/// The answer where the text would have more than 2^27 bytes.
pub fn too_long_output(alloc: Global) -> Result<Answer, NoMemory>
    ensures { IfOk result (λ answer. outcome_of answer ≡ too_long_output) }
{
    refused(
        alloc,
        Status::Limit,
        format!(in alloc; "limit: OutputBytes: output\n"),
    )
}
