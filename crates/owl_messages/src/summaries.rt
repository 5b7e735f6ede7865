//! What is shown of a document.

ghost use Rattle.std.specs.Prelude.{◌≡◌, ◌++◌, codes, string_bytes, IfOk};
ghost use Rattle.std.specs.Str.{encode_utf8_all};
ghost use Rattle.owl_doc.specs.Documents.{ontology_of};
ghost use Rattle.owl_doc.specs.Heads.{StandsBeside, head_of};
ghost use Rattle.owl_messages.specs.Summary.{count_line, head_lines, iri_line, name_lines, size_lines, summary_text};

use owl_atom::Iri;
use owl_characters::{NoMemory, Text};
use owl_doc::{Counts, Doc, Head};
use std::alloc::{AllocError, Global};

/// A line with an IRI in full, if it is there.
fn iri_line(alloc: Global, label: &str, iri: &Option<Iri>) -> Result<String, AllocError>
    ensures { IfOk result (λ line. string_bytes line ≡ iri_line label.now iri.now) }
{
    match iri {
        Some(iri) => {
            let iri = iri.text();
            format!(in alloc; "{label} <{iri}>\n")
        }
        None => format!(in alloc; "{label} none\n"),
    }
}

/// A line with a number.
pub fn count_line(alloc: Global, label: &str, count: u64) -> Result<String, AllocError>
    ensures { IfOk result (λ line. string_bytes line ≡ count_line label.now count) }
{
    format!(in alloc; "{label} {count}\n")
}

/// How the ontology is called.
fn name_lines(alloc: Global, head: &Head) -> Result<String, AllocError>
    requires { StandsBeside head.now.version head.now.iri }
    ensures { IfOk result (λ lines. string_bytes lines ≡ name_lines (head_of head.now).name) }
{
    let ontology = iri_line(alloc, "ontology", &head.iri)?;
    let version = iri_line(alloc, "version", &head.version)?;
    format!(in alloc; "{ontology}{version}")
}

/// How many imports and annotations there are.
fn head_lines(alloc: Global, doc: &Doc) -> Result<String, AllocError>
    ensures { IfOk result (λ lines. string_bytes lines ≡ head_lines (ontology_of doc.now)) }
{
    let imports = count_line(alloc, "imports", doc.head().imports.len() as u64)?;
    let annotations = count_line(alloc, "annotations", doc.notes().len() as u64)?;
    format!(in alloc; "{imports}{annotations}")
}

/// How many axioms and distinct trees there are, and how large they are.
fn size_lines(alloc: Global, doc: &Doc) -> Result<String, NoMemory>
    ensures { IfOk result (λ lines. string_bytes lines ≡ size_lines (ontology_of doc.now)) }
{
    let Counts {
        axioms,
        distinct,
        weight,
    } = doc.counts(alloc)?;
    let axioms = count_line(alloc, "axioms", axioms)?;
    let distinct = count_line(alloc, "distinct", distinct)?;
    let weight = count_line(alloc, "weight", weight)?;
    Ok(format!(in alloc; "{axioms}{distinct}{weight}")?)
}

/// The seven lines on a document.
fn lines(alloc: Global, doc: &Doc) -> Result<String, NoMemory>
    ensures { IfOk result (λ lines. string_bytes lines ≡ summary_text (ontology_of doc.now)) }
{
    let names = name_lines(alloc, doc.head())?;
    let heads = head_lines(alloc, doc)?;
    let sizes = size_lines(alloc, doc)?;
    Ok(format!(in alloc; "{names}{heads}{sizes}")?)
}

/// What is shown of a document, in seven lines.
pub fn summary(alloc: Global, doc: &Doc) -> Result<Text, NoMemory>
    ensures { IfOk result (λ text. encode_utf8_all text ≡ summary_text (ontology_of doc.now)) }
{
    let lines = lines(alloc, doc)?;
    Text::of(alloc, lines.as_str())
}
