//! What is answered where a document that is read is not translated.

ghost use Rattle.std.specs.Prelude.{◌≡◌, string_bytes, IfOk, option_map};
ghost use Rattle.std.specs.Str.{encode_utf8_all};
ghost use Rattle.owl_doc.specs.Entities.{IsHeldItem};
ghost use Rattle.owl_doc.specs.Parts.{part_at};
ghost use Rattle.sayable_parts.specs.Reasons.{why_seen};
ghost use Rattle.owl_messages.specs.Answers.{outcome_of};
ghost use Rattle.owl_messages.specs.Refusals.{item_text, objection_iri, objection_text, objection_word, tag_of_kind, two_kinds, undeclared, undeclared_line, unsayable, unsayable_line};

use crate::answer::{Answer, refused};
use fss_write::{WriteFault, axiom_text};
use owl_atom::Iri;
use owl_characters::{NoMemory, Text};
use owl_command::Status;
use owl_doc::{Cant, Doc, Item, Why};
use owl_tree::{Kind, Tag};
use std::alloc::{AllocError, Global};

/// The text that is this word.
pub fn word_text(alloc: Global, word: &str) -> Result<Text, NoMemory>
    ensures { IfOk result (λ text. encode_utf8_all text ≡ word.now) }
{
    Text::of(alloc, word)
}

/// The part of the document as a line of the note has it: a word for the header
/// and for an axiom of more than 2^27 bytes, and else the axiom with its IRIs in
/// full.
fn item_text(alloc: Global, doc: &Doc, item: Item) -> Result<Text, NoMemory>
    requires { IsHeldItem doc.now item }
    ensures { IfOk result (λ text. encode_utf8_all text ≡ item_text (part_at doc.now item)) }
{
    match item {
        Item::Header => word_text(alloc, "header"),
        Item::Axiom(id) => match axiom_text(alloc, doc, id) {
            Ok(text) => Ok(text),
            Err(WriteFault::TooLong) => word_text(alloc, "axiom"),
            Err(WriteFault::Memory) => Err(NoMemory),
        },
    }
}

/// What is answered where the IRI has two kinds that no IRI may share.
pub fn refuse_kinds(alloc: Global, iri: &Iri) -> Result<Answer, NoMemory>
    ensures { IfOk result (λ answer. outcome_of answer ≡ two_kinds iri.now) }
{
    let iri = iri.text();
    refused(
        alloc,
        Status::Target,
        format!(in alloc; "typing: TwoKinds <{iri}>\n"),
    )
}

/// The tag of the leaves that name an IRI as this kind.
fn tag_of_kind(kind: Kind) -> Tag
    ensures { result ≡ tag_of_kind kind }
{
    match kind {
        Kind::Class => Tag::Class,
        Kind::Datatype => Tag::Datatype,
        Kind::ObjectProperty => Tag::ObjectProperty,
        Kind::DataProperty => Tag::DataProperty,
        Kind::AnnotationProperty => Tag::AnnotationProperty,
        Kind::Individual => Tag::NamedIndividual,
    }
}

/// Which entity is not declared, and in which part of the document.
fn undeclared_line(alloc: Global, kind: Kind, iri: &Iri, item: &Text) -> Result<String, AllocError>
    ensures { IfOk result (λ line. string_bytes line
        ≡ undeclared_line (record { kind = kind; iri = iri.now }) (encode_utf8_all item.now)) }
{
    let keyword = tag_of_kind(kind).keyword();
    let iri = iri.text();
    let item = item.as_str();
    format!(in alloc; "typing: Undeclared {keyword} <{iri}>: {item}\n")
}

/// What is answered where this entity is not declared, which stands in this part of
/// the document.
pub fn refuse_undeclared(
    alloc: Global,
    doc: &Doc,
    item: Item,
    kind: Kind,
    iri: &Iri,
) -> Result<Answer, NoMemory>
    requires { IsHeldItem doc.now item }
    ensures { IfOk result (λ answer. outcome_of answer
        ≡ undeclared (part_at doc.now item) (record { kind = kind; iri = iri.now })) }
{
    let item = item_text(alloc, doc, item)?;
    let line = undeclared_line(alloc, kind, iri, &item);
    refused(alloc, Status::Target, line)
}

/// The word that an objection is told by.
fn objection_word(why: &Why) -> &'static str
    ensures { result.now ≡ objection_word (why_seen why.now) }
{
    match why {
        Why::Reserved(_) => "Reserved",
        Why::FacetName(_) => "FacetName",
        Why::UnnamedSubject => "UnnamedSubject",
        Why::InverseSubject => "InverseSubject",
        Why::TwoInverses => "TwoInverses",
        Why::InverseAssertion => "InverseAssertion",
        Why::ManyProperties => "ManyProperties",
        Why::AnnotatedDeclaration => "AnnotatedDeclaration",
        Why::UndeclaredSubject(_) => "UndeclaredSubject",
    }
}

/// The IRI that an objection is about.
fn objection_iri<'a>(why: &Why<'a>) -> Option<&'a Iri>
    ensures { option_map (λ iri. iri.now) result ≡ objection_iri (why_seen why.now) }
{
    match why {
        Why::Reserved(iri) | Why::FacetName(iri) | Why::UndeclaredSubject(iri) => Some(iri),
        _ => None,
    }
}

/// An objection, with its IRI in full behind it, if it has one.
fn objection_text(alloc: Global, why: &Why) -> Result<String, AllocError>
    ensures { IfOk result (λ text. string_bytes text ≡ objection_text (why_seen why.now)) }
{
    let word = objection_word(why);
    match objection_iri(why) {
        Some(iri) => {
            let iri = iri.text();
            format!(in alloc; "{word} <{iri}>")
        }
        None => String::from_str(alloc, word),
    }
}

/// What cannot be said, and in which part of the document.
fn unsayable_line(alloc: Global, why: &Why, item: &Text) -> Result<String, AllocError>
    ensures { IfOk result (λ line.
        string_bytes line ≡ unsayable_line (why_seen why.now) (encode_utf8_all item.now)) }
{
    let why = objection_text(alloc, why)?;
    let item = item.as_str();
    format!(in alloc; "target: {why}: {item}\n")
}

/// What is answered where the target cannot say this part of the document.
pub fn refuse_unsayable(alloc: Global, doc: &Doc, cant: &Cant) -> Result<Answer, NoMemory>
    requires { IsHeldItem doc.now cant.now.item }
    ensures { IfOk result (λ answer.
        outcome_of answer ≡ unsayable (part_at doc.now cant.now.item) (why_seen cant.now.why)) }
{
    let item = item_text(alloc, doc, cant.item)?;
    refused(
        alloc,
        Status::Target,
        unsayable_line(alloc, &cant.why, &item),
    )
}
