//! What is answered where a document says no ontology.

ghost use Rattle.std.specs.Prelude.{◌≡◌, ◌≢◌, ◌++◌, codes, string_bytes, IfOk};
ghost use Rattle.std.specs.Str.{encode_utf8_all};
ghost use Rattle.man_resolve.specs.declared.fault.ResolveFault.TheVariants as resolve;
ghost use Rattle.rdf_reverse.specs.declared.fault.ReverseFault.TheVariants as reverse;
ghost use Rattle.owl_messages.specs.declared.unsaid.UnsaidFault.TheVariants.{Memory};
ghost use Rattle.rdf_scans.specs.declared.fault.OutlineFault.TheVariants as outline;
ghost use Rattle.ttl_write.specs.Text.{full_term, full_triple};
ghost use Rattle.owl_messages.specs.Answers.{outcome_of};
ghost use Rattle.owl_messages.specs.Outcome.{about_iri, about_label, about_node, about_triple, frames_outcome, graph_outcome, headless, noted_as, refused_graph, told_at};
ghost use Rattle.owl_messages.specs.Unsaid.{IsProperFault, of_frames, of_graph, unsaid_outcome};

use crate::answer::{Answer, refused};
use crate::refusal::refuse_limit;
use crate::refusals::word_text;
use man_resolve::ResolveFault;
use owl_atom::{Iri, Label};
use owl_characters::{NoMemory, Text};
use owl_command::Status;
use rdf_graph::{Term, Triple};
use rdf_reverse::{OutlineFault, ReverseFault};
use std::alloc::{AllocError, Global};
use ttl_write::{WriteFault, term_text, triple_text};

/// The line of a graph with this fault.
fn graph_line(alloc: Global, name: &str, fault: &str) -> Result<String, AllocError>
    ensures { IfOk result (λ line.
        string_bytes line ≡ name.now ++ (codes ": " ++ (fault.now ++ codes "\n"))) }
{
    format!(in alloc; "{name}: {fault}\n")
}

/// What is answered where the document of this name is a graph with this fault.
fn refuse_graph(alloc: Global, name: &str, fault: &str) -> Result<Answer, NoMemory>
    ensures { IfOk result (λ answer. outcome_of answer ≡ refused_graph name.now fault.now) }
{
    refused(alloc, Status::Document, graph_line(alloc, name, fault))
}

/// A fault of an IRI.
fn iri_fault(alloc: Global, word: &str, iri: &Iri) -> Result<String, AllocError>
    ensures { IfOk result (λ text. string_bytes text ≡ about_iri word.now iri.now) }
{
    let iri = iri.text();
    format!(in alloc; "{word} <{iri}>")
}

fn refuse_iri(alloc: Global, name: &str, word: &str, iri: &Iri) -> Result<Answer, NoMemory>
    ensures { IfOk result (λ answer.
        outcome_of answer ≡ refused_graph name.now (about_iri word.now iri.now)) }
{
    let fault = iri_fault(alloc, word, iri)?;
    refuse_graph(alloc, name, fault.as_str())
}

/// A fault of a blank node.
fn label_fault(alloc: Global, word: &str, label: &Label) -> Result<String, AllocError>
    ensures { IfOk result (λ text. string_bytes text ≡ about_label word.now label.now) }
{
    let label = label.text();
    format!(in alloc; "{word} _:{label}")
}

fn refuse_label(alloc: Global, name: &str, word: &str, label: &Label) -> Result<Answer, NoMemory>
    ensures { IfOk result (λ answer.
        outcome_of answer ≡ refused_graph name.now (about_label word.now label.now)) }
{
    let fault = label_fault(alloc, word, label)?;
    refuse_graph(alloc, name, fault.as_str())
}

/// A word, and behind it a text.
fn word_and(alloc: Global, word: &str, text: &Text) -> Result<String, AllocError>
    ensures { IfOk result (λ both.
        string_bytes both ≡ word.now ++ (codes " " ++ encode_utf8_all text.now)) }
{
    let text = text.as_str();
    format!(in alloc; "{word} {text}")
}

/// A node with its IRIs in full, or a word for one of more than 2^27 bytes.
fn node_text(alloc: Global, node: &Term) -> Result<Text, NoMemory>
    ensures { IfOk result (λ text. encode_utf8_all text
        ≡ noted_as (codes "node") (encode_utf8_all (full_term node.now))) }
{
    match term_text(alloc, node) {
        Ok(text) => Ok(text),
        Err(WriteFault::TooLong) => word_text(alloc, "node"),
        Err(WriteFault::Memory) => Err(NoMemory),
    }
}

fn refuse_node(alloc: Global, name: &str, word: &str, node: &Term) -> Result<Answer, NoMemory>
    ensures { IfOk result (λ answer.
        outcome_of answer ≡ refused_graph name.now (about_node word.now node.now)) }
{
    let text = node_text(alloc, node)?;
    let fault = word_and(alloc, word, &text)?;
    refuse_graph(alloc, name, fault.as_str())
}

/// The terms of a triple with their IRIs in full, or a word for one of more than
/// 2^27 bytes.
fn noted_triple(alloc: Global, triple: &Triple) -> Result<Text, NoMemory>
    ensures { IfOk result (λ text. encode_utf8_all text
        ≡ noted_as (codes "triple") (encode_utf8_all (full_triple triple.now))) }
{
    match triple_text(alloc, triple) {
        Ok(text) => Ok(text),
        Err(WriteFault::TooLong) => word_text(alloc, "triple"),
        Err(WriteFault::Memory) => Err(NoMemory),
    }
}

fn refuse_triple(alloc: Global, name: &str, word: &str, triple: &Triple) -> Result<Answer, NoMemory>
    ensures { IfOk result (λ answer.
        outcome_of answer ≡ refused_graph name.now (about_triple word.now triple.now)) }
{
    let text = noted_triple(alloc, triple)?;
    let fault = word_and(alloc, word, &text)?;
    refuse_graph(alloc, name, fault.as_str())
}

/// What is answered where the document of this name is a graph that gives no head
/// of an ontology.
pub fn refuse_headless(alloc: Global, name: &str, fault: &OutlineFault) -> Result<Answer, NoMemory>
    ensures outcome { IfOk result (λ answer. outcome_of answer ≡ headless name.now fault.now) }
{
    match fault {
        OutlineFault::NoHeader => refuse_graph(alloc, name, "NoHeader"),
        OutlineFault::TwoHeaders => refuse_graph(alloc, name, "TwoHeaders"),
        OutlineFault::BadHeader { node } => refuse_node(alloc, name, "BadHeader", node),
        OutlineFault::Memory => Err(NoMemory),
    }
}

/// What is answered where the document of this name is a graph that says nothing,
/// for this fault.
fn refuse_unsaid_graph(alloc: Global, name: &str, fault: &ReverseFault) -> Result<Answer, NoMemory>
    ensures outcome { IfOk result (λ answer.
        outcome_of answer ≡ graph_outcome name.now fault.now) }
    ensures memory { IfOk result (λ _. fault.now ≢ reverse.Memory) }
{
    match fault {
        ReverseFault::TwoKinds { iri } => refuse_iri(alloc, name, "TwoKinds", iri),
        ReverseFault::NoHeader => refuse_graph(alloc, name, "NoHeader"),
        ReverseFault::TwoHeaders => refuse_graph(alloc, name, "TwoHeaders"),
        ReverseFault::BadHeader { node } => refuse_node(alloc, name, "BadHeader", node),
        ReverseFault::Mixed { node } => refuse_label(alloc, name, "Mixed", node),
        ReverseFault::BadList { node } => refuse_label(alloc, name, "BadList", node),
        ReverseFault::Cycle { node } => refuse_label(alloc, name, "Cycle", node),
        ReverseFault::BadNode { node } => refuse_label(alloc, name, "BadNode", node),
        ReverseFault::MainMissing { node } => refuse_label(alloc, name, "MainMissing", node),
        ReverseFault::Reserved { triple } => refuse_triple(alloc, name, "Reserved", triple),
        ReverseFault::Orphan { node } => refuse_label(alloc, name, "Orphan", node),
        ReverseFault::Untyped { triple } => refuse_triple(alloc, name, "Untyped", triple),
        ReverseFault::NumberTooLarge => refuse_limit(alloc, "Cardinality", name),
        ReverseFault::TooDeep => refuse_limit(alloc, "Depth", name),
        ReverseFault::TooHeavy => refuse_limit(alloc, "Weight", name),
        ReverseFault::Memory => Err(NoMemory),
    }
}

/// A fault at a byte.
fn fault_at(alloc: Global, fault: &str, at: u64) -> Result<String, AllocError>
    ensures { IfOk result (λ text. string_bytes text ≡ told_at fault.now at) }
{
    format!(in alloc; "{fault} at {at}")
}

fn refuse_form(alloc: Global, name: &str, at: u64) -> Result<Answer, NoMemory>
    ensures { IfOk result (λ answer.
        outcome_of answer ≡ refused_graph name.now (told_at (codes "WrongForm") at)) }
{
    let fault = fault_at(alloc, "WrongForm", at)?;
    refuse_graph(alloc, name, fault.as_str())
}

fn refuse_name(
    alloc: Global,
    name: &str,
    word: &str,
    iri: &Iri,
    at: u64,
) -> Result<Answer, NoMemory>
    ensures { IfOk result (λ answer. outcome_of answer
        ≡ refused_graph name.now (told_at (about_iri word.now iri.now) at)) }
{
    let about = iri_fault(alloc, word, iri)?;
    let fault = fault_at(alloc, about.as_str(), at)?;
    refuse_graph(alloc, name, fault.as_str())
}

/// What is answered where the document of this name has frames that mean nothing,
/// for this fault.
fn refuse_frames(alloc: Global, name: &str, fault: &ResolveFault) -> Result<Answer, NoMemory>
    ensures outcome { IfOk result (λ answer.
        outcome_of answer ≡ frames_outcome name.now fault.now) }
    ensures memory { IfOk result (λ _. fault.now ≢ resolve.Memory) }
{
    match fault {
        ResolveFault::TwoKinds { iri } => refuse_iri(alloc, name, "TwoKinds", iri),
        ResolveFault::Untyped { iri, at } => refuse_name(alloc, name, "Untyped", iri, *at),
        ResolveFault::WrongKind { iri, at } => refuse_name(alloc, name, "WrongKind", iri, *at),
        ResolveFault::WrongForm { at } => refuse_form(alloc, name, *at),
        ResolveFault::TooDeep => refuse_limit(alloc, "Depth", name),
        ResolveFault::TooHeavy => refuse_limit(alloc, "Weight", name),
        ResolveFault::Memory => Err(NoMemory),
    }
}

/// Why a document says nothing under kinds of names.
#[derive(Debug, Drop)]
pub enum UnsaidFault {
    /// Its graph says no ontology.
    Graph(ReverseFault),
    /// Its frames mean none.
    Frames(ResolveFault),
    /// Memory ran out.
    Memory,
}

impl From<NoMemory> for UnsaidFault {
    ghost from_gives = { λ _ e. e ≡ Memory };

    fn from(_e: NoMemory) -> UnsaidFault {
        UnsaidFault::Memory
    }
}

impl From<ReverseFault> for UnsaidFault {
    ghost from_gives = { λ fault e. e ≡ of_graph fault };

    fn from(fault: ReverseFault) -> UnsaidFault {
        match fault {
            ReverseFault::Memory => UnsaidFault::Memory,
            _ => UnsaidFault::Graph(fault),
        }
    }
}

impl From<ResolveFault> for UnsaidFault {
    ghost from_gives = { λ fault e. e ≡ of_frames fault };

    fn from(fault: ResolveFault) -> UnsaidFault {
        match fault {
            ResolveFault::Memory => UnsaidFault::Memory,
            _ => UnsaidFault::Frames(fault),
        }
    }
}

/// What is answered where the document of this name says nothing, for this fault.
pub fn refuse_unsaid(alloc: Global, name: &str, fault: &UnsaidFault) -> Result<Answer, NoMemory>
    ensures outcome { IfOk result (λ answer.
        outcome_of answer ≡ unsaid_outcome name.now fault.now) }
    ensures proper { IfOk result (λ _. IsProperFault fault.now) }
{
    match fault {
        UnsaidFault::Graph(fault) => refuse_unsaid_graph(alloc, name, fault),
        UnsaidFault::Frames(fault) => refuse_frames(alloc, name, fault),
        UnsaidFault::Memory => Err(NoMemory),
    }
}
