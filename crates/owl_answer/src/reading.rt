//! What documents say under kinds.

ghost use Rattle.std.specs.Prelude.{◌≡◌, ◌≢◌, IfErr, IfOk, OnOk, map};
ghost use Rattle.owl_documents.specs.Documents.{parsed_of, said_of};
ghost use Rattle.owl_documents.specs.declared.document.Document.TheVariants.{Graph, Frames};
ghost use Rattle.owl_messages.specs.declared.unsaid.UnsaidFault.TheVariants.{Memory};
ghost use Rattle.owl_answer.specs.KindsAt.{IsClosure};
ghost use Rattle.owl_answer.specs.Reading.{AllSayAt, IsFaultUnder, IsFirstFault, IsReachedFault, IsUnsaidAlone, SaysAlone, SaysNext, SaysReached, doc_in, said_in};
ghost use Rattle.owl_answer.specs.UnderKinds.{SaysUnder};

use crate::closure::Closure;
use crate::kinds::own_kinds;
use man_raw::RawDoc;
use man_resolve::resolve;
use owl_doc::Doc;
use owl_documents::{Document, GraphDocument};
use owl_messages::UnsaidFault;
use owl_tree::Kinds;
use rdf_reverse::reverse;
use std::alloc::Global;

/// What a document says.
#[derive(Drop)]
pub enum Saying<'a> {
    /// The ontology that was read.
    Held(&'a Doc),
    /// What its graph says, or its frames.
    Read(Doc),
}

impl Saying<'_> {
    /// The ontology.
    pub fn doc(&self) -> &Doc
        ensures { result.now ≡ doc_in self.now }
    {
        match self {
            Saying::Held(doc) => doc,
            Saying::Read(doc) => doc,
        }
    }
}

/// Why a document says nothing, and its place among the documents.
#[derive(Drop)]
pub struct Unsaid {
    pub document: usize,
    pub fault: UnsaidFault,
}

/// What each document of the closure says under its kinds, in the order of their
/// places, or the first that says nothing.
pub fn read_closure(
    alloc: Global,
    docs: Vec<Document>,
    closure: &Closure,
) -> Result<Vec<Doc>, Unsaid>
    requires { IsClosure (map parsed_of docs.items) closure.now }
    ensures said { IfOk result (λ said. AllSayAt (map parsed_of docs.items)
        closure.now.kinds closure.now.places.items said.items) }
    ensures fault { IfErr result (
        IsFirstFault (map parsed_of docs.items) closure.now.kinds closure.now.places.items) }
{
    let mut said = Vec::new(alloc);
    let mut place = 0;
    for document in docs {
        if let Err(fault) = read_reached(alloc, place, document, closure, &mut said) {
            return Err(Unsaid {
                document: place,
                fault,
            });
        }
        place += 1;
    }
    Ok(said)
}

/// Puts what the document at this place says behind the others, where main reaches it.
fn read_reached(
    alloc: Global,
    place: usize,
    document: Document,
    closure: &Closure,
    said: &mut Vec<Doc>,
) -> Result<(), UnsaidFault>
    ensures said { OnOk result (SaysReached closure.now place (parsed_of document)
        said.old.items said.new.items) }
    ensures fault { IfErr result (IsReachedFault closure.now place (parsed_of document)) }
{
    if closure.places.contains(&place) {
        read_next(alloc, document, &closure.kinds, said)
    } else {
        Ok(())
    }
}

/// Puts what the document says under these kinds behind the others, or tells why it
/// says nothing.
fn read_next(
    alloc: Global,
    document: Document,
    kinds: &Kinds,
    said: &mut Vec<Doc>,
) -> Result<(), UnsaidFault>
    ensures said { OnOk result (
        SaysNext kinds.now (parsed_of document) said.old.items said.new.items) }
    ensures fault { IfErr result (IsFaultUnder kinds.now (parsed_of document)) }
{
    let doc = read_whole(alloc, document, kinds)?;
    // A document is in canonical form.
    doc.notes();
    match said.push(doc) {
        Ok(()) => Ok(()),
        Err(_) => Err(UnsaidFault::Memory),
    }
}

/// What the document says under these kinds, in its place.
fn read_whole(alloc: Global, document: Document, kinds: &Kinds) -> Result<Doc, UnsaidFault>
    ensures said { IfOk result (λ doc. SaysUnder kinds.now (parsed_of document) (said_of doc)) }
    ensures fault { IfErr result (IsFaultUnder kinds.now (parsed_of document)) }
{
    match document {
        Document::Ontology(doc) | Document::Canonical(doc) => Ok(doc),
        Document::Graph(graph) => read_graph(alloc, &graph, kinds),
        Document::Frames(frames) => read_frames(alloc, &frames, kinds),
    }
}

/// What the document says under these kinds.
pub fn read_under<'a>(
    alloc: Global,
    doc: &'a Document,
    kinds: &Kinds,
) -> Result<Saying<'a>, UnsaidFault>
    ensures said { IfOk result (λ saying.
        SaysUnder kinds.now (parsed_of doc.now) (said_in saying)) }
    ensures fault { IfErr result (IsFaultUnder kinds.now (parsed_of doc.now)) }
{
    match doc {
        Document::Ontology(doc) | Document::Canonical(doc) => Ok(Saying::Held(doc)),
        Document::Graph(graph) => Ok(Saying::Read(read_graph(alloc, graph, kinds)?)),
        Document::Frames(frames) => Ok(Saying::Read(read_frames(alloc, frames, kinds)?)),
    }
}

/// What the graph says under these kinds.
fn read_graph(alloc: Global, doc: &GraphDocument, kinds: &Kinds) -> Result<Doc, UnsaidFault>
    ensures said { IfOk result (λ read.
        SaysUnder kinds.now (parsed_of (Graph doc.now)) (said_of read)) }
    ensures fault { IfErr result (IsFaultUnder kinds.now (parsed_of (Graph doc.now))) }
{
    let prefixes = doc.prefixes.copy(alloc)?;
    Ok(reverse(alloc, &doc.graph, prefixes, kinds, &doc.guessed)?)
}

/// What the frames mean under these kinds.
fn read_frames(alloc: Global, doc: &RawDoc, kinds: &Kinds) -> Result<Doc, UnsaidFault>
    ensures said { IfOk result (λ read.
        SaysUnder kinds.now (parsed_of (Frames doc.now)) (said_of read)) }
    ensures fault { IfErr result (IsFaultUnder kinds.now (parsed_of (Frames doc.now))) }
{
    Ok(resolve(alloc, doc, kinds)?)
}

/// What the document says under the kinds that it declares itself.
pub fn read_alone(alloc: Global, doc: &Document) -> Result<Saying<'_>, UnsaidFault>
    ensures said { IfOk result (λ saying. SaysAlone (parsed_of doc.now) (said_in saying)) }
    ensures fault { IfErr result (λ fault.
        fault ≢ Memory → IsUnsaidAlone (parsed_of doc.now) fault) }
{
    let kinds = own_kinds(alloc, doc)?;
    read_under(alloc, doc, &kinds)
}
