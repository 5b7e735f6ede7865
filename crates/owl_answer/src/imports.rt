//! Imports that name no document.

ghost use Rattle.std.specs.Prelude.{◌≡◌, ◌<◌, IfOk, IfSome, IfNone, length, map};
ghost use Rattle.owl_close.specs.Imports.{AreReached, heads_of};
ghost use Rattle.owl_command.specs.Commands.{request_of};
ghost use Rattle.owl_doc.specs.Heads.{head_of};
ghost use Rattle.owl_documents.specs.Documents.{head_in, parsed_of};
ghost use Rattle.owl_answer.specs.Asked.{IsAsked};
ghost use Rattle.owl_answer.specs.Outcome.{heads_in};
ghost use Rattle.owl_answer.specs.Runs.{HasImports};
ghost use Rattle.owl_answer.specs.Answers.{IsMissingFor};

use crate::asked::Asked;
use owl_atom::Iri;
use owl_characters::NoMemory;
use owl_close::{CloseFault, closure};
use owl_doc::Head;
use owl_documents::Document;
use std::alloc::{AllocError, Global};

/// An import that names no document, and the place of the document that has it.
#[derive(Drop)]
pub struct Missing {
    pub document: usize,
    pub iri: Iri,
}

/// The heads of the documents.
fn heads(alloc: Global, docs: &[Document]) -> Result<Vec<Head>, NoMemory>
    ensures { IfOk result (λ heads. heads_of heads.items ≡ heads_in (map parsed_of docs.now)) }
{
    let mut heads = Vec::with_capacity(alloc, docs.len())?;
    for doc in docs {
        heads
            .push(document_head(alloc, doc)?)
            .map_err(AllocError::from)?;
    }
    Ok(heads)
}

/// The head of a document.
fn document_head(alloc: Global, doc: &Document) -> Result<Head, NoMemory>
    ensures { IfOk result (λ head. head_of head ≡ head_in (parsed_of doc.now)) }
{
    match doc {
        Document::Ontology(doc) | Document::Canonical(doc) => doc.head().copy(alloc),
        Document::Graph(graph) => graph.head.copy(alloc),
        Document::Frames(frames) => man_resolve::head(alloc, frames),
    }
}

/// The first import that names no document, where the command asks for each to
/// be there.
pub fn first_missing(alloc: Global, asked: &Asked) -> Result<Option<Missing>, NoMemory>
    requires { IsAsked asked.now }
    ensures some { IfOk result (λ found. IfSome found
        (IsMissingFor (request_of asked.now.command.now)
        (heads_in (map parsed_of asked.now.docs.items)))) }
    ensures none { IfOk result (λ found. IfNone found
        (HasImports (request_of asked.now.command.now) (map parsed_of asked.now.docs.items))) }
{
    if !asked.command.asks_imports() {
        return Ok(None);
    }
    let heads = heads(alloc, &asked.docs)?;
    match closure(alloc, &heads, false) {
        Ok(_) => Ok(None),
        Err(CloseFault::MissingImport { document, iri }) => Ok(Some(Missing { document, iri })),
        Err(CloseFault::Memory) => Err(NoMemory),
    }
}

/// The places of the documents that the main one reaches (Structural
/// Specification, section 3.4). Imports that name no document lead nowhere.
pub fn reached(alloc: Global, docs: &[Document]) -> Result<Vec<usize>, NoMemory>
    requires { 0 < length docs.now }
    ensures { IfOk result (λ places. AreReached (heads_in (map parsed_of docs.now)) places.items) }
{
    let heads = heads(alloc, docs)?;
    match closure(alloc, &heads, true) {
        Ok(places) => Ok(places),
        Err(CloseFault::MissingImport { .. }) => unreachable!(),
        Err(CloseFault::Memory) => Err(NoMemory),
    }
}
