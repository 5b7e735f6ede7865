//! Annotation properties that are guessed.

ghost use Rattle.std.specs.Prelude.{◌≡◌, ◌<◌, IfOk, length, map};
ghost use Rattle.owl_command.specs.Commands.{IsAllowed, names_of, request_of};
ghost use Rattle.owl_documents.specs.Documents.{a_graph, graph_read_of, parsed_of};
ghost use Rattle.owl_answer.specs.Guessing.{AreGuessed, AreWithGuesses, with_guesses};

use crate::closure::closure_of;
use owl_characters::NoMemory;
use owl_command::Command;
use owl_documents::{Document, GraphDocument};
use owl_tree::Kinds;
use rdf_reverse::guess;
use std::alloc::{AllocError, Global};

/// The documents, with the annotation properties that are guessed of the graphs among
/// them where the command asks for that.
pub fn with_guesses(
    alloc: Global,
    command: &Command,
    docs: Vec<Document>,
) -> Result<Vec<Document>, NoMemory>
    requires allowed { IsAllowed (request_of command.now) }
    requires each { length docs.items ≡ length (names_of (request_of command.now)) }
    ensures { IfOk result (λ guessed. AreGuessed (request_of command.now)
        (map parsed_of docs.items) (map parsed_of guessed.items)) }
{
    if command.guesses() {
        guess_all(alloc, docs)
    } else {
        Ok(docs)
    }
}

/// The documents with their guesses, under what those declare that the main one
/// reaches, which is the first.
fn guess_all(alloc: Global, docs: Vec<Document>) -> Result<Vec<Document>, NoMemory>
    requires { 0 < length docs.items }
    ensures { IfOk result (λ guessed.
        AreWithGuesses (map parsed_of docs.items) (map parsed_of guessed.items)) }
{
    let closure = closure_of(alloc, &docs)?;
    guess_under(alloc, docs, &closure.kinds)
}

/// The documents with their guesses, where IRIs have these kinds.
fn guess_under(alloc: Global, docs: Vec<Document>, kinds: &Kinds) -> Result<Vec<Document>, NoMemory>
    ensures { IfOk result (λ guessed. map parsed_of guessed.items
        ≡ map (with_guesses kinds.now) (map parsed_of docs.items)) }
{
    let mut guessed = Vec::with_capacity(alloc, docs.len())?;
    for document in docs {
        guessed
            .push(guess_of(alloc, document, kinds)?)
            .map_err(AllocError::from)?;
    }
    Ok(guessed)
}

/// The document with its guesses, where IRIs have these kinds.
fn guess_of(alloc: Global, document: Document, kinds: &Kinds) -> Result<Document, NoMemory>
    ensures { IfOk result (λ guessed.
        parsed_of guessed ≡ with_guesses kinds.now (parsed_of document)) }
{
    match document {
        Document::Graph(graph) => Ok(Document::Graph(guess_of_graph(alloc, graph, kinds)?)),
        Document::Ontology(_) | Document::Canonical(_) | Document::Frames(_) => Ok(document),
    }
}

/// The graph with its guesses, where IRIs have these kinds.
fn guess_of_graph(
    alloc: Global,
    document: GraphDocument,
    kinds: &Kinds,
) -> Result<GraphDocument, NoMemory>
    ensures { IfOk result (λ guessed. a_graph (graph_read_of guessed)
        ≡ with_guesses kinds.now (a_graph (graph_read_of document))) }
{
    let guessed = guess(alloc, &document.graph, kinds)?;
    Ok(GraphDocument {
        guessed,
        ..document
    })
}
