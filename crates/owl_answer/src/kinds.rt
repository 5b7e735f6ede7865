//! What documents declare.

ghost use Rattle.std.specs.Prelude.{◌<◌, [], IfOk, OnOk, map};
ghost use Rattle.owl_doc.specs.Entities.{AddsAll};
ghost use Rattle.owl_documents.specs.Documents.{an_ontology, guessed_entities, in_functional, parsed_of, said_of};
ghost use Rattle.owl_documents.specs.declared.document.Document.TheVariants.{Graph};
ghost use Rattle.owl_close.specs.Imports.{AreReached};
ghost use Rattle.owl_answer.specs.KindsAt.{AddsAt, AddsOf, AreClosureKinds, AreDeclaredAt, AreOwnKinds};
ghost use Rattle.owl_answer.specs.Outcome.{heads_in};

use owl_atom::Iri;
use owl_characters::NoMemory;
use owl_doc::{Doc, declared};
use owl_documents::{Document, GraphDocument};
use owl_tree::{Kind, Kinds};
use rdf_scans::declare_graph;
use std::alloc::Global;

/// The kinds that the documents at these places declare, which are those that
/// the main one, the first, reaches (Structural Specification, sections 3.4 and
/// 5.8).
pub fn closure_kinds(alloc: Global, docs: &[Document], places: &[usize]) -> Result<Kinds, NoMemory>
    requires { AreReached (heads_in (map parsed_of docs.now)) places.now }
    ensures { IfOk result (AreClosureKinds (map parsed_of docs.now)) }
{
    let mut kinds = Kinds::new(alloc);
    declare_all(docs, places, &mut kinds)?;
    // What is declared stands in order.
    kinds.is_empty();
    Ok(kinds)
}

/// The kinds that the document itself declares.
pub fn own_kinds(alloc: Global, doc: &Document) -> Result<Kinds, NoMemory>
    ensures { IfOk result (AreOwnKinds (parsed_of doc.now)) }
{
    let mut kinds = Kinds::new(alloc);
    declare(doc, &mut kinds)?;
    // What is declared stands in order.
    kinds.is_empty();
    Ok(kinds)
}

/// The kinds that an ontology itself declares.
pub fn ontology_kinds(alloc: Global, doc: &Doc) -> Result<Kinds, NoMemory>
    ensures { IfOk result (AreOwnKinds (an_ontology in_functional (said_of doc.now))) }
{
    let mut kinds = Kinds::new(alloc);
    declared(doc, &mut kinds)?;
    // What is declared stands in order.
    kinds.is_empty();
    Ok(kinds)
}

/// Declares what the documents at these places declare.
fn declare_all(docs: &[Document], places: &[usize], kinds: &mut Kinds) -> Result<(), NoMemory>
    requires { AreDeclaredAt (map parsed_of docs.now) [] kinds.old }
    ensures { OnOk result (AreDeclaredAt (map parsed_of docs.now) places.now kinds.new) }
{
    for place in places {
        declare_at(docs, *place, kinds)?;
    }
    Ok(())
}

/// Declares what the document at this place declares, besides what is declared.
/// A place where none stands declares nothing.
fn declare_at(docs: &[Document], place: usize, kinds: &mut Kinds) -> Result<(), NoMemory>
    ensures { OnOk result (AddsAt (map parsed_of docs.now) place kinds.old kinds.new) }
{
    match docs.get(place) {
        Some(doc) => declare(doc, kinds),
        None => Ok(()),
    }
}

/// Declares what the graph declares, and the annotation properties that are guessed of
/// it, besides what is declared.
fn declare_document(document: &GraphDocument, kinds: &mut Kinds) -> Result<(), NoMemory>
    ensures { OnOk result (AddsOf (parsed_of (Graph document.now)) kinds.old kinds.new) }
{
    declare_graph(&document.graph, kinds)?;
    declare_guesses(&document.guessed, kinds)
}

/// Declares the IRIs as annotation properties, besides what is declared.
fn declare_guesses(guessed: &[Iri], kinds: &mut Kinds) -> Result<(), NoMemory>
    ensures { OnOk result (AddsAll kinds.old (guessed_entities guessed.now) kinds.new) }
{
    let alloc = kinds.allocator();
    'guessed: for iri in guessed {
        kinds.declare(Kind::AnnotationProperty, iri.copy(alloc)?)?;
    }
    Ok(())
}

/// Declares what the document declares, besides what is declared.
fn declare(doc: &Document, kinds: &mut Kinds) -> Result<(), NoMemory>
    ensures { OnOk result (AddsOf (parsed_of doc.now) kinds.old kinds.new) }
{
    match doc {
        Document::Ontology(doc) | Document::Canonical(doc) => declared(doc, kinds),
        Document::Graph(document) => declare_document(document, kinds),
        Document::Frames(document) => man_resolve::declared(document, kinds),
    }
}
