//! Documents that were read.

use man_raw::RawDoc;
use owl_atom::{Iri, Prefixes};
use owl_doc::{Doc, Head};
use rdf_graph::Graph;

/// The syntax of a document.
#[derive(Clone, Copy, Debug, PartialEq, Eq)]
pub enum Syntax {
    Functional,
    Turtle,
    Manchester,
    /// Canonical bytes.
    Canonical,
}

/// A document that was read, before the kinds of IRIs are known.
#[derive(Drop)]
pub enum Document {
    /// Of Functional-Style Syntax.
    Ontology(Doc),
    /// Of canonical bytes.
    Canonical(Doc),
    /// Of Turtle.
    Graph(GraphDocument),
    /// Of Manchester Syntax.
    Frames(RawDoc),
}

/// A graph, with the prefixes that its document leaves and the head of the
/// ontology that its header gives.
#[derive(Drop)]
pub struct GraphDocument {
    pub graph: Graph,
    pub prefixes: Prefixes,
    pub head: Head,
    /// The annotation properties that are guessed, none before kinds are known.
    pub guessed: Vec<Iri>,
}
