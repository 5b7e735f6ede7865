//! What the triples of a node make it.

use owl_tree::{Atom, Tag};
use rdf_terms::{Iri, Literal};

/// A part of an expression.
#[derive(Debug, Drop)]
pub enum Operand {
    /// A leaf.
    Leaf(Tag, Atom),
    /// A facet and its value.
    Facet(Iri, Literal),
    /// What the node with this number stands for.
    Node(usize),
}

/// An expression: its tag, and its parts in order.
#[derive(Debug, Drop)]
pub struct Form {
    pub tag: Tag,
    pub operands: Vec<Operand>,
}
