//! What a triple that is an axiom, or a node that stands for one, is made of.

use owl_tree::Tag;
use rdf_nodes::Operand;

/// A kid of an axiom.
#[derive(Debug, Drop)]
pub enum Kid {
    /// What the operand stands for.
    One(Operand),
    /// A node with the tag over what the operands stand for.
    Group(Tag, Vec<Operand>),
}

/// An axiom without its annotations: its tag, and its kids in order.
#[derive(Debug, Drop)]
pub struct AxiomForm {
    pub tag: Tag,
    pub kids: Vec<Kid>,
}
