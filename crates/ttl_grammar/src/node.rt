//! What a document states while its blank nodes have no labels yet.

ghost use Rattle.std.specs.Prelude.{◌≡◌, IfOk};

use owl_atom::{Iri, Label, Literal};
use owl_characters::NoMemory;
use std::alloc::Global;

/// An IRI or a blank node. A blank node without a label is told by its number,
/// from 0 on, in the order in which they appear.
#[derive(Debug, Drop, PartialEq, Eq, Hash)]
pub enum Node {
    Iri(Iri),
    Label(Label),
    Unlabelled(u64),
}

/// What may be the object of a triple.
#[derive(Debug, Drop, PartialEq, Eq, Hash)]
pub enum Object {
    Node(Node),
    Literal(Literal),
}

/// A triple of such nodes.
#[derive(Debug, Drop, PartialEq, Eq, Hash)]
pub struct NodeTriple {
    pub subject: Node,
    pub predicate: Iri,
    pub object: Object,
}

/// What is open: a statement, brackets or a list.
#[derive(Debug, Drop)]
pub struct Nest {
    /// What stands for the whole: the node of the brackets, or the first cell
    /// of the list, once there is one.
    pub whole: Option<Node>,
    /// The current subject, or the last cell of the list.
    pub subject: Option<Node>,
    /// The current predicate.
    pub predicate: Option<Iri>,
}

impl Node {
    /// An equal node.
    pub fn copy(&self, alloc: Global) -> Result<Node, NoMemory>
        ensures { IfOk result (λ node. node ≡ self.now) }
    {
        match self {
            Node::Iri(iri) => Ok(Node::Iri(iri.copy(alloc)?)),
            Node::Label(label) => Ok(Node::Label(label.copy(alloc)?)),
            Node::Unlabelled(number) => Ok(Node::Unlabelled(*number)),
        }
    }
}
