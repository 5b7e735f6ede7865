//! What a row of the mapping is.

use crate::role::Role;
use crate::word::Word;
use owl_tree::{Sort, Tag};

/// Where an object of a row stands.
#[derive(Clone, Copy, Debug)]
pub enum Place {
    /// The object of the node's triple with the word.
    At(Word),
    /// The subject of the triple.
    Subject,
    /// The predicate of the triple.
    Predicate,
    /// The object of the triple.
    Object,
}

/// What stands there.
#[derive(Clone, Copy, Debug)]
pub enum Want {
    /// A term that denotes a tree of the sort.
    One(Sort),
    /// A list of at least so many of these.
    Many(Sort, usize),
    /// Such a list, which is one kid with the tag.
    Whole(Tag, Sort, usize),
    /// A list of one or more properties that are a key.
    Keys,
    /// The IRI of an entity that is declared, with the tag.
    Declared(Tag),
    /// The word's own class, of which no kid comes.
    Mark,
    /// The literal "true" of xsd:boolean, of which no kid comes.
    True,
}

/// A part of a row.
#[derive(Clone, Copy, Debug)]
pub struct Part {
    pub place: Place,
    pub want: Want,
}

/// What the parts of a row belong to.
#[derive(Clone, Copy, Debug)]
pub enum Site {
    /// A blank node of the role.
    Node(Role),
    /// A triple of rdf:type with this class.
    TypedBy(Word),
    /// A triple of rdf:type with a class that no row has at `TypedBy`.
    OtherType,
    /// A triple with this predicate.
    LinkedBy(Word),
    /// A triple with a predicate that no row has at `LinkedBy`.
    OtherLink,
}

/// How a tree of a tag is written, but for its annotations: at such a site, with
/// these parts, in the order of its kids.
#[derive(Clone, Copy, Debug)]
pub struct Row {
    pub tag: Tag,
    pub site: Site,
    pub parts: &'static [Part],
}
