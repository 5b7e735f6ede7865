//! Parts of documents, and what may be said against them.

use crate::rule::Rule;
use owl_arena::ExprId;
use owl_atom::Iri;

/// A part of a document.
#[derive(Clone, Copy, Debug, PartialEq, Eq)]
pub enum Item {
    /// The ontology's name, imports and annotations.
    Header,
    /// The axiom with this number.
    Axiom(ExprId),
}

/// A part of a document that a syntax cannot say.
#[derive(Clone, Copy, Debug)]
pub struct Cant<'a> {
    pub item: Item,
    pub why: Why<'a>,
}

/// Why a syntax cannot say a part of a document. The document lends the IRI.
#[derive(Clone, Copy, Debug)]
pub enum Why<'a> {
    /// The syntax has another use for the IRI.
    Reserved(&'a Iri),
    /// The syntax has no name for the facet.
    FacetName(&'a Iri),
    /// The subject is a class expression without a name.
    UnnamedSubject,
    /// The subject is an inverse property.
    InverseSubject,
    /// Both properties are inverse properties.
    TwoInverses,
    /// An assertion has an inverse property.
    InverseAssertion,
    /// A restriction has more than one property.
    ManyProperties,
    /// A declaration has annotations.
    AnnotatedDeclaration,
    /// The subject of an annotation is not declared.
    UndeclaredSubject(&'a Iri),
}

/// A rule of a profile that a part of a document breaks.
#[derive(Clone, Copy, Debug, PartialEq, Eq)]
pub struct Breach {
    pub rule: Rule,
    /// The document's place in the closure.
    pub document: usize,
    pub item: Item,
}
