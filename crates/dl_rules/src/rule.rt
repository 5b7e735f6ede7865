//! The rules of OWL 2 DL.

/// A rule of OWL 2 DL, by what it speaks of.
#[derive(Clone, Copy, Debug, PartialEq, Eq)]
pub enum DlRule {
    /// Classes, datatypes and properties are declared.
    Typing,
    /// No IRI is declared as two kinds that no IRI may share.
    Clash,
    /// No reserved IRI names an entity, unless it is built in so.
    ReservedName,
    /// Datatypes are given, or defined once.
    Datatypes,
    /// Definitions of datatypes have an order.
    DatatypeOrder,
    /// Literals have lexical forms of their datatypes.
    LexicalForms,
    /// Facets are those of the datatype, and data ranges have one argument.
    DataRanges,
    /// `owl:topDataProperty` is a super property, and nothing else.
    TopDataProperty,
    /// Properties are simple where they have to be.
    SimpleProperties,
    /// Chains of properties have an order.
    Hierarchy,
    /// Individuals are named where they have to be.
    NamedIndividuals,
    /// Anonymous individuals are linked as a forest.
    Forest,
    /// The ontology has no reserved IRI.
    OntologyIri,
}
