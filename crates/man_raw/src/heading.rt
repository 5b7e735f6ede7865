//! The keywords of items and of their sections.

/// What an item of a document is: a frame, or a sentence of its own (Manchester
/// Syntax, sections 2.5 and 2.6).
#[derive(Clone, Copy, Debug, PartialEq, Eq)]
pub enum Heading {
    Class,
    Datatype,
    ObjectProperty,
    DataProperty,
    AnnotationProperty,
    Individual,
    EquivalentClasses,
    DisjointClasses,
    EquivalentProperties,
    DisjointProperties,
    SameIndividual,
    DifferentIndividuals,
}

/// What a section of a frame says (Manchester Syntax, section 2.5). An item that
/// is no frame has the one section `Members`.
#[derive(Clone, Copy, Debug, PartialEq, Eq)]
pub enum Section {
    Annotations,
    SubClassOf,
    EquivalentTo,
    DisjointWith,
    DisjointUnionOf,
    HasKey,
    Domain,
    Range,
    Characteristics,
    SubPropertyOf,
    InverseOf,
    SubPropertyChain,
    Types,
    Facts,
    SameAs,
    DifferentFrom,
    Members,
}
