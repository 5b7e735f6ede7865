//! What a blank node stands for.

/// What the triples of a blank node make it (Mapping to RDF Graphs, section 3).
#[derive(Clone, Copy, Debug, PartialEq, Eq, PartialOrd, Ord)]
pub enum Role {
    /// A cell of a list.
    List,
    /// An inverse of an object property.
    Property,
    /// A class expression.
    Class,
    /// A data range.
    Range,
    /// A facet and its value.
    Facet,
    /// An axiom that has a node of its own.
    Main,
    /// The reification of a triple that is annotated.
    Note,
    /// The ontology.
    Header,
    /// None of these: an anonymous individual.
    Individual,
}
