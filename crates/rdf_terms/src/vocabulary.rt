//! The namespaces whose IRIs are reserved, and IRIs in them (Structural
//! Specification, section 2.4).

/// The IRI of a name of RDF.
#[macro_export]
macro_rules! rdf {
    ($name:literal) => {
        concat!("http://www.w3.org/1999/02/22-rdf-syntax-ns#", $name)
    };
}

/// The IRI of a name of RDF Schema.
#[macro_export]
macro_rules! rdfs {
    ($name:literal) => {
        concat!("http://www.w3.org/2000/01/rdf-schema#", $name)
    };
}

/// The IRI of a name of XML Schema.
#[macro_export]
macro_rules! xsd {
    ($name:literal) => {
        concat!("http://www.w3.org/2001/XMLSchema#", $name)
    };
}

/// The IRI of a name of OWL.
#[macro_export]
macro_rules! owl {
    ($name:literal) => {
        concat!("http://www.w3.org/2002/07/owl#", $name)
    };
}

/// The namespace of RDF.
pub const RDF: &str = rdf!("");

/// The namespace of RDF Schema.
pub const RDFS: &str = rdfs!("");

/// The namespace of XML Schema.
pub const XSD: &str = xsd!("");

/// The namespace of OWL.
pub const OWL: &str = owl!("");

/// All of them.
pub const NAMESPACES: [&str; 4] = [RDF, RDFS, XSD, OWL];

/// The datatype of truth values.
pub const BOOLEAN: &str = xsd!("boolean");

/// The datatype of decimal numbers.
pub const DECIMAL: &str = xsd!("decimal");

/// The datatype of texts without a language.
pub const STRING: &str = xsd!("string");

/// The datatype of texts that may have a language.
pub const PLAIN_LITERAL: &str = rdf!("PlainLiteral");

/// The datatype that RDF gives texts with a language.
pub const LANG_STRING: &str = rdf!("langString");
