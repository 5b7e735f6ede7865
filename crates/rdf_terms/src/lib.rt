//! The terms of RDF: IRIs, labels of blank nodes, and literals, with the
//! datatypes that are built in.
#![tactic(auto)]

mod datatypes;
mod fault;
mod iri;
mod label;
mod language;
mod lexical;
mod literal;
mod scan;
mod vocabulary;

pub use datatypes::{facet_ok, in_map, reserved};
pub use fault::{IriFault, LabelFault, LiteralFault};
pub use iri::Iri;
pub use label::Label;
pub use lexical::lexical_ok;
pub use literal::Literal;
pub use vocabulary::{OWL, RDF, RDFS, XSD};
