//! The atoms of ontologies: tables of prefixes, and, from crates below, the
//! terms of RDF and how references to IRIs are resolved.
#![tactic(auto)]

mod blocks;
mod by_iri;
mod fault;
mod prefixes;

pub use fault::{DeclareFault, ExpandFault};
pub use iri_references::resolve;
pub use prefixes::Prefixes;
pub use rdf_terms::{
    Iri, IriFault, Label, LabelFault, Literal, LiteralFault, facet_ok, in_map, lexical_ok, reserved,
};
