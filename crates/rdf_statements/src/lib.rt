//! All that an RDF graph states, axioms and annotations, as trees in a store
//! (Mapping to RDF Graphs, sections 3.2.5 and 3.3).
#![tactic(auto)]

mod axioms;
mod bare;
mod form;
mod forms;
mod hold_forms;
mod keys;
mod kids;
mod known;
mod laws;
mod nodes;
mod places;
mod stated;
mod statements;
mod triples;

pub use form::{AxiomForm, Kid};
pub use forms::{form_of_node, form_of_triple};
pub use laws::{axiom_forms_say, parts_are_smaller};
pub use statements::{Statements, hold_statements};
