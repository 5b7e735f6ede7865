//! What the nodes of an RDF graph that are expressions stand for, as trees of an
//! arena (Mapping to RDF Graphs, section 3.2).
#![tactic(auto)]

mod build;
mod depths;
mod duplicates;
mod fault;
mod form;
mod forms;
mod large;
mod laws;
mod lists;
mod nodes;
mod numbers;
mod source;
mod table;
mod terms;

pub use duplicates::Duplicates;
pub use fault::DenoteFault;
pub use form::{Form, Operand};
pub use laws::forms_denote;
pub use nodes::{Nodes, denote};
pub use numbers::no_numbers;
pub use rdf_asked::untyped;
pub use rdf_meaning::Role;
pub use rdf_roles::{NodeFault, Roles};
pub use rdf_thin::{is_thin, thin};
pub use source::Source;
