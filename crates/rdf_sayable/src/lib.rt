//! What can be said in RDF.
#![tactic(auto)]

mod laws;
mod objection;
mod sayable;

pub use laws::{
    equivalent_parts_are_said_alike, objections_are_first_once, saying_depends_on_leaves,
};
pub use sayable::can;
