//! What can be said in Manchester Syntax.
#![tactic(auto)]

mod facets;
mod frame_kinds;
mod frames;
mod inside;
mod laws;
mod sayable;
mod subjects;

pub use facets::facet_named;
pub use frame_kinds::frame_kind;
pub use laws::{
    equivalent_ontologies_are_said_alike, facets_have_iris, frames_have_kinds,
    objections_are_first_once, said_axioms_are_clear,
};
pub use sayable::can;
