//! What OWL 2 DL asks of datatypes and of assertions between anonymous
//! individuals, marked in an arena: by a table of definitions, and by graphs whose
//! nodes are the places of trees (Structural Specification, section 11.2).
#![tactic(auto)]

mod definitions;
mod groups;
mod leaves;
mod links;
mod misuse;
mod orders;
mod pairs;
mod ranges;
mod rings;
mod uses;

pub use groups::group_marks;
pub use misuse::misused_datatypes;
pub use orders::cyclic_definitions;
pub use rings::ring_assertions;
