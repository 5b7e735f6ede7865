//! Object property expressions by numbers: which of them are composite, and which
//! chains break their order (Structural Specification, section 11).
#![tactic(auto)]

mod builtin;
mod chains;
mod composites;
mod numbers;
mod order;
mod steps;

pub use order::{broken_chains, composite_properties};
