//! The kinds of IRIs: what is built in, what is declared, and what clashes
//! (Structural Specification, sections 5.1 to 5.6 and 5.8).
#![tactic(auto)]

mod kind;
mod kinds;
mod marks;

pub use kind::{Kind, built_in};
pub use kinds::Kinds;
