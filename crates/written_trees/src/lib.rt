//! What texts of Functional-Style Syntax and of Manchester Syntax have alike: how leaves are written,
//! and which kid of a node is written twice.
#![tactic(auto)]

mod atoms;
mod members;

pub use atoms::add_atom;
pub use members::repeated;
