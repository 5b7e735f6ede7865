//! The acts of the grammar of Functional-Style Syntax: what they make of a
//! document while its tokens come.
#![tactic(auto)]

mod adding;
mod assembler;
mod beginning;
mod declaring;
mod kept;
mod leaves;
mod literals;
mod naming;
mod perform;
mod refusals;
mod syntax;
mod take;
mod tokens;

pub use assembler::Assembler;
