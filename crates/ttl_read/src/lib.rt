//! Reads documents of Turtle whose bytes come in pieces.
#![tactic(auto)]

mod assembler;
mod facts;
mod labels;
mod names;
mod reader;
mod refusals;
mod syntax;
mod terms;

pub use owl_reader::{ReadFault, Reason};
pub use reader::{Reader, TtlDoc};
