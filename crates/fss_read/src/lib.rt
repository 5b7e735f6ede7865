//! Reads documents in Functional-Style Syntax.
#![tactic(auto)]

mod reader;

pub use owl_reader::{ReadFault, Reason};
pub use reader::Reader;
