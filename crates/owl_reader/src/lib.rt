//! Readers of documents whose bytes come in pieces, in any syntax: a lexer, a
//! predictive parser, what the syntax does with its tokens, and the first defect.
#![tactic(auto)]

mod fault;
mod item;
mod progress;
mod reader;
mod stream;
mod syntax;

pub use fault::{ReadFault, Reason, TokenFault};
pub use item::Mark;
pub use reader::Reader;
pub use syntax::Syntax;
