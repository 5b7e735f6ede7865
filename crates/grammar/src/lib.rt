//! Predictive parsers by tables: what derives from a grammar, and a parser that
//! takes the tokens of a derivation one at a time.
#![tactic(auto)]

mod fault;
mod parser;
mod stack;
mod symbol;
mod table;

pub use fault::ParseFault;
pub use parser::Parser;
pub use symbol::Symbol;
pub use table::{END, Row, Table};
