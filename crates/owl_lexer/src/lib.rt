//! Characters cut into tokens, each the longest, by automata that are tables.
#![tactic(auto)]

mod again;
mod characters;
mod fault;
mod hand;
mod language;
mod laws;
mod lexer;
mod pieces;
mod placed;
mod source;
mod tables;

pub use fault::LexFault;
pub use language::TokenLanguage;
pub use laws::{tokens_come_always, tokens_come_one_way};
pub use lexer::Lexer;
pub use placed::Placed;
pub use tables::{NO_KIND, NO_STATE, class_by_ascii, class_of, kind_in, step_in};
