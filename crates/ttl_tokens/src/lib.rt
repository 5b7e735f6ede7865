//! The tokens of Turtle.
#![tactic(auto)]

mod escapes;
mod kinds;
mod language;
mod laws;
mod parts;
mod table;
mod token;
mod values;

pub use language::Turtle;
pub use laws::{
    escapes_are_undone, lexemes_are_known, names_are_read, sets_are_listed, strings_are_undone,
    tokens_are_formed,
};
pub use token::{Symbol, Token};
