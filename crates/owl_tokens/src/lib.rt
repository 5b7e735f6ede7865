//! The tokens of Functional-Style Syntax and of Manchester Syntax.
#![tactic(auto)]

mod functional_table;
mod kinds;
mod languages;
mod laws;
mod manchester_table;
mod token;
mod values;

pub use languages::{Functional, Manchester};
pub use laws::{
    functional_lexemes_are_spelled, languages_are_prompt, lexemes_are_known,
    manchester_lexemes_are_spelled,
};
pub use token::{Sign, Token};
