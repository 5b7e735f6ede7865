//! Turtle as a language of tokens.

use crate::table::{ASCII, INTERVALS, KINDS, OTHERS, ROWS};
use crate::token::Token;
use crate::values::token_of;
use owl_characters::NoMemory;
use owl_lexer::{TokenLanguage, class_by_ascii, kind_in, step_in};
use std::alloc::Global;

/// The tokens of Turtle (RDF 1.1 Turtle, section 6.5).
pub struct Turtle;

#[tactic(auto, unfolding(crate::specs::TurtleTable::turtle_table))]
impl TokenLanguage for Turtle {
    ghost use Rattle.owl_lexer.specs.Tables.{automaton_of};
    ghost use Rattle.ttl_tokens.specs.TurtleSpellingLaws.{turtle_is_language};
    ghost use Rattle.ttl_tokens.specs.TurtleSpellings.{Spells};
    ghost use Rattle.ttl_tokens.specs.TurtleTable.{turtle_table};
    ghost use Rattle.ttl_tokens.specs.TurtleValues.{token_of};

    type Token = Token;

    ghost automaton = { automaton_of turtle_table };

    ghost value_of = { token_of };

    ghost spells = { Spells };

    fn start() -> u8 {
        0
    }

    fn step(state: u8, c: char) -> Option<u8> {
        step_in(&ROWS, state, class_by_ascii(&ASCII, &INTERVALS, OTHERS, c))
    }

    fn kind(state: u8) -> Option<u8> {
        kind_in(&KINDS, state)
    }

    fn value(alloc: Global, kind: u8, spelling: &[char]) -> Result<Option<Token>, NoMemory> {
        token_of(alloc, kind, spelling)
    }

    ghost is_language = { turtle_is_language };
}
