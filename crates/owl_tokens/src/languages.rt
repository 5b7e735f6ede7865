//! The two languages of tokens.

use crate::token::Token;
use crate::values::value;
use crate::{functional_table, manchester_table};
use owl_characters::NoMemory;
use owl_lexer::{TokenLanguage, class_by_ascii, kind_in, step_in};
use std::alloc::Global;

/// The state of a table where a lexeme begins.
const FIRST_STATE: u8 = 0;

/// The tokens of Functional-Style Syntax (Structural Specification, sections
/// 2.4, 3.7, 5.6.2 and 5.7).
pub struct Functional;

/// The tokens of Manchester Syntax (section 2.1).
pub struct Manchester;

impl TokenLanguage for Functional {
    ghost use Rattle.owl_tokens.specs.FunctionalSpellingLaws.{functional_is_language};
    ghost use Rattle.owl_tokens.specs.FunctionalTable.{functional_automaton};
    ghost use Rattle.owl_tokens.specs.Tokens.{Spells};
    ghost use Rattle.owl_tokens.specs.Values.{value_of};

    type Token = Token;

    ghost automaton = { functional_automaton };

    ghost value_of = { value_of };

    ghost spells = { Spells };

    fn start() -> u8 {
        FIRST_STATE
    }

    #[tactic(auto, unfolding(crate::specs::FunctionalTable::functional_table))]
    fn step(state: u8, c: char) -> Option<u8> {
        let (ascii, intervals) = (&functional_table::ASCII, &functional_table::INTERVALS);
        let class = class_by_ascii(ascii, intervals, functional_table::OTHERS, c);
        step_in(&functional_table::ROWS, state, class)
    }

    #[tactic(auto, unfolding(crate::specs::FunctionalTable::functional_table))]
    fn kind(state: u8) -> Option<u8> {
        kind_in(&functional_table::KINDS, state)
    }

    fn value(alloc: Global, kind: u8, spelling: &[char]) -> Result<Option<Token>, NoMemory> {
        value(alloc, kind, spelling)
    }

    ghost is_language = { functional_is_language };
}

impl TokenLanguage for Manchester {
    ghost use Rattle.owl_tokens.specs.ManchesterSpellingLaws.{manchester_is_language};
    ghost use Rattle.owl_tokens.specs.ManchesterTable.{manchester_automaton};
    ghost use Rattle.owl_tokens.specs.ManchesterSpellings.{SpellsManchester};
    ghost use Rattle.owl_tokens.specs.Values.{value_of};

    type Token = Token;

    ghost automaton = { manchester_automaton };

    ghost value_of = { value_of };

    ghost spells = { SpellsManchester };

    fn start() -> u8 {
        FIRST_STATE
    }

    #[tactic(auto, unfolding(crate::specs::ManchesterTable::manchester_table))]
    fn step(state: u8, c: char) -> Option<u8> {
        let (ascii, intervals) = (&manchester_table::ASCII, &manchester_table::INTERVALS);
        let class = class_by_ascii(ascii, intervals, manchester_table::OTHERS, c);
        step_in(&manchester_table::ROWS, state, class)
    }

    #[tactic(auto, unfolding(crate::specs::ManchesterTable::manchester_table))]
    fn kind(state: u8) -> Option<u8> {
        kind_in(&manchester_table::KINDS, state)
    }

    fn value(alloc: Global, kind: u8, spelling: &[char]) -> Result<Option<Token>, NoMemory> {
        value(alloc, kind, spelling)
    }

    ghost is_language = { manchester_is_language };
}
