//! Turtle as a syntax of readers.

ghost use Rattle.std.specs.Prelude.{◌≡◌, ◌≢◌, ℕ, List, Option, IfErr, OnOk};
ghost use Rattle.owl_reader.specs.Events.{BarsByEvents, MadeByEvents, WholeByEvents};
ghost use Rattle.owl_reader.specs.Following.{GoesOn, MayFollow, MayTake};
ghost use Rattle.owl_reader.specs.Steps.{Step, events_of, token_in};
ghost use Rattle.owl_reader.specs.declared.fault.TokenFault as token;
ghost use Rattle.ttl_tokens.specs.TurtleSpellingLaws.{turtle_is_prompt};
ghost use Rattle.ttl_tokens.specs.TurtleSpellings.{Spells};
ghost use Rattle.ttl_tokens.specs.declared.token.Token as lexeme;
ghost use Rattle.ttl_grammar.specs.Rules.{Bars, turtle_rules};
ghost use Rattle.ttl_grammar.specs.StartLaws.{has_document};
ghost use Rattle.ttl_grammar.specs.Table.{turtle};
ghost use Rattle.ttl_read.specs.Showing.{Made, Whole};

use crate::assembler::Assembler;
use owl_lexer::Placed;
use owl_reader::{Mark, Syntax, TokenFault};
use ttl_tokens::Token;

/// The number of the act before the last token of a statement.
const END_STATEMENT: u8 = 20;

impl Syntax for Assembler {
    type Language = ttl_tokens::Turtle;

    type Grammar = ttl_grammar::Turtle;

    ghost Context = { Option (List ℕ) };

    ghost rules = { turtle_rules };

    ghost Made = { λ base. MadeByEvents (Made base) };

    ghost Whole = { λ base. WholeByEvents (Whole base) };

    fn document() -> u16 {
        0
    }

    fn class_of(token: &Token) -> u8 {
        ttl_grammar::class_of(token)
    }

    fn mark_of(act: u8) -> Mark {
        match act {
            END_STATEMENT => Mark::Last,
            _ => Mark::Within,
        }
    }

    fn begins_item(_token: &Token) -> bool {
        false
    }

    fn end_begins_item() -> bool {
        false
    }

    fn behind_items() -> &'static [u8] {
        &[]
    }

    fn take(&mut self, acts: &[u8], next: Option<Placed<Token>>) -> Result<(), TokenFault>
        requires { (base : Option (List ℕ)) × MayTake Spells turtle (turtle_rules base)
            (MadeByEvents (Made base)) self.old acts.now next }
        ensures takes { OnOk result ((base : Option (List ℕ)) (steps : List (Step lexeme.Token))
            → MadeByEvents (Made base) steps self.old
            → MayFollow turtle (turtle_rules base) (events_of steps) acts.now (token_in next)
            → GoesOn (MadeByEvents (Made base)) (WholeByEvents (Whole base))
            steps acts.now next self.new) }
        ensures free { OnOk result ((base : Option (List ℕ)) (steps : List (Step lexeme.Token))
            → MadeByEvents (Made base) steps self.old
            → MayFollow turtle (turtle_rules base) (events_of steps) acts.now (token_in next)
            → (fault : token.TokenFault)
            → BarsByEvents (Bars base) steps acts.now next fault → ⊥) }
        ensures barred { IfErr result (λ fault. fault ≢ token.TokenFault.Memory
            → (base : Option (List ℕ)) (steps : List (Step lexeme.Token))
            → MadeByEvents (Made base) steps self.old
            → MayFollow turtle (turtle_rules base) (events_of steps) acts.now (token_in next)
            → BarsByEvents (Bars base) steps acts.now next fault) }
    {
        self.take_next(acts, next.map(|placed| placed.token))
    }

    ghost has_document = { has_document };

    ghost is_prompt = { λ _. turtle_is_prompt };
}
