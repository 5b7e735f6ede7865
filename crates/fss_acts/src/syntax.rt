//! Functional-Style Syntax as a syntax of readers.

ghost use Rattle.std.specs.Prelude.{◌≡◌, ◌≢◌, List, IfErr, OnOk};
ghost use Rattle.owl_reader.specs.Events.{BarsByEvents, MadeByEvents, WholeByEvents};
ghost use Rattle.owl_reader.specs.Following.{GoesOn, MayFollow, MayTake};
ghost use Rattle.owl_reader.specs.Steps.{Step, events_of, token_in};
ghost use Rattle.owl_reader.specs.declared.fault.TokenFault as token;
ghost use Rattle.owl_tokens.specs.FunctionalSpellingLaws.{functional_is_prompt};
ghost use Rattle.owl_tokens.specs.Tokens.{Spells};
ghost use Rattle.owl_tokens.specs.declared.token.Token as lexeme;
ghost use Rattle.fss_grammar.specs.Table.{functional};
ghost use Rattle.fss_defects.specs.Faults.{Bars};
ghost use Rattle.fss_acts.specs.Assembling.{Did, Made};
ghost use Rattle.fss_defects.specs.Rules.{functional_rules};
ghost use Rattle.fss_defects.specs.StartLaws.{has_document};

use crate::assembler::Assembler;
use owl_lexer::Placed;
use owl_reader::{Mark, Syntax, TokenFault};
use owl_tokens::Token;

/// The number of the act before the IRI of the ontology.
const ONTOLOGY_IRI: u8 = 87;
/// The number of the act before its version IRI.
const VERSION_IRI: u8 = 88;
/// The number of the act before the last token of an item.
const END_ITEM: u8 = 92;

impl Syntax for Assembler {
    type Language = owl_tokens::Functional;

    type Grammar = fss_grammar::Functional;

    ghost Context = { Unit {0} };

    ghost rules = { λ _. functional_rules };

    ghost Made = { λ _. MadeByEvents Made };

    ghost Whole = { λ _. WholeByEvents Did };

    fn document() -> u16 {
        0
    }

    fn class_of(token: &Token) -> u8 {
        fss_grammar::class_of(token)
    }

    fn mark_of(act: u8) -> Mark {
        match act {
            END_ITEM => Mark::Last,
            ONTOLOGY_IRI => Mark::Again,
            VERSION_IRI => Mark::Again,
            _ => Mark::Within,
        }
    }

    fn begins_item(_token: &Token) -> bool {
        false
    }

    fn end_begins_item() -> bool {
        false
    }

    fn behind_items() -> &'static [u8] {
        &[]
    }

    fn take(&mut self, acts: &[u8], next: Option<Placed<Token>>) -> Result<(), TokenFault>
        requires { Unit {0} × MayTake Spells functional functional_rules (MadeByEvents Made)
            self.old acts.now next }
        ensures takes { OnOk result (Unit {0} → (steps : List (Step lexeme.Token))
            → MadeByEvents Made steps self.old
            → MayFollow functional functional_rules (events_of steps) acts.now (token_in next)
            → GoesOn (MadeByEvents Made) (WholeByEvents Did) steps acts.now next self.new) }
        ensures free { OnOk result (Unit {0} → (steps : List (Step lexeme.Token))
            → MadeByEvents Made steps self.old
            → MayFollow functional functional_rules (events_of steps) acts.now (token_in next)
            → (fault : token.TokenFault) → BarsByEvents Bars steps acts.now next fault → ⊥) }
        ensures barred { IfErr result (λ fault. fault ≢ token.TokenFault.Memory
            → Unit {0} → (steps : List (Step lexeme.Token)) → MadeByEvents Made steps self.old
            → MayFollow functional functional_rules (events_of steps) acts.now (token_in next)
            → BarsByEvents Bars steps acts.now next fault) }
    {
        let mut next = next.map(|placed| placed.token);
        self.do_all(acts, &mut next)
    }

    ghost has_document = { λ _. has_document };

    ghost is_prompt = { λ _. functional_is_prompt };
}
