//! Manchester Syntax as a syntax of readers.

ghost use Rattle.std.specs.Prelude.{◌≡◌, ◌≢◌, List, IfErr, OnOk};
ghost use Rattle.man_grammar.specs.Rules.{Bars, manchester_rules};
ghost use Rattle.man_grammar.specs.StartLaws.{has_document};
ghost use Rattle.man_grammar.specs.Table.{manchester};
ghost use Rattle.owl_reader.specs.Following.{GoesOn, MayFollow, MayTake};
ghost use Rattle.owl_reader.specs.Steps.{Step, events_of, token_in};
ghost use Rattle.owl_reader.specs.declared.fault.TokenFault as token;
ghost use Rattle.owl_tokens.specs.ManchesterSpellingLaws.{manchester_is_prompt};
ghost use Rattle.owl_tokens.specs.ManchesterSpellings.{SpellsManchester};
ghost use Rattle.owl_tokens.specs.declared.token.Token as lexeme;
ghost use Rattle.man_read.specs.Showing.{Made, Whole};

use crate::assembler::Assembler;
use owl_lexer::Placed;
use owl_reader::{Mark, Syntax, TokenFault};
use owl_tokens::Token;

/// The number of the class of `Ontology:`, behind which no prefix is declared, and
/// of `Class:`, which may stand behind each item.
const BEHIND_ITEMS: [u8; 2] = [1, 4];

/// How many keywords stand in front of a colon, and the number of
/// `Annotations:` among them, which begins no item.
const KEYWORDS: u8 = 31;

const ANNOTATIONS: u8 = 3;

impl Syntax for Assembler {
    type Language = owl_tokens::Manchester;

    type Grammar = man_grammar::Manchester;

    ghost Context = { Unit {0} };

    ghost rules = { λ _. manchester_rules };

    ghost Made = { λ _. Made };

    ghost Whole = { λ _. Whole };

    fn document() -> u16 {
        0
    }

    fn class_of(token: &Token) -> u8 {
        man_grammar::class_of(token)
    }

    fn mark_of(_act: u8) -> Mark {
        Mark::Within
    }

    fn begins_item(token: &Token) -> bool {
        let class = man_grammar::class_of(token);
        class < KEYWORDS && class != ANNOTATIONS
    }

    fn end_begins_item() -> bool {
        true
    }

    fn behind_items() -> &'static [u8] {
        &BEHIND_ITEMS
    }

    fn take(&mut self, acts: &[u8], next: Option<Placed<Token>>) -> Result<(), TokenFault>
        requires { Unit {0} × MayTake SpellsManchester manchester manchester_rules Made
            self.old acts.now next }
        ensures takes { OnOk result (Unit {0} → (steps : List (Step lexeme.Token))
            → Made steps self.old
            → MayFollow manchester manchester_rules (events_of steps) acts.now (token_in next)
            → GoesOn Made Whole steps acts.now next self.new) }
        ensures free { OnOk result (Unit {0} → (steps : List (Step lexeme.Token))
            → Made steps self.old
            → MayFollow manchester manchester_rules (events_of steps) acts.now (token_in next)
            → (fault : token.TokenFault) → Bars steps acts.now next fault → ⊥) }
        ensures barred { IfErr result (λ fault. fault ≢ token.TokenFault.Memory
            → Unit {0} → (steps : List (Step lexeme.Token)) → Made steps self.old
            → MayFollow manchester manchester_rules (events_of steps) acts.now (token_in next)
            → Bars steps acts.now next fault) }
    {
        self.do_all(acts, &next)
    }

    ghost has_document = { λ _. has_document };

    ghost is_prompt = { λ _. manchester_is_prompt };
}
