//! Laws of all languages of tokens.

ghost use Rattle.std.specs.Prelude.{◌≡◌, ℕ, List, Option};
ghost use Rattle.owl_lexer.specs.Lexing.{Begun, Continues};
ghost use Rattle.owl_lexer.specs.Splitting.{Splits};
ghost use Rattle.owl_lexer.specs.declared.fault.LexFault.{LexFault};
ghost use Rattle.owl_lexer.specs.declared.placed.Placed.{Placed};

use crate::language::TokenLanguage;

/// A law: bytes are one list of tokens of a language, and end in one way.
pub fn tokens_come_one_way<L: TokenLanguage>()
    ensures whole { (bytes : List ℕ) (ts us : List (Placed L.Token)) (e f : Option LexFault) →
        Splits L.spells bytes ts e → Splits L.spells bytes us f → (ts ≡ us) × (e ≡ f) }
    ensures rest { (begun : Begun) (more : List ℕ) →
        (ts us : List (Placed L.Token)) (e f : Option LexFault) →
        Continues L.spells begun more ts e → Continues L.spells begun more us f →
        (ts ≡ us) × (e ≡ f) }
{}

/// A law: any bytes are a list of tokens of a language, up to their end or to
/// a fault.
pub fn tokens_come_always<L: TokenLanguage>()
    ensures whole { (bytes : List ℕ) →
        (tokens : List (Placed L.Token)) × (ending : Option LexFault)
        × Splits L.spells bytes tokens ending }
    ensures rest { (begun : Begun) (more : List ℕ) →
        (tokens : List (Placed L.Token)) × (ending : Option LexFault)
        × Continues L.spells begun more tokens ending }
{}
