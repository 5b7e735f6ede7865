//! Laws of the tokens.

ghost use Rattle.std.specs.Prelude.{◌≡◌, ℕ, List, Option};
ghost use Rattle.owl_lexer.specs.Lexing.{Begun, Continues};
ghost use Rattle.owl_lexer.specs.Splitting.{Splits};
ghost use Rattle.owl_lexer.specs.declared.fault.LexFault.{LexFault};
ghost use Rattle.owl_lexer.specs.declared.placed.Placed.{Placed};
ghost use Rattle.owl_text.specs.Dialects.{SpellsIn};
ghost use Rattle.owl_text.specs.declared.dialect.Dialect.{Dialect};
ghost use Rattle.owl_tokens.specs.declared.token.Token.{Token};

use owl_tokens::{Functional, Manchester};

/// A law: bytes are one list of tokens of a dialect, and end in one way.
pub fn tokens_come_one_way()
    ensures whole { (dialect : Dialect) (bytes : List ℕ) (ts us : List (Placed Token))
        (e f : Option LexFault) → Splits (SpellsIn dialect) bytes ts e
        → Splits (SpellsIn dialect) bytes us f → (ts ≡ us) × (e ≡ f) }
    ensures rest { (dialect : Dialect) (begun : Begun) (more : List ℕ)
        (ts us : List (Placed Token)) (e f : Option LexFault)
        → Continues (SpellsIn dialect) begun more ts e
        → Continues (SpellsIn dialect) begun more us f → (ts ≡ us) × (e ≡ f) }
{
    owl_lexer::tokens_come_one_way::<Functional>();
    owl_lexer::tokens_come_one_way::<Manchester>();
}
