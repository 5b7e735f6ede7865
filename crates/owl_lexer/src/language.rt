//! Languages of tokens.

ghost use Rattle.std.specs.Prelude.{◌≡◌, ℕ, List, Option, IfOk};
ghost use Rattle.owl_lexer.specs.Automata.{Automaton};
ghost use Rattle.owl_lexer.specs.Languages.{IsLanguage};

use owl_characters::NoMemory;
use std::alloc::Global;

/// A language of tokens: what is written for each, an automaton that knows the
/// lexemes, and the tokens that lexemes stand for.
///
/// States and kinds are numbers of the automaton, as in a table.
pub trait TokenLanguage {
    /// What a lexeme stands for that is neither white space nor a comment.
    type Token: Drop;

    ghost automaton: { Automaton };

    ghost value_of: { ℕ → List ℕ → Option Self.Token };

    ghost spells: { Self.Token → List ℕ → Type 0 };

    /// The state where a lexeme begins.
    fn start() -> u8
        ensures { result ≡ automaton.start };

    /// The state to which a character leads, if it leads on.
    fn step(state: u8, c: char) -> Option<u8>
        ensures { result ≡ automaton.step state c };

    /// The kind of lexeme that is whole at a state, if one is.
    fn kind(state: u8) -> Option<u8>
        ensures { result ≡ automaton.kind state };

    /// The token that a lexeme of this kind stands for, if it stands for one.
    fn value(alloc: Global, kind: u8, spelling: &[char]) -> Result<Option<Self::Token>, NoMemory>
        ensures { IfOk result (λ token. token ≡ value_of kind spelling.now) };

    ghost is_language: { IsLanguage automaton value_of spells };
}
