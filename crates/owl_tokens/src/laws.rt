//! Laws of the languages.

ghost use Rattle.std.specs.Prelude.{◌≡◌, ◌↔◌, ℕ, List, Some, []};
ghost use Rattle.owl_lexer.specs.Automata.{Knows};
ghost use Rattle.owl_lexer.specs.Grammars.{IsLexeme};
ghost use Rattle.owl_lexer.specs.Languages.{IsPrompt};
ghost use Rattle.owl_tokens.specs.FunctionalGrammar.{functional_grammar};
ghost use Rattle.owl_tokens.specs.FunctionalTable.{functional_automaton};
ghost use Rattle.owl_tokens.specs.ManchesterGrammar.{manchester_grammar};
ghost use Rattle.owl_tokens.specs.ManchesterSpellings.{SpellsManchester};
ghost use Rattle.owl_tokens.specs.ManchesterTable.{manchester_automaton};
ghost use Rattle.owl_tokens.specs.Tokens.{Spells};
ghost use Rattle.owl_tokens.specs.Values.{value_of};
ghost use Rattle.owl_tokens.specs.declared.token.Token.{Token};

/// A law: the automata know the lexemes of their grammars.
pub fn lexemes_are_known()
    ensures functional { Knows functional_automaton (IsLexeme functional_grammar) }
    ensures manchester { Knows manchester_automaton (IsLexeme manchester_grammar) }
{}

/// A law: behind a token no characters lead on to white space, so that each
/// token can be told as soon as white space follows it.
pub fn languages_are_prompt()
    ensures functional { IsPrompt functional_automaton Spells [] }
    ensures manchester { IsPrompt manchester_automaton SpellsManchester [] }
{}

/// A law: characters are written for a token of Functional-Style Syntax exactly
/// where they are a lexeme that stands for it (Structural Specification,
/// sections 2.4, 3.7, 5.6.2 and 5.7).
pub fn functional_lexemes_are_spelled()
    ensures { (token : Token) (spelling : List ℕ) → Spells token spelling
        ↔ ((kind : ℕ) × IsLexeme functional_grammar kind spelling
        × (value_of kind spelling ≡ Some token)) }
{}

/// A law: characters are written for a token of Manchester Syntax exactly where
/// they are a lexeme that stands for it (section 2.1).
pub fn manchester_lexemes_are_spelled()
    ensures { (token : Token) (spelling : List ℕ) → SpellsManchester token spelling
        ↔ ((kind : ℕ) × IsLexeme manchester_grammar kind spelling
        × (value_of kind spelling ≡ Some token)) }
{}
