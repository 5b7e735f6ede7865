//! Laws of the tokens.

ghost use Rattle.std.specs.Prelude.{◌≡◌, ℕ, true, List, ◌++◌, length, codes, flat_map};
ghost use Rattle.std.specs.List.{AllByRecursion, list_all};
ghost use Rattle.owl_lexer.specs.Automata.{Knows};
ghost use Rattle.owl_lexer.specs.Grammars.{IsLexeme};
ghost use Rattle.owl_lexer.specs.Languages.{IsPrompt};
ghost use Rattle.owl_lexer.specs.Tables.{automaton_of};
ghost use Rattle.owl_characters.specs.Names.{IsPrefixName, SpellsLocal};
ghost use Rattle.ttl_tokens.specs.EscapedText.{IsPiece, Piece, characters_of, piece_spelling};
ghost use Rattle.ttl_tokens.specs.Escapes.{unescaped};
ghost use Rattle.ttl_tokens.specs.TurtleValues.{IsUndone, local_text, prefix_text};
ghost use Rattle.ttl_tokens.specs.TokenForms.{IsFormed};
ghost use Rattle.ttl_tokens.specs.TurtleGrammar.{are_listed, turtle_grammar};
ghost use Rattle.ttl_tokens.specs.declared.kinds.TheConstants.{STRING_LITERAL_LONG_QUOTE, STRING_LITERAL_LONG_SINGLE_QUOTE, STRING_LITERAL_QUOTE, STRING_LITERAL_SINGLE_QUOTE};
ghost use Rattle.ttl_tokens.specs.TurtleSpellings.{Spells, long_quotes};
ghost use Rattle.ttl_tokens.specs.TurtleTable.{turtle_table};
ghost use Rattle.ttl_tokens.specs.declared.token.Token.{Token};

/// A law: the automaton of Turtle knows the lexemes of the grammar.
pub fn lexemes_are_known()
    ensures { Knows (automaton_of turtle_table) (IsLexeme turtle_grammar) }
{}

/// A law: each set of characters that a terminal names is one of the grammar's, by
/// its place.
pub fn sets_are_listed()
    ensures { list_all (λ terminal. are_listed (length turtle_grammar.sets) terminal.pattern) turtle_grammar.terminals ≡ true }
{}

/// A law: behind a token no characters lead on to white space, unless the quotes
/// of a long string stand among them. So each token can be told as soon as white
/// space follows it, where there are none.
pub fn language_is_prompt()
    ensures { IsPrompt (automaton_of turtle_table) Spells long_quotes }
{}

/// A law: each escape is undone, and nothing else.
pub fn escapes_are_undone()
    ensures { (pieces : List Piece) → AllByRecursion IsPiece pieces → unescaped (flat_map piece_spelling pieces) ≡ characters_of pieces }
{}

/// A law: each string of the grammar is undone to its text, since its escapes
/// are all of characters.
pub fn strings_are_undone()
    ensures quote { (cs : List ℕ) → IsLexeme turtle_grammar STRING_LITERAL_QUOTE cs → IsUndone 1 cs }
    ensures single_quote { (cs : List ℕ) → IsLexeme turtle_grammar STRING_LITERAL_SINGLE_QUOTE cs → IsUndone 1 cs }
    ensures long_quote { (cs : List ℕ) → IsLexeme turtle_grammar STRING_LITERAL_LONG_QUOTE cs → IsUndone 3 cs }
    ensures long_single_quote { (cs : List ℕ) → IsLexeme turtle_grammar STRING_LITERAL_LONG_SINGLE_QUOTE cs → IsUndone 3 cs }
{}

/// A law: a prefix and a local part, as the three syntaxes write them, are read
/// as they are meant.
pub fn names_are_read()
    ensures prefix { (prefix written : List ℕ) → IsPrefixName prefix → prefix_text (prefix ++ (codes ":" ++ written)) ≡ prefix }
    ensures local { (prefix written local : List ℕ) → IsPrefixName prefix → SpellsLocal written local → local_text (prefix ++ (codes ":" ++ written)) ≡ local }
{}

/// A law: what tokens hold is what their names say.
pub fn tokens_are_formed()
    ensures { (token : Token) (spelling : List ℕ) → Spells token spelling → IsFormed token }
{}
