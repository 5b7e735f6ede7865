//! The tokens of the two syntaxes.

use owl_characters::Text;

/// A punctuation mark.
#[derive(Clone, Copy, Debug, PartialEq, Eq)]
pub enum Sign {
    /// `(`
    Open,
    /// `)`
    Close,
    /// `=`
    Equals,
    /// `^^`
    Carets,
    /// `{`
    OpenBrace,
    /// `}`
    CloseBrace,
    /// `[`
    OpenBracket,
    /// `]`
    CloseBracket,
    /// `,`
    Comma,
    /// `<`
    Less,
    /// `<=`
    AtMost,
    /// `>`
    Greater,
    /// `>=`
    AtLeast,
}

/// A token, by what it stands for (Structural Specification, sections 2.4, 3.7,
/// 5.6.2 and 5.7, and Manchester Syntax, section 2.1).
#[derive(Debug, Drop, PartialEq, Eq)]
pub enum Token {
    /// An IRI, written between `<` and `>`.
    Iri(Text),
    /// An abbreviated IRI: the name of its prefix, and its local part without
    /// escapes.
    Name(Text, Text),
    /// The label of a blank node, written behind `_:`.
    Blank(Text),
    /// A string without its quotes and escapes.
    Str(Text),
    /// A language tag, written behind `@`.
    At(Text),
    /// A word, as a keyword is.
    Word(Text),
    /// Digits, in Manchester Syntax perhaps behind `+` or `-`.
    Int(Text),
    /// An `Int`, a dot and digits, in Manchester Syntax alone.
    Dec(Text),
    /// A punctuation mark.
    Sign(Sign),
}
