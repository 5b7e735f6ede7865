//! The tokens of Turtle.

use owl_characters::Text;

/// A word or a sign that stands for itself (RDF 1.1 Turtle, section 6.5).
#[derive(Clone, Copy, Debug, PartialEq, Eq)]
pub enum Symbol {
    /// `a`
    A,
    /// `true`
    True,
    /// `false`
    False,
    /// `PREFIX`, in whatever case
    Prefix,
    /// `BASE`, in whatever case
    Base,
    /// `.`
    Dot,
    /// `;`
    Semicolon,
    /// `,`
    Comma,
    /// `[`
    OpenBracket,
    /// `]`
    CloseBracket,
    /// `(`
    OpenParenthesis,
    /// `)`
    CloseParenthesis,
    /// `^^`
    Carets,
}

/// A token, by what it stands for (RDF 1.1 Turtle, sections 6.4 and 6.5).
#[derive(Debug, Drop, PartialEq, Eq)]
pub enum Token {
    /// An IRI reference without its brackets and escapes, or nothing where one
    /// of its escapes is of no character.
    Iri(Option<Text>),
    /// A prefixed name: the name of its prefix, and its local part without
    /// backslashes.
    Name(Text, Text),
    /// The label of a blank node, written behind `_:`.
    Label(Text),
    /// A string without its quotes and escapes.
    Str(Text),
    /// A language tag, or the word of a directive, written behind `@`.
    At(Text),
    /// An integer, as it is written.
    Integer(Text),
    /// A decimal, as it is written.
    Decimal(Text),
    /// A double, as it is written.
    Double(Text),
    /// A word or a sign.
    Symbol(Symbol),
}
