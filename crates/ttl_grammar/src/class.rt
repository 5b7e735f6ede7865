//! The classes of tokens.

ghost use Rattle.std.specs.Prelude.{◌≡◌};
ghost use Rattle.ttl_grammar.specs.Classes.{class_number, class_of, name_class, symbol_class, tag_class, token_class};

use owl_characters::Text;
use ttl_tokens::{Symbol, Token};

/// What the grammar tells of a token (RDF 1.1 Turtle, section 6.5).
#[derive(Clone, Copy, Debug, PartialEq, Eq)]
pub enum Class {
    /// An IRI reference.
    IriRef,
    /// A prefixed name with a local part.
    Prefixed,
    /// A prefixed name without a local part, or the name of a prefix.
    Namespace,
    /// The label of a blank node.
    Label,
    /// A string.
    Text,
    /// A language tag that is no word of a directive.
    Language,
    /// `@prefix`
    AtPrefix,
    /// `@base`
    AtBase,
    /// An integer.
    Integer,
    /// A decimal.
    Decimal,
    /// A double.
    Double,
    /// `a`
    WordA,
    /// `true`
    WordTrue,
    /// `false`
    WordFalse,
    /// `PREFIX`
    WordPrefix,
    /// `BASE`
    WordBase,
    /// `.`
    Dot,
    /// `;`
    Semicolon,
    /// `,`
    Comma,
    /// `[`
    OpenBracket,
    /// `]`
    CloseBracket,
    /// `(`
    OpenParenthesis,
    /// `)`
    CloseParenthesis,
    /// `^^`
    Carets,
}

impl Class {
    /// The number of the class, by which tables have it.
    pub fn number(self) -> u8
        ensures { result ≡ class_number self }
    {
        match self {
            Class::IriRef => 0,
            Class::Prefixed => 1,
            Class::Namespace => 2,
            Class::Label => 3,
            Class::Text => 4,
            Class::Language => 5,
            Class::AtPrefix => 6,
            Class::AtBase => 7,
            Class::Integer => 8,
            Class::Decimal => 9,
            Class::Double => 10,
            Class::WordA => 11,
            Class::WordTrue => 12,
            Class::WordFalse => 13,
            Class::WordPrefix => 14,
            Class::WordBase => 15,
            Class::Dot => 16,
            Class::Semicolon => 17,
            Class::Comma => 18,
            Class::OpenBracket => 19,
            Class::CloseBracket => 20,
            Class::OpenParenthesis => 21,
            Class::CloseParenthesis => 22,
            Class::Carets => 23,
        }
    }

    /// The class of a token.
    pub fn of(token: &Token) -> Class
        ensures { result ≡ token_class token.now }
    {
        match token {
            Token::Iri(_) => Class::IriRef,
            Token::Name(_, local) => name_class(local),
            Token::Label(_) => Class::Label,
            Token::Str(_) => Class::Text,
            Token::At(tag) => tag_class(tag),
            Token::Integer(_) => Class::Integer,
            Token::Decimal(_) => Class::Decimal,
            Token::Double(_) => Class::Double,
            Token::Symbol(symbol) => symbol_class(*symbol),
        }
    }
}

/// The class of a name with this local part.
fn name_class(local: &Text) -> Class
    ensures { result ≡ name_class local.now }
{
    if local.is("") {
        Class::Namespace
    } else {
        Class::Prefixed
    }
}

/// The class of what stands behind `@`.
fn tag_class(tag: &Text) -> Class
    ensures { result ≡ tag_class tag.now }
{
    if tag.is("prefix") {
        Class::AtPrefix
    } else if tag.is("base") {
        Class::AtBase
    } else {
        Class::Language
    }
}

/// The class of a word or a sign.
fn symbol_class(symbol: Symbol) -> Class
    ensures { result ≡ symbol_class symbol }
{
    match symbol {
        Symbol::A => Class::WordA,
        Symbol::True => Class::WordTrue,
        Symbol::False => Class::WordFalse,
        Symbol::Prefix => Class::WordPrefix,
        Symbol::Base => Class::WordBase,
        Symbol::Dot => Class::Dot,
        Symbol::Semicolon => Class::Semicolon,
        Symbol::Comma => Class::Comma,
        Symbol::OpenBracket => Class::OpenBracket,
        Symbol::CloseBracket => Class::CloseBracket,
        Symbol::OpenParenthesis => Class::OpenParenthesis,
        Symbol::CloseParenthesis => Class::CloseParenthesis,
        Symbol::Carets => Class::Carets,
    }
}

/// The number of the class of a token.
pub fn class_of(token: &Token) -> u8
    ensures { result ≡ class_of token.now }
{
    Class::of(token).number()
}
