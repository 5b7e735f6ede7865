//! The classes of tokens.

ghost use Rattle.std.specs.Prelude.{◌≡◌, find};
ghost use Rattle.std.specs.Char.{is_ascii_digit};
ghost use Rattle.std.specs.List.{list_all};
ghost use Rattle.std.specs.Str.{chars};
ghost use Rattle.owl_characters.specs.Order.{text_eq};
ghost use Rattle.man_grammar.specs.ClassNumbers.{word_of};
ghost use Rattle.man_grammar.specs.Classes.{class_of, integer_class, keyword_or, name_class, sign_class, token_class, word_class};

use crate::class::{Class, colon_keywords, word_keywords};
use owl_characters::Text;
use owl_tokens::{Sign, Token};

/// The first of these keywords that is this word.
fn keyword_named(keywords: &[Class], word: &Text) -> Option<Class>
    ensures { result ≡ find (λ k. text_eq word.now (word_of k)) keywords.now }
{
    keywords
        .iter()
        .copied()
        .find(|keyword| word.is(keyword.word()))
}

/// The first of these keywords that is this word, or else another class.
#[tactic(auto, unfolding(crate::specs::Classes::keyword_or))]
fn keyword_or(other: Class, keywords: &[Class], word: &Text) -> Class
    ensures { result ≡ keyword_or other keywords.now word.now }
{
    keyword_named(keywords, word).unwrap_or(other)
}

/// The class of a name with this prefix and this local part.
fn name_class(prefix: &Text, local: &Text) -> Class
    ensures { result ≡ name_class prefix.now local.now }
{
    if local.is("") {
        keyword_or(Class::Namespace, colon_keywords(), prefix)
    } else {
        Class::Prefixed
    }
}

/// The class of a word.
fn word_class(word: &Text) -> Class
    ensures { result ≡ word_class word.now }
{
    keyword_or(Class::PlainWord, word_keywords(), word)
}

/// The class of an integer.
fn integer_class(number: &Text) -> Class
    ensures { result ≡ integer_class number.now }
{
    if are_digits(number.as_str()) {
        Class::Digits
    } else {
        Class::Signed
    }
}

fn are_digits(text: &str) -> bool
    ensures { result ≡ list_all is_ascii_digit (chars text.now) }
{
    text.chars().all(|c| c.is_ascii_digit())
}

/// The class of a punctuation mark.
fn sign_class(sign: Sign) -> Class
    ensures { result ≡ sign_class sign }
{
    match sign {
        Sign::Open => Class::OpenParenthesis,
        Sign::Close => Class::CloseParenthesis,
        Sign::Equals => Class::Equals,
        Sign::Carets => Class::Carets,
        Sign::OpenBrace => Class::OpenBrace,
        Sign::CloseBrace => Class::CloseBrace,
        Sign::OpenBracket => Class::OpenBracket,
        Sign::CloseBracket => Class::CloseBracket,
        Sign::Comma => Class::Comma,
        Sign::Less => Class::LessThan,
        Sign::AtMost => Class::AtMost,
        Sign::Greater => Class::MoreThan,
        Sign::AtLeast => Class::AtLeast,
    }
}

impl Class {
    /// The class of a token.
    pub fn of(token: &Token) -> Class
        ensures { result ≡ token_class token.now }
    {
        match token {
            Token::Iri(_) => Class::IriRef,
            Token::Name(prefix, local) => name_class(prefix, local),
            Token::Blank(_) => Class::Blank,
            Token::Str(_) => Class::Text,
            Token::At(_) => Class::Language,
            Token::Word(word) => word_class(word),
            Token::Int(number) => integer_class(number),
            Token::Dec(_) => Class::Decimal,
            Token::Sign(sign) => sign_class(*sign),
        }
    }
}

/// The number of the class of a token.
pub fn class_of(token: &Token) -> u8
    ensures { result ≡ class_of token.now }
{
    Class::of(token).number()
}
