//! Tokens as they stand in rows.

use owl_characters::Text;
use owl_text::Token;
use std::alloc::AllocError;
use std::fmt::Write;

/// What is told of in a row, by its kind and its texts between quotes.
pub trait Described {
    fn append_to(&self, line: &mut String) -> Result<(), AllocError>;
}

impl Described for Token {
    fn append_to(&self, line: &mut String) -> Result<(), AllocError> {
        match self {
            Token::Iri(iri) => append_text(line, "Iri", iri),
            Token::Name(prefix, local) => append_name(line, prefix, local),
            Token::Blank(label) => append_text(line, "Blank", label),
            Token::Str(text) => append_text(line, "Str", text),
            Token::At(tag) => append_text(line, "At", tag),
            Token::Word(word) => append_text(line, "Word", word),
            Token::Int(number) => append_text(line, "Int", number),
            Token::Dec(number) => append_text(line, "Dec", number),
            Token::Sign(sign) => write!(line, "{sign:?}"),
        }
    }
}

impl Described for ttl_tokens::Token {
    fn append_to(&self, line: &mut String) -> Result<(), AllocError> {
        match self {
            ttl_tokens::Token::Iri(Some(iri)) => append_text(line, "Iri", iri),
            ttl_tokens::Token::Iri(None) => line.push_str("Iri with an escape of no character"),
            ttl_tokens::Token::Name(prefix, local) => append_name(line, prefix, local),
            ttl_tokens::Token::Label(label) => append_text(line, "Label", label),
            ttl_tokens::Token::Str(text) => append_text(line, "Str", text),
            ttl_tokens::Token::At(tag) => append_text(line, "At", tag),
            ttl_tokens::Token::Integer(number) => append_text(line, "Integer", number),
            ttl_tokens::Token::Decimal(number) => append_text(line, "Decimal", number),
            ttl_tokens::Token::Double(number) => append_text(line, "Double", number),
            ttl_tokens::Token::Symbol(symbol) => write!(line, "{symbol:?}"),
        }
    }
}

fn append_text(line: &mut String, kind: &str, text: &Text) -> Result<(), AllocError> {
    write!(line, "{kind} \"{}\"", text.as_str())
}

fn append_name(line: &mut String, prefix: &Text, local: &Text) -> Result<(), AllocError> {
    write!(line, "Name \"{}\" \"{}\"", prefix.as_str(), local.as_str())
}
