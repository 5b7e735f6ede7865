//! What lexemes stand for (RDF 1.1 Turtle, sections 2.4, 2.5 and 6.4).

ghost use Rattle.std.specs.Prelude.{◌≡◌, ◌≤◌, length, not, filter, Some, IfOk};
ghost use Rattle.std.specs.List.{position, position_or_len};
ghost use Rattle.ttl_tokens.specs.TurtleValues.{is_backslash, is_colon, local_text, prefix_text, string_text, symbol_of, token_of};

use crate::escapes::unescaped;
use crate::kinds::*;
use crate::parts::{front, inside, past};
use crate::token::{Symbol, Token};
use owl_characters::{NoMemory, Text};
use std::alloc::Global;

/// The characters but backslashes.
fn without_backslashes(alloc: Global, chars: &[char]) -> Result<Text, NoMemory>
    ensures { IfOk result (λ text. text ≡ filter (λ c. not (is_backslash c)) chars.now) }
{
    let mut text = Text::with_capacity(alloc, chars.len())?;
    for c in chars {
        if *c != '\\' {
            text.push(*c)?;
        }
    }
    Ok(text)
}

/// Where the first colon stands, if there is one.
fn first_colon(chars: &[char]) -> Option<usize>
    ensures { result ≡ position is_colon chars.now }
{
    chars.iter().position(|c| *c == ':')
}

/// Where the first colon stands, or how many characters there are.
fn colon_of(chars: &[char]) -> usize
    ensures place { result ≡ position_or_len is_colon chars.now }
    ensures within { result ≤ length chars.now }
{
    first_colon(chars).unwrap_or(chars.len())
}

/// The name of a prefix.
fn prefix_text(alloc: Global, spelling: &[char]) -> Result<Text, NoMemory>
    ensures { IfOk result (λ text. text ≡ prefix_text spelling.now) }
{
    Text::of_chars(alloc, front(spelling, colon_of(spelling)))
}

/// A local part without backslashes.
fn local_text(alloc: Global, spelling: &[char]) -> Result<Text, NoMemory>
    ensures { IfOk result (λ text. text ≡ local_text spelling.now) }
{
    without_backslashes(alloc, past(spelling, colon_of(spelling) + 1))
}

/// A string without escapes.
fn string_text(alloc: Global, chars: &[char]) -> Result<Text, NoMemory>
    ensures { IfOk result (λ text. text ≡ string_text chars.now) }
{
    match unescaped(alloc, chars)? {
        Some(text) => Ok(text),
        None => Ok(Text::new(alloc)),
    }
}

/// The word or sign of a kind.
fn symbol_of(kind: u8) -> Option<Symbol>
    ensures { result ≡ symbol_of kind }
{
    match kind {
        A_WORD => Some(Symbol::A),
        TRUE_WORD => Some(Symbol::True),
        FALSE_WORD => Some(Symbol::False),
        PREFIX_WORD => Some(Symbol::Prefix),
        BASE_WORD => Some(Symbol::Base),
        DOT => Some(Symbol::Dot),
        SEMICOLON => Some(Symbol::Semicolon),
        COMMA => Some(Symbol::Comma),
        OPEN_BRACKET => Some(Symbol::OpenBracket),
        CLOSE_BRACKET => Some(Symbol::CloseBracket),
        OPEN_PARENTHESIS => Some(Symbol::OpenParenthesis),
        CLOSE_PARENTHESIS => Some(Symbol::CloseParenthesis),
        CIRCUMFLEXES => Some(Symbol::Carets),
        _ => None,
    }
}

/// The token of a lexeme of this kind, if it stands for one.
pub fn token_of(alloc: Global, kind: u8, spelling: &[char]) -> Result<Option<Token>, NoMemory>
    ensures { IfOk result (λ token. token ≡ token_of kind spelling.now) }
{
    match kind {
        IRIREF => Ok(Some(Token::Iri(unescaped(alloc, inside(spelling, 1))?))),
        PREFIXED_NAME => Ok(Some(Token::Name(
            prefix_text(alloc, spelling)?,
            local_text(alloc, spelling)?,
        ))),
        BLANK_NODE_LABEL => Ok(Some(Token::Label(Text::of_chars(alloc, past(spelling, 2))?))),
        LANGTAG => Ok(Some(Token::At(Text::of_chars(alloc, past(spelling, 1))?))),
        INTEGER => Ok(Some(Token::Integer(Text::of_chars(alloc, spelling)?))),
        DECIMAL => Ok(Some(Token::Decimal(Text::of_chars(alloc, spelling)?))),
        DOUBLE => Ok(Some(Token::Double(Text::of_chars(alloc, spelling)?))),
        STRING_LITERAL_QUOTE | STRING_LITERAL_SINGLE_QUOTE => {
            Ok(Some(Token::Str(string_text(alloc, inside(spelling, 1))?)))
        }
        STRING_LITERAL_LONG_QUOTE | STRING_LITERAL_LONG_SINGLE_QUOTE => {
            Ok(Some(Token::Str(string_text(alloc, inside(spelling, 3))?)))
        }
        _ => Ok(symbol_of(kind).map(Token::Symbol)),
    }
}
