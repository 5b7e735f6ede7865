//! The tokens of a document.

ghost use Rattle.std.specs.Prelude.{◌+◌, ◌^◌, ◌<◌, length};

use crate::described::Described;
use crate::fault::RowFault;
use owl_lexer::{LexFault, Lexer, Placed};
use owl_text::Dialect;
use std::alloc::{AllocError, Global};
use std::fmt::Write;
use ttl_tokens::Turtle;

/// The most bytes of a document whose tokens are told.
const MOST_BYTES: usize = 1_000_000;

/// Whose tokens of a document are told.
#[derive(Clone, Copy, Debug, PartialEq, Eq)]
pub enum Language {
    Functional,
    Manchester,
    Turtle,
}

/// The language of this name. `UnknownLine` where there is none.
pub fn language_of(name: &str) -> Result<Language, RowFault> {
    match name {
        "functional" => Ok(Language::Functional),
        "manchester" => Ok(Language::Manchester),
        "turtle" => Ok(Language::Turtle),
        _ => Err(RowFault::UnknownLine),
    }
}

/// The tokens of bytes that come in two pieces, the first one of `cut` bytes: a
/// line for each, and behind them a line for how they end. Where the bytes are
/// not whole, more may follow, and an end without a refusal has no line.
///
/// `TooLong` where there are more than a million bytes, or fewer than `cut`, and
/// else `Memory` alone.
pub fn tokens_of(
    alloc: Global,
    language: Language,
    bytes: &[u8],
    cut: usize,
    is_whole: bool,
) -> Result<String, RowFault> {
    if bytes.len() > MOST_BYTES || cut > bytes.len() {
        return Err(RowFault::TooLong);
    }
    let (first, second) = bytes.split_at(cut);
    match language {
        Language::Functional => of_dialect(alloc, Dialect::Functional, first, second, is_whole),
        Language::Manchester => of_dialect(alloc, Dialect::Manchester, first, second, is_whole),
        Language::Turtle => of_turtle(alloc, first, second, is_whole),
    }
}

fn of_dialect(
    alloc: Global,
    dialect: Dialect,
    first: &[u8],
    second: &[u8],
    is_whole: bool,
) -> Result<String, RowFault>
    requires { length first.now + length second.now < 2 ^ 62 }
{
    let mut tokens = Vec::new(alloc);
    let ended = take_dialect(alloc, dialect, first, second, is_whole, &mut tokens);
    text_of(alloc, &tokens, ended, is_whole)
}

fn of_turtle(alloc: Global, first: &[u8], second: &[u8], is_whole: bool) -> Result<String, RowFault>
    requires { length first.now + length second.now < 2 ^ 62 }
{
    let mut tokens = Vec::new(alloc);
    let ended = take_turtle(alloc, first, second, is_whole, &mut tokens);
    text_of(alloc, &tokens, ended, is_whole)
}

fn take_dialect(
    alloc: Global,
    dialect: Dialect,
    first: &[u8],
    second: &[u8],
    is_whole: bool,
    into: &mut Vec<Placed<owl_text::Token>>,
) -> Result<(), LexFault>
    requires { length first.now + length second.now < 2 ^ 62 }
{
    let mut lexer = owl_text::Lexer::new(alloc, dialect);
    lexer.feed(first, into)?;
    lexer.feed(second, into)?;
    if is_whole {
        return lexer.finish(into);
    }
    Ok(())
}

fn take_turtle(
    alloc: Global,
    first: &[u8],
    second: &[u8],
    is_whole: bool,
    into: &mut Vec<Placed<ttl_tokens::Token>>,
) -> Result<(), LexFault>
    requires { length first.now + length second.now < 2 ^ 62 }
{
    let mut lexer = Lexer::<Turtle>::new(alloc);
    lexer.feed(first, into)?;
    lexer.feed(second, into)?;
    if is_whole {
        return lexer.finish(into);
    }
    Ok(())
}

fn text_of<T: Described>(
    alloc: Global,
    tokens: &[Placed<T>],
    ended: Result<(), LexFault>,
    is_whole: bool,
) -> Result<String, RowFault> {
    let mut text = String::new(alloc);
    append_tokens(tokens, &mut text)?;
    append_ending(ended, is_whole, &mut text)?;
    Ok(text)
}

fn append_tokens<T: Described>(tokens: &[Placed<T>], text: &mut String) -> Result<(), AllocError> {
    for placed in tokens {
        append_token(placed, text)?;
    }
    Ok(())
}

fn append_token<T: Described>(placed: &Placed<T>, text: &mut String) -> Result<(), AllocError> {
    write!(text, "{} ", placed.at)?;
    placed.token.append_to(text)?;
    text.push('\n')
}

fn append_ending(
    ended: Result<(), LexFault>,
    is_whole: bool,
    text: &mut String,
) -> Result<(), AllocError> {
    match ended {
        Ok(()) if is_whole => writeln!(text, "the end"),
        Ok(()) => Ok(()),
        Err(fault) => writeln!(text, "{fault}"),
    }
}
