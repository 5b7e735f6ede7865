//! The tokens that lexemes stand for.

ghost use Rattle.std.specs.Prelude.{◌≡◌, ◌≤◌, ◌==◌, length, take, drop, unwrap_or, Some, IfOk};
ghost use Rattle.std.specs.List.{position};
ghost use Rattle.owl_tokens.specs.declared.token.Token.TheVariants.{Name};
ghost use Rattle.owl_tokens.specs.Values.{between_ends, local_in, prefix_in, prefix_length, sign_of, unescaped, value_of};

use crate::kinds;
use crate::token::{Sign, Token};
use owl_characters::{NoMemory, Text};
use std::alloc::Global;

/// The first characters, so many.
fn front(chars: &[char], count: usize) -> &[char]
    ensures { result.now ≡ take count chars.now }
{
    if count < chars.len() {
        &chars[..count]
    } else {
        chars
    }
}

/// What stands behind the first characters, so many.
fn behind(chars: &[char], count: usize) -> &[char]
    ensures { result.now ≡ drop count chars.now }
{
    if count < chars.len() {
        &chars[count..]
    } else {
        &[]
    }
}

/// What stands between the first character and the last.
fn between_ends(chars: &[char]) -> &[char]
    ensures { result.now ≡ between_ends chars.now }
{
    front(behind(chars, 1), chars.len().saturating_sub(2))
}

/// The place of the first colon, if there is one.
fn colon_in(chars: &[char]) -> Option<usize>
    ensures { result ≡ position (λ c. c == 0x3A) chars.now }
{
    chars.iter().position(|c| *c == ':')
}

/// How many characters stand in front of the first colon.
fn prefix_length(chars: &[char]) -> usize
    ensures { result ≡ prefix_length chars.now }
{
    colon_in(chars).unwrap_or(chars.len())
}

/// The text of these characters, without the backslashes in front of others.
#[tactic(auto, unfolding(crate::specs::Values::unescaped))]
fn unescaped(alloc: Global, chars: &[char]) -> Result<Text, NoMemory>
    ensures { IfOk result (λ text. text ≡ unescaped chars.now) }
{
    let mut text = Text::with_capacity(alloc, chars.len())?;
    let mut escaped = false;
    for c in chars {
        if *c == '\\' && !escaped {
            escaped = true;
        } else {
            text.push(*c)?;
            escaped = false;
        }
    }
    Ok(text)
}

/// The punctuation mark of a kind, if the kind is one of a mark.
#[tactic(auto, unfolding(crate::specs::Values::sign_of))]
fn sign_of(kind: u8) -> Option<Sign>
    ensures { result ≡ sign_of kind }
{
    match kind {
        kinds::OPEN => Some(Sign::Open),
        kinds::CLOSE => Some(Sign::Close),
        kinds::EQUALS => Some(Sign::Equals),
        kinds::CARETS => Some(Sign::Carets),
        kinds::OPEN_BRACE => Some(Sign::OpenBrace),
        kinds::CLOSE_BRACE => Some(Sign::CloseBrace),
        kinds::OPEN_BRACKET => Some(Sign::OpenBracket),
        kinds::CLOSE_BRACKET => Some(Sign::CloseBracket),
        kinds::COMMA => Some(Sign::Comma),
        kinds::LESS => Some(Sign::Less),
        kinds::AT_MOST => Some(Sign::AtMost),
        kinds::GREATER => Some(Sign::Greater),
        kinds::AT_LEAST => Some(Sign::AtLeast),
        _ => None,
    }
}

/// The token of an abbreviated IRI.
fn name(alloc: Global, spelling: &[char]) -> Result<Token, NoMemory>
    ensures { IfOk result (λ token. token ≡ Name (prefix_in spelling.now) (unescaped (local_in spelling.now))) }
{
    let count = prefix_length(spelling);
    let prefix = Text::of_chars(alloc, front(spelling, count))?;
    let local = unescaped(alloc, behind(behind(spelling, count), 1))?;
    Ok(Token::Name(prefix, local))
}

/// The token that a lexeme of this kind stands for. White space and comments
/// stand for none.
#[inline(always)]
#[tactic(auto, unfolding(crate::specs::Values::value_of))]
pub fn value(alloc: Global, kind: u8, spelling: &[char]) -> Result<Option<Token>, NoMemory>
    ensures { IfOk result (λ token. token ≡ value_of kind spelling.now) }
{
    if kinds::IRI <= kind && kind <= kinds::DEC {
        return text_token(alloc, kind, spelling);
    }
    match sign_of(kind) {
        Some(sign) => Ok(Some(Token::Sign(sign))),
        None => Ok(None),
    }
}

/// The token that a lexeme of this kind stands for, if it has a text.
#[inline(never)]
#[tactic(auto, unfolding(crate::specs::Values::value_of))]
fn text_token(alloc: Global, kind: u8, spelling: &[char]) -> Result<Option<Token>, NoMemory>
    requires { (3 ≤ kind) × (kind ≤ 10) }
    ensures { IfOk result (λ token. token ≡ value_of kind spelling.now) }
{
    match kind {
        kinds::IRI => Ok(Some(Token::Iri(Text::of_chars(alloc, between_ends(spelling))?))),
        kinds::NAME => Ok(Some(name(alloc, spelling)?)),
        kinds::BLANK => Ok(Some(Token::Blank(Text::of_chars(alloc, behind(spelling, 2))?))),
        kinds::STR => Ok(Some(Token::Str(unescaped(alloc, between_ends(spelling))?))),
        kinds::AT => Ok(Some(Token::At(Text::of_chars(alloc, behind(spelling, 1))?))),
        kinds::WORD => Ok(Some(Token::Word(Text::of_chars(alloc, spelling)?))),
        kinds::INT => Ok(Some(Token::Int(Text::of_chars(alloc, spelling)?))),
        _ => Ok(Some(Token::Dec(Text::of_chars(alloc, spelling)?))),
    }
}
