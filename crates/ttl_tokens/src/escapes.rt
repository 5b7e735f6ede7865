//! Escape sequences (RDF 1.1 Turtle, section 6.4).

ghost use Rattle.std.specs.Prelude.{◌≡◌, ◌<◌, ◌≤◌, length, IfOk};
ghost use Rattle.ttl_tokens.specs.Escapes.{escape_length, escaped, first_character, hex_number, hex_value, length_behind, string_escape, unescaped};

use crate::parts::{front, past};
use owl_characters::{NoMemory, Text};
use std::alloc::Global;

/// The value of a hexadecimal digit, and 0 of another character.
fn hex_value(c: char) -> u32
    ensures value { result ≡ hex_value c }
    ensures small { result < 16 }
{
    c.to_digit(16).unwrap_or(0)
}

/// The number that hexadecimal digits write.
fn hex_number(digits: &[char]) -> u32
    requires { length digits.now ≤ 8 }
    ensures { result ≡ hex_number digits.now }
{
    let mut number = 0;
    for digit in digits {
        number = number * 16 + hex_value(*digit);
    }
    number
}

/// The character that stands behind a backslash for another, or for itself.
fn string_escape(c: char) -> char
    ensures { result ≡ string_escape c }
{
    match c {
        't' => '\t',
        'b' => '\u{8}',
        'n' => '\n',
        'r' => '\r',
        'f' => '\u{C}',
        _ => c,
    }
}

/// The character for which an escape stands, by what is behind its backslash.
fn escaped(behind: &[char]) -> Option<char>
    ensures { result ≡ escaped behind.now }
{
    let (first, digits) = behind.split_first()?;
    match *first {
        'u' => char::from_u32(hex_number(front(digits, 4))),
        'U' => char::from_u32(hex_number(front(digits, 8))),
        c => Some(string_escape(c)),
    }
}

/// How many characters of an escape are behind its backslash.
fn escape_length(behind: &[char]) -> usize
    ensures { result ≡ escape_length behind.now }
{
    match behind {
        [] => 0,
        ['u', ..] => 5,
        ['U', ..] => 9,
        _ => 1,
    }
}

/// The character for which the first one stands, alone or as the backslash of
/// an escape.
fn first_character(first: char, behind: &[char]) -> Option<char>
    ensures { result ≡ first_character first behind.now }
{
    if first == '\\' {
        escaped(behind)
    } else {
        Some(first)
    }
}

/// How many characters behind it belong to it.
fn length_behind(first: char, behind: &[char]) -> usize
    ensures { result ≡ length_behind first behind.now }
{
    if first == '\\' {
        escape_length(behind)
    } else {
        0
    }
}

/// The characters, with those for which escapes stand in their place, or
/// nothing where an escape stands for none.
pub fn unescaped(alloc: Global, chars: &[char]) -> Result<Option<Text>, NoMemory>
    ensures { IfOk result (λ text. text ≡ unescaped chars.now) }
{
    let mut text = Text::new(alloc);
    let mut rest = chars;
    while let Some((first, behind)) = rest.split_first() {
        let Some(c) = first_character(*first, behind) else {
            return Ok(None);
        };
        text.push(c)?;
        rest = past(behind, length_behind(*first, behind));
    }
    Ok(Some(text))
}
