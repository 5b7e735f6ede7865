//! Tests of the characters of a text.

ghost use Rattle.std.specs.Prelude.{◌≡◌, ◌↔◌, IsTrue, true};
ghost use Rattle.std.specs.Str.{chars};
ghost use Rattle.owl_characters.specs.Iri.{AllAre, is_iri_character, is_scheme_character};
ghost use Rattle.owl_characters.specs.Names.{is_inner};

use owl_characters::is_part;

/// Whether an IRI may have each character of the text behind its scheme.
pub fn are_iri_characters(text: &str) -> bool
    ensures { IsTrue result ↔ AllAre is_iri_character (chars text.now) }
{
    text.chars().all(is_iri_character)
}

/// Whether a scheme may have each character of the text behind its first one.
pub fn are_scheme_characters(text: &str) -> bool
    ensures { IsTrue result ↔ AllAre is_scheme_character (chars text.now) }
{
    text.chars().all(is_scheme_character)
}

fn is_iri_character(c: char) -> bool
    ensures { result ≡ is_iri_character c }
{
    ' ' < c && !matches!(c, '<' | '>' | '"' | '{' | '}' | '|' | '^' | '`' | '\\')
}

fn is_scheme_character(c: char) -> bool
    ensures { result ≡ is_scheme_character c }
{
    c.is_ascii_alphabetic() || c.is_ascii_digit() || matches!(c, '+' | '-' | '.')
}

/// Whether each character of the text may stand behind the first one of a name.
pub fn are_inner(text: &str) -> bool
    ensures { IsTrue result ↔ AllAre is_inner (chars text.now) }
{
    text.chars().all(is_inner)
}

fn is_inner(c: char) -> bool
    ensures { result ≡ is_inner c }
{
    is_part(c) || c == '.'
}
