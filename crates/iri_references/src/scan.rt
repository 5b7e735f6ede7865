//! Tests of the characters of a reference.

ghost use Rattle.std.specs.Prelude.{◌≡◌, ◌↔◌, ◌==◌, IsTrue};
ghost use Rattle.std.specs.Str.{chars};
ghost use Rattle.std.specs.Char.{is_ascii_alphabetic};
ghost use Rattle.std.specs.List.{list_all};
ghost use Rattle.owl_characters.specs.Iri.{AllAre, is_iri_character, is_scheme_character};
ghost use Rattle.owl_characters.specs.Names.{begins_with};
ghost use Rattle.iri_references.specs.References.{has_scheme, is_empty, is_scheme, slash};

/// Whether the text has no characters.
pub fn is_empty(text: &str) -> bool
    ensures { result ≡ is_empty (chars text.now) }
{
    text.is_empty()
}

/// Whether the text begins with a slash.
pub fn begins_with_slash(text: &str) -> bool
    ensures { result ≡ begins_with (λ c. c == slash) (chars text.now) }
{
    text.starts_with('/')
}

/// Whether an IRI may have each character of the text behind its scheme.
pub fn are_iri_characters(text: &str) -> bool
    ensures { IsTrue result ↔ AllAre is_iri_character (chars text.now) }
{
    text.chars().all(is_iri_character)
}

fn is_iri_character(c: char) -> bool
    ensures { result ≡ is_iri_character c }
{
    ' ' < c && !matches!(c, '<' | '>' | '"' | '{' | '}' | '|' | '^' | '`' | '\\')
}

/// Whether the text begins with a scheme and a colon.
pub fn has_scheme(text: &str) -> bool
    ensures { result ≡ has_scheme (chars text.now) }
{
    match text.split_once(':') {
        Some((scheme, _)) => is_scheme(scheme),
        None => false,
    }
}

/// Whether the text is a letter, and then letters, digits, `+`, `-` and `.`.
fn is_scheme(text: &str) -> bool
    ensures { result ≡ is_scheme (chars text.now) }
{
    begins_with_letter(text) && are_scheme_characters(text)
}

fn begins_with_letter(text: &str) -> bool
    ensures { result ≡ begins_with is_ascii_alphabetic (chars text.now) }
{
    match text.chars().next() {
        Some(c) => c.is_ascii_alphabetic(),
        None => false,
    }
}

fn are_scheme_characters(text: &str) -> bool
    ensures { result ≡ list_all is_scheme_character (chars text.now) }
{
    text.chars().all(is_scheme_character)
}

fn is_scheme_character(c: char) -> bool
    ensures { result ≡ is_scheme_character c }
{
    c.is_ascii_alphabetic() || c.is_ascii_digit() || matches!(c, '+' | '-' | '.')
}
