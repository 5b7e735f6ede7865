//! Language tags.

ghost use Rattle.std.specs.Prelude.{◌≡◌, ◌↔◌, IsTrue, true};
ghost use Rattle.std.specs.Char.{is_ascii_alphabetic, is_ascii_alphanumeric};
ghost use Rattle.std.specs.Str.{chars};
ghost use Rattle.owl_characters.specs.Names.{IsLanguageTag};
ghost use Rattle.rdf_terms.specs.Characters.{is_run_of};

/// Whether the text is a language tag: letters, and then subtags of letters
/// and digits with a hyphen before each (RDF 1.1 Turtle, section 6.5).
pub fn is_language_tag(text: &str) -> bool
    ensures { IsTrue result ↔ IsLanguageTag (chars text.now) }
{
    match text.split_once('-') {
        Some((first, rest)) => is_word(first) && rest.split('-').all(is_subtag),
        None => is_word(text),
    }
}

/// One or more ASCII letters.
fn is_word(text: &str) -> bool
    ensures { result ≡ is_run_of is_ascii_alphabetic text.now }
{
    !text.is_empty() && text.bytes().all(|c| c.is_ascii_alphabetic())
}

/// One or more ASCII letters and digits.
fn is_subtag(text: &str) -> bool
    ensures { result ≡ is_run_of is_ascii_alphanumeric text.now }
{
    !text.is_empty() && text.bytes().all(|c| c.is_ascii_alphanumeric())
}
