//! The names of documents among the words.

ghost use Rattle.std.specs.Prelude.{◌≡◌, ◌↔◌, map, string_bytes, IsTrue, IfOk};
ghost use Rattle.std.specs.List.{AllByRecursion};
ghost use Rattle.std.specs.Str.{encode_utf8_all};
ghost use Rattle.owl_command.specs.Commands.{AreDistinct, AreNames, EndsIn, HasSuffix, IsAmong, IsName};

use owl_characters::{NoMemory, Text};
use std::alloc::{AllocError, Global};

/// The most documents that words name.
const MOST_NAMES: usize = 64;

/// Whether a word ends in the suffix of a syntax, behind at least one character.
fn has_suffix(word: &str) -> bool
    ensures { IsTrue result ↔ HasSuffix word.now }
{
    ends_in(word, ".ofn") || ends_in(word, ".ttl") || ends_in(word, ".omn") || ends_in(word, ".owc")
}

/// Whether a word is a document's name: it ends in the suffix of a syntax, and
/// doesn't begin with `-`.
fn is_name(word: &str) -> bool
    ensures { IsTrue result ↔ IsName word.now }
{
    has_suffix(word) && !word.starts_with('-')
}

/// Whether a word ends in the suffix, behind at least one character.
fn ends_in(word: &str, suffix: &str) -> bool
    ensures { IsTrue result ↔ EndsIn suffix.now word.now }
{
    word.ends_with(suffix) && suffix.len() < word.len()
}

/// Whether the word is this one.
pub fn is_word(word: &str, wanted: &str) -> bool
    ensures { IsTrue result ↔ (word.now ≡ wanted.now) }
{
    word == wanted
}

/// Whether the name is one of these words.
fn is_among(words: &[String], name: &str) -> bool
    ensures { IsTrue result ↔ IsAmong (map string_bytes words.now) name.now }
{
    match words {
        [] => false,
        [first, others @ ..] => is_word(name, first.as_str()) || is_among(others, name),
    }
}

/// Whether each of the words is a name, and none stands twice.
fn are_distinct_names(words: &[String]) -> bool
    ensures { IsTrue result ↔ (AllByRecursion IsName (map string_bytes words.now) × AreDistinct (map string_bytes words.now)) }
{
    match words {
        [] => true,
        [first, others @ ..] => {
            let name = first.as_str();
            is_name(name) && !is_among(others, name) && are_distinct_names(others)
        }
    }
}

/// Whether the words name documents, from 1 to 64 of them, each once.
pub fn are_names(words: &[String]) -> bool
    ensures { IsTrue result ↔ AreNames (map string_bytes words.now) }
{
    !words.is_empty() && words.len() <= MOST_NAMES && are_distinct_names(words)
}

/// The same words, as texts.
pub fn texts_of(alloc: Global, words: &[String]) -> Result<Vec<Text>, NoMemory>
    ensures { IfOk result (λ texts. map encode_utf8_all texts.items ≡ map string_bytes words.now) }
{
    let mut texts = Vec::with_capacity(alloc, words.len())?;
    'words: for word in words {
        texts
            .push(Text::of(alloc, word.as_str())?)
            .map_err(AllocError::from)?;
    }
    Ok(texts)
}
