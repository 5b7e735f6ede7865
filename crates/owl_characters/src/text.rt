//! Owned texts.

ghost use Rattle.std.specs.Prelude.{◌≡◌, ◌++◌, ◌∷◌, [], true, ◌↔◌, IsTrue, IfOk, OnOk, OnErr};
ghost use Rattle.std.specs.Ordering.{as_partial_cmp};
ghost use Rattle.std.specs.Cmp.{partial_order_from_own_ties};
ghost use Rattle.std.specs.Cmp.Rules.{comparing, hashing};
ghost use Rattle.std.specs.Hash as fed;
ghost use Rattle.std.specs.Str.{chars, encode_utf8_all, all_scalars};
ghost use Rattle.std.proofs.Common.{ap, rules};
ghost use Rattle.owl_characters.specs.Order.{text_cmp, text_eq};
ghost use Rattle.owl_characters.specs.OrderLaws.{equal_bytes, equal_ties};

use std::alloc::{AllocError, Global};
use std::cmp::Ordering;
use std::hash::{Hash, Hasher};
use std::marker::Model;
use thiserror::Error;

/// Want of memory, where it is the only refusal.
#[derive(Clone, Copy, Debug, PartialEq, Eq, Error)]
#[error("out of memory")]
pub struct NoMemory;

impl From<AllocError> for NoMemory {
    ghost from_gives = { λ _ _. Unit {0} };

    fn from(_e: AllocError) -> NoMemory {
        NoMemory
    }
}

/// An owned text in UTF-8, which contracts see as the list of its characters.
///
/// Texts are equal where they have the same characters, and they are ordered
/// by their bytes.
#[derive(Debug, Drop)]
pub struct Text {
    string: String,
}

impl Model for Text {
    ghost use Rattle.std.specs.Prelude.{List, ℕ, string_bytes};
    ghost use Rattle.std.specs.Str.{chars};

    ghost Value = { List ℕ };

    ghost view = { λ t. chars (string_bytes t.string) };
}

impl Text {
    /// The text with no characters. Takes no memory.
    pub fn new(alloc: Global) -> Text
        ensures { result ≡ [] }
    {
        Text {
            string: String::new(alloc),
        }
    }

    /// The same characters.
    pub fn of(alloc: Global, text: &str) -> Result<Text, NoMemory>
        ensures { IfOk result (λ t. t ≡ chars text.now) }
    {
        let string = String::from_str(alloc, text)?;
        Ok(Text { string })
    }

    /// The text with no characters, with room for so many bytes. Takes no memory
    /// for none.
    pub fn with_capacity(alloc: Global, bytes: usize) -> Result<Text, NoMemory>
        ensures { IfOk result (λ text. text ≡ []) }
    {
        let string = String::with_capacity(alloc, bytes)?;
        Ok(Text { string })
    }

    /// The text of these characters.
    pub fn of_chars(alloc: Global, chars: &[char]) -> Result<Text, NoMemory>
        ensures { IfOk result (λ text. text ≡ chars.now) }
    {
        let mut text = Text::with_capacity(alloc, chars.len())?;
        for c in chars {
            text.push(*c)?;
        }
        Ok(text)
    }

    /// The same characters. Takes no memory.
    pub fn as_str(&self) -> &str
        ensures chars { chars result.now ≡ self.now }
        ensures bytes { result.now ≡ encode_utf8_all self.now }
        ensures scalars { all_scalars self.now ≡ true }
    {
        self.string.as_str()
    }

    /// Whether the text is this word.
    pub fn is(&self, word: &str) -> bool
        ensures { IsTrue result ↔ (self.now ≡ chars word.now) }
    {
        self.as_str() == word
    }

    /// Puts a character at the end.
    pub fn push(&mut self, c: char) -> Result<(), AllocError>
        ensures ok { OnOk result (self.new ≡ self.old ++ c ∷ []) }
        ensures err { OnErr result (self.new ≡ self.old) }
    {
        self.string.push(c)
    }

    /// Puts characters at the end. At want of memory the text stays as it was.
    pub fn push_str(&mut self, more: &str) -> Result<(), NoMemory>
        ensures ok { OnOk result (self.new ≡ self.old ++ chars more.now) }
        ensures err { OnErr result (self.new ≡ self.old) }
    {
        self.string.push_str(more)?;
        Ok(())
    }
}

impl PartialEq for Text {
    ghost eq = { text_eq };

    ghost laws = { Prim.search (comparing, rules) };

    fn eq(&self, other: &Text) -> bool {
        self.as_str() == other.as_str()
    }
}

impl Eq for Text {
    ghost laws = { Prim.search (comparing, rules) };
}

impl PartialOrd for Text {
    ghost partial_cmp = { as_partial_cmp text_cmp };

    ghost laws = { partial_order_from_own_ties (Prim.search (comparing, rules)) equal_ties };

    fn partial_cmp(&self, other: &Text) -> Option<Ordering> {
        Some(self.cmp(other))
    }
}

impl Ord for Text {
    ghost cmp = { text_cmp };

    ghost total = { Prim.search (comparing, rules) };

    ghost matches_partial_cmp = { Prim.search (comparing, rules) };

    ghost matches_eq = { equal_ties };

    fn cmp(&self, other: &Text) -> Ordering {
        self.as_str().cmp(other.as_str())
    }
}

impl Hash for Text {
    ghost hash_input = { λ t. fed.str (encode_utf8_all t) };

    ghost respects_eq = { λ a b h. ap fed.str (equal_bytes a b h) };

    fn hash<H: Hasher>(&self, state: &mut H) {
        self.as_str().hash(state);
    }
}
