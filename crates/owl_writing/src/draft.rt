//! A text that is being made, within the limit of an output.

ghost use Rattle.std.specs.Prelude.{◌≡◌, ◌↔◌, ◌+◌, ◌≤◌, ◌++◌, ◌∷◌, [], length, IsTrue, IsErrOf, OnErr, OnOk};
ghost use Rattle.std.specs.List.{list_all};
ghost use Rattle.std.specs.Str.{chars, encode_utf8_all};
ghost use Rattle.owl_characters.specs.Iri.{is_ascii};
ghost use Rattle.owl_characters.specs.Utf8.{size};
ghost use Rattle.owl_characters.specs.Limit.{most_bytes};
ghost use Rattle.owl_writing.specs.Limits.{IsTooLong};
ghost use Rattle.owl_writing.specs.declared.fault.WriteFault.{WriteFault};

use crate::fault::WriteFault;
use owl_characters::{MOST_BYTES, Text};
use std::alloc::Global;
use std::marker::Model;

/// The front of a text, of at most 2^27 bytes. Contracts see its characters.
///
/// Each call answers `TooLong` only where the text would pass the limit with what was to be added, and `Memory` where memory
/// runs out. What is refused by `add`, `add_ascii` or `push` leaves the text as it was; where what adds several parts is refused, some
/// of them may stand behind the text that was there.
#[derive(Debug, Drop)]
pub struct Draft {
    alloc: Global,
    text: Text,
}

impl Model for Draft {
    ghost use Rattle.std.specs.Prelude.{List, ℕ, ◌≤◌};
    ghost use Rattle.owl_characters.specs.Utf8.{size as byte_size};
    ghost use Rattle.owl_characters.specs.Limit.{most_bytes};

    ghost Value = { List ℕ };

    ghost view = { λ d. d.text };

    ghost invariant = { λ d. byte_size d.text ≤ most_bytes };
}

impl Draft {
    /// The empty text. Takes no memory.
    pub fn new(alloc: Global) -> Draft
        ensures { result ≡ [] }
    {
        Draft {
            alloc,
            text: Text::new(alloc),
        }
    }

    /// The allocator of the text.
    pub fn allocator(&self) -> Global {
        self.alloc
    }

    /// Whether so many bytes more are within the limit.
    #[tactic(auto, using(owl_characters::proofs::Utf8Laws::size_is))]
    fn has_room(&self, bytes: usize) -> bool
        ensures { IsTrue result ↔ (size self.now + bytes ≤ most_bytes) }
    {
        bytes as u64 <= MOST_BYTES - self.text.as_str().len() as u64
    }

    /// Adds these characters.
    #[tactic(auto, using(owl_characters::proofs::Utf8Laws::size_append, crate::proofs::Sizes::size_chars))]
    pub fn add(&mut self, part: &str) -> Result<(), WriteFault>
        ensures ok { OnOk result (self.new ≡ self.old ++ chars part.now) }
        ensures too_long { IsErrOf result WriteFault.TooLong → IsTooLong (self.old ++ chars part.now) }
        ensures limit { IsTooLong (self.old ++ chars part.now) → IsErrOf result WriteFault.TooLong }
        ensures err { OnErr result (self.new ≡ self.old) }
    {
        if !self.has_room(part.len()) {
            return Err(WriteFault::TooLong);
        }
        self.text.push_str(part)?;
        Ok(())
    }

    /// Adds these ASCII characters.
    pub fn add_ascii(&mut self, part: &str) -> Result<(), WriteFault>
        requires { IsTrue (list_all is_ascii part.now) }
        ensures ok { OnOk result (self.new ≡ self.old ++ part.now) }
        ensures too_long { IsErrOf result WriteFault.TooLong → IsTooLong (self.old ++ part.now) }
        ensures limit { IsTooLong (self.old ++ part.now) → IsErrOf result WriteFault.TooLong }
        ensures err { OnErr result (self.new ≡ self.old) }
    {
        self.add(part)
    }

    /// Adds a character.
    #[tactic(auto, using(owl_characters::proofs::Utf8Laws::size_append))]
    pub fn push(&mut self, c: char) -> Result<(), WriteFault>
        ensures ok { OnOk result (self.new ≡ self.old ++ c ∷ []) }
        ensures too_long { IsErrOf result WriteFault.TooLong → IsTooLong (self.old ++ c ∷ []) }
        ensures limit { IsTooLong (self.old ++ c ∷ []) → IsErrOf result WriteFault.TooLong }
        ensures err { OnErr result (self.new ≡ self.old) }
    {
        if !self.has_room(c.len_utf8()) {
            return Err(WriteFault::TooLong);
        }
        self.text.push(c)?;
        Ok(())
    }

    /// The text.
    #[tactic(auto, using(owl_characters::proofs::Utf8Laws::size_is))]
    pub fn into_text(self) -> Text
        ensures text { result ≡ self }
        ensures within { length (encode_utf8_all result) ≤ most_bytes }
    {
        let Draft { alloc: _, text } = self;
        text
    }
}
