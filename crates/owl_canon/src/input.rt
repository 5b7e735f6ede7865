//! What is read of bytes: numbers and texts.

ghost use Rattle.std.specs.Prelude.{◌≡◌, ◌++◌, ◌∷◌, ◌<◌, ◌^◌, ◌≤◌, ℕ, List, IfSome, IsNone, Option, codes, length};
ghost use Rattle.std.specs.Option.{option_map};
ghost use Rattle.std.specs.Str.{chars};
ghost use Rattle.owl_canon.specs.Bytes.{number_bytes, optional_bytes, text_bytes};
ghost use Rattle.owl_canon.specs.Inputs.{Finds};
ghost use Rattle.owl_canon.specs.Limits.{IsText};

use crate::fault::CanonFault;

/// Bytes that are to be read.
#[derive(Drop)]
pub struct Input<'a> {
    rest: &'a [u8],
}

impl<'a> Input<'a> {
    /// All of these bytes.
    pub fn new(bytes: &'a [u8]) -> Input<'a>
        ensures { result.rest.now ≡ bytes.now }
    {
        Input { rest: bytes }
    }

    /// The seven bytes that canonical bytes begin with.
    pub fn begin(&mut self) -> Result<(), CanonFault>
        ensures { (more : List ℕ) → self.old.rest.now ≡ codes "OWL2C1\n" ++ more →
            Finds result (λ done. self.new.rest.now ≡ more) }
    {
        let bytes = self.take(7)?;
        if bytes == b"OWL2C1\n".as_slice() {
            Ok(())
        } else {
            Err(CanonFault::NotCanon)
        }
    }

    /// So many bytes, where there are as many left.
    fn take(&mut self, count: usize) -> Result<&'a [u8], CanonFault>
        ensures { (front more : List ℕ) → length front ≡ count → self.old.rest.now ≡ front ++ more →
            Finds result (λ bytes. (bytes.now ≡ front) × (self.new.rest.now ≡ more)) }
    {
        if self.rest.len() < count {
            return Err(CanonFault::NotCanon);
        }
        let (front, rest) = self.rest.split_at(count);
        self.rest = rest;
        Ok(front)
    }

    /// A byte.
    pub fn byte(&mut self) -> Result<u8, CanonFault>
        ensures { (byte : ℕ) (more : List ℕ) → self.old.rest.now ≡ byte ∷ more →
            Finds result (λ found. (found ≡ byte) × (self.new.rest.now ≡ more)) }
    {
        match self.rest.split_first() {
            Some((byte, rest)) => {
                self.rest = rest;
                Ok(*byte)
            }
            None => Err(CanonFault::NotCanon),
        }
    }

    /// A number.
    pub fn number(&mut self) -> Result<u64, CanonFault>
        ensures { (number : ℕ) (more : List ℕ) → number < 2 ^ 64 →
            self.old.rest.now ≡ number_bytes number ++ more →
            Finds result (λ found. (found ≡ number) × (self.new.rest.now ≡ more)) }
    {
        let bytes = self.take(8)?;
        if bytes.len() != 8 {
            return Err(CanonFault::NotCanon);
        }
        Ok(u64::from_be_bytes([
            bytes[0], bytes[1], bytes[2], bytes[3], bytes[4], bytes[5], bytes[6], bytes[7],
        ]))
    }

    /// A text. Takes no memory.
    pub fn text(&mut self) -> Result<&'a str, CanonFault>
        ensures { (text more : List ℕ) → IsText text →
            self.old.rest.now ≡ text_bytes text ++ more →
            Finds result (λ found. (chars found.now ≡ text) × (self.new.rest.now ≡ more)) }
    {
        let count = self.number()?;
        let bytes = self.take(count as usize)?;
        match std::str::from_utf8(bytes) {
            Ok(text) => Ok(text),
            Err(_) => Err(CanonFault::NotCanon),
        }
    }

    /// A text, or none. Takes no memory.
    pub fn optional(&mut self) -> Result<Option<&'a str>, CanonFault>
        ensures { (text : Option (List ℕ)) (more : List ℕ) → IfSome text IsText →
            self.old.rest.now ≡ optional_bytes text ++ more →
            Finds result (λ found. (option_map (λ text. chars text.now) found ≡ text) × (self.new.rest.now ≡ more)) }
    {
        match self.byte()? {
            0 => Ok(None),
            1 => Ok(Some(self.text()?)),
            _ => Err(CanonFault::NotCanon),
        }
    }
}
