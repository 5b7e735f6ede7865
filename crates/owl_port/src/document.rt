//! A document on a shelf in memory.

ghost use Rattle.std.specs.Prelude.{◌≡◌, ◌<◌, ◌≤◌, ◌++◌, ◌^◌, ◌↔◌, IsTrue, length, take, min};
ghost use Rattle.std.specs.Str.{encode_utf8_all};
ghost use Rattle.owl_port.specs.Outside.{raised};

use owl_characters::Text;
use std::marker::Model;

/// A document, of which contracts see the name, the bytes that are left, and
/// how often a read failed.
#[derive(Debug, Drop)]
pub struct Document {
    name: Text,
    bytes: Vec<u8>,
    given: usize,
    faults: u64,
}

impl Model for Document {
    ghost use Rattle.std.specs.Prelude.{◌≤◌, drop, length};
    ghost use Rattle.std.specs.Str.{encode_utf8_all};
    ghost use Rattle.owl_port.specs.MemShelf.{Kept};

    ghost Value = { Kept };

    ghost view = { λ d. record {
      name = encode_utf8_all d.name;
      left = drop d.given d.bytes.items;
      faults = d.faults;
    } };

    ghost invariant = { λ d. d.given ≤ length d.bytes.items };
}

impl Document {
    /// A document of which nothing was read.
    pub fn new(name: Text, bytes: Vec<u8>) -> Document
        ensures { result ≡ record { name = encode_utf8_all name; left = bytes.items; faults = 0 } }
    {
        Document {
            name,
            bytes,
            given: 0,
            faults: 0,
        }
    }

    /// Its name.
    pub fn name(&self) -> &str
        ensures { result.now ≡ self.now.name }
    {
        self.name.as_str()
    }

    /// Puts the next bytes at the front of `into`, at most `most` of them.
    pub fn give(&mut self, into: &mut [u8], most: usize) -> usize
        ensures count { result ≡ min (min (length into.old) most) (length self.old.left) }
        ensures bytes { self.old.left ≡ take result into.new ++ self.new.left }
        ensures same { (self.new.name ≡ self.old.name) × (self.new.faults ≡ self.old.faults) }
    {
        let rest = &self.bytes[self.given..];
        let count = into.len().min(most).min(rest.len());
        into[..count].copy_from_slice(&rest[..count]);
        self.given += count;
        count
    }

    /// Counts a read that failed.
    pub fn fail(&mut self)
        ensures grows { self.old.faults ≤ self.new.faults }
        ensures raised { self.new ≡ record self.old { faults = raised self.old.faults } }
    {
        self.faults = self.faults.saturating_add(1);
    }
}
