//! Characters of bytes that come one after another.

ghost use Rattle.std.specs.Prelude.{◌≡◌, ◌⊎◌, ◌+◌, ◌^◌, ◌<◌, [], length, true, false, OnOk, IfErr};
ghost use Rattle.owl_characters.specs.Feeding.{IsUnfinished, Steps};

use crate::utf8_states::{Judged, Partial, judge};
use crate::utf8_step::{BadUtf8, Utf8Step};
use std::marker::Model;

/// Puts characters together from their bytes in UTF-8.
///
/// Contracts see the place of the character that is begun, its bytes, and
/// whether no character begins there.
#[derive(Debug, Drop)]
pub struct Utf8Feed {
    at: u64,
    partial: Partial,
    bad: bool,
}

impl Model for Utf8Feed {
    ghost use Rattle.owl_characters.specs.Feeding.{Feeding, IsBegun, held_of};

    ghost Value = { Feeding };

    ghost view = { λ f. record { at = f.at; held = held_of f.partial; bad = f.bad } };

    ghost invariant = { λ f. IsBegun (held_of f.partial) };
}

impl Utf8Feed {
    /// Was fed nothing.
    pub fn new() -> Utf8Feed
        ensures { result ≡ record { at = 0; held = []; bad = false } }
    {
        Utf8Feed {
            at: 0,
            partial: Partial::Nothing,
            bad: false,
        }
    }

    /// Takes the next byte. Where no character begins, it takes nothing from
    /// then on, and answers the same.
    #[inline(always)]
    pub fn push(&mut self, byte: u8) -> Utf8Step
        requires { self.old.at + length self.old.held < 2 ^ 62 }
        ensures step { self.old.bad ≡ false → Steps self.old byte result self.new }
        ensures stays { self.old.bad ≡ true → (result ≡ Utf8Step.Bad self.old.at) × (self.new ≡ self.old) }
    {
        if self.bad {
            return Utf8Step::Bad { at: self.at };
        }
        if byte < 128 && self.partial == Partial::Nothing {
            let at = self.at;
            self.at += 1;
            let c = char::from(byte);
            return Utf8Step::Char { c, at };
        }
        self.step(byte)
    }

    /// Takes the next byte, whatever is begun.
    #[inline(never)]
    fn step(&mut self, byte: u8) -> Utf8Step
        requires open { self.old.bad ≡ false }
        requires room { self.old.at + length self.old.held < 2 ^ 62 }
        ensures { Steps self.old byte result self.new }
    {
        match judge(self.partial, byte) {
            Judged::Goes(partial) => {
                self.partial = partial;
                Utf8Step::More
            }
            Judged::Whole(c) => {
                let at = self.at;
                self.at += c.len_utf8() as u64;
                self.partial = Partial::Nothing;
                Utf8Step::Char { c, at }
            }
            Judged::Wrong => {
                self.bad = true;
                Utf8Step::Bad { at: self.at }
            }
        }
    }

    /// The place of the character that is begun.
    pub fn place(&self) -> u64
        ensures { result ≡ self.now.at }
    {
        self.at
    }

    /// Whether the bytes are whole characters.
    pub fn finish(&self) -> Result<(), BadUtf8>
        ensures ok { OnOk result ((self.now.held ≡ []) × (self.now.bad ≡ false)) }
        ensures err { IfErr result (λ e. (e.at ≡ self.now.at) × ((self.now.bad ≡ true) ⊎ (IsUnfinished self.now.held × (0 < length self.now.held)))) }
    {
        if self.bad {
            return Err(BadUtf8 { at: self.at });
        }
        match self.partial {
            Partial::Nothing => Ok(()),
            _ => Err(BadUtf8 { at: self.at }),
        }
    }
}
