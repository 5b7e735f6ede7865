//! A sink in memory.

ghost use Rattle.std.specs.Prelude.{◌≡◌, ◌<◌, ◌≤◌, ◌++◌, ◌+◌, ◌↔◌, ◌⊎◌, [], None, Some, length, take, min, IfOk, OnOk, OnErr, IsErr};
ghost use Rattle.owl_port.specs.Outside.{Rose, raised};

use crate::outside::{Failed, Sink};
use crate::turn::Turns;
use owl_characters::NoMemory;
use std::alloc::Global;
use std::marker::Model;

/// Bytes in memory, which takes pieces of a chosen size, and fails at a chosen
/// put and where its room is used up.
#[derive(Debug, Drop)]
pub struct MemSink {
    bytes: Vec<u8>,
    room: usize,
    most: usize,
    turns: Turns,
    faults: u64,
}

impl Model for MemSink {
    ghost use Rattle.std.specs.Prelude.{◌<◌, ◌≤◌, length, vec_capacity};
    ghost use Rattle.owl_port.specs.MemSink.{Sunk};

    ghost Value = { Sunk };

    ghost view = { λ s. record {
      written = s.bytes.items;
      room = s.room;
      most = s.most;
      made = s.turns.made;
      failing = s.turns.failing;
      faults = s.faults;
    } };

    ghost invariant = { λ s. (0 < s.most) × (length s.bytes.items ≤ s.room) × (s.room ≤ vec_capacity s.bytes) };
}

impl MemSink {
    /// A sink with no bytes and room for so many, which takes whole pieces. All
    /// its memory is taken here.
    pub fn new(alloc: Global, room: usize) -> Result<MemSink, NoMemory>
        ensures { IfOk result (λ s. s ≡ record {
          written = [];
          room = room;
          most = usize.MAX;
          made = 0;
          failing = None;
          faults = 0;
        }) }
    {
        match Vec::with_capacity(alloc, room) {
            Ok(bytes) => Ok(MemSink {
                bytes,
                room,
                most: usize::MAX,
                turns: Turns::new(),
                faults: 0,
            }),
            Err(_) => Err(NoMemory),
        }
    }

    /// Each later put takes at most so many bytes.
    pub fn piece(&mut self, most: usize)
        requires { 0 < most }
        ensures { self.new ≡ record self.old { most = most } }
    {
        self.most = most;
    }

    /// The put with this number fails, counted from 1 since the sink was made,
    /// and no other one that was chosen before. Puts after number 2^64 - 1 have
    /// no number.
    pub fn fail_at(&mut self, call: u64)
        ensures { self.new ≡ record self.old { failing = Some call } }
    {
        self.turns.failing = Some(call);
    }

    /// The bytes so far.
    pub fn bytes(&self) -> &[u8]
        ensures { result.now ≡ self.now.written }
    {
        self.bytes.as_slice()
    }
}

impl Sink for MemSink {
    ghost use Rattle.std.specs.Prelude.{true};

    ghost tells = { λ _. true };

    ghost written = { λ s. s.written };

    ghost faults = { λ s. s.faults };

    fn put(&mut self, piece: &[u8]) -> Result<usize, Failed>
        requires { 0 < length piece.now }

        // It fails at the chosen put, and where there is no room for what it would append.
        ensures fails { IsErr result ↔ ((self.old.failing ≡ Some (self.old.made + 1))
            ⊎ (self.old.room < length self.old.written + min (length piece.now) self.old.most)) }

        // It appends the piece, as far as it takes so much.
        ensures count { IfOk result (λ n. n ≡ min (length piece.now) self.old.most) }
        ensures some { IfOk result (λ n. 0 < n) }
        ensures bound { IfOk result (λ n. n ≤ length piece.now) }
        ensures bytes { IfOk result (λ n. self.new.written ≡ self.old.written ++ take n piece.now) }

        // A failed put is counted, and appends nothing.
        ensures failed { OnErr result (self.new.written ≡ self.old.written) }
        ensures raised { OnErr result (self.new.faults ≡ raised self.old.faults) }
        ensures kept { OnOk result (self.new.faults ≡ self.old.faults) }
        ensures faults { self.old.faults ≤ self.new.faults }
        ensures cause { OnErr result (Rose self.old.faults self.new.faults) }

        // The number of the next put, and the settings.
        ensures made { self.new.made ≡ raised self.old.made }
        ensures settings { (self.new.room ≡ self.old.room) × (self.new.most ≡ self.old.most)
            × (self.new.failing ≡ self.old.failing) }
    {
        let fails = self.turns.next();
        let count = piece.len().min(self.most);
        if fails || self.room - self.bytes.len() < count {
            self.faults = self.faults.saturating_add(1);
            return Err(Failed);
        }
        self.bytes.extend_from_slice(&piece[..count]).unwrap();
        Ok(count)
    }
}
