//! What a program asks of the outside.

ghost use Rattle.std.specs.Prelude.{◌≡◌, ◌<◌, ◌≤◌, ◌++◌, ℕ, List, [], Option, Bool, length, take, IsTrue, IfOk, OnErr, IsErr};
ghost use Rattle.owl_port.specs.Outside.{Rose, SameElsewhere, before};

use thiserror::Error;

/// The outside did not do what was asked.
#[derive(Clone, Copy, Debug, PartialEq, Eq, Error)]
#[error("the device failed")]
pub struct Failed;

/// Documents under names, each read from its front on.
///
/// Contracts see whether a shelf tells what it holds, the bytes that are left
/// under each name where it tells, and for each name a count of faults. A name
/// is seen as its bytes.
pub trait Shelf {
    ghost tells: { Self → Bool };

    ghost left: { Self → List ℕ → Option (List ℕ) };

    ghost faults: { Self → List ℕ → ℕ };

    /// Puts the next bytes of the name at the front of `into`, and says how
    /// many: none only at the end of the name.
    fn read(&mut self, name: &str, into: &mut [u8]) -> Result<usize, Failed>
        requires { 0 < length into.old }
        ensures bound { IfOk result (λ n. n ≤ length into.new) }
        ensures told { tells self.new ≡ tells self.old }

        // The map, where the shelf tells it.
        ensures bytes { IsTrue (tells self.old) →
            IfOk result (λ n. left self.old name.now ≡ before (take n into.new) (left self.new name.now)) }
        ensures end { IsTrue (tells self.old) → IfOk result (λ n. n ≡ 0 → left self.old name.now ≡ Some []) }
        ensures lacks { IsTrue (tells self.old) → left self.old name.now ≡ None → IsErr result }
        ensures failed { IsTrue (tells self.old) → OnErr result (left self.new name.now ≡ left self.old name.now) }
        ensures others { IsTrue (tells self.old) → SameElsewhere name.now (left self.old) (left self.new) }

        // The counts of faults, also where it does not tell.
        ensures cause { OnErr result (Rose (faults self.old name.now) (faults self.new name.now)) }
        ensures faults { faults self.old name.now ≤ faults self.new name.now }
        ensures counts { SameElsewhere name.now (faults self.old) (faults self.new) };
}

/// A place that bytes are put to, one after another.
///
/// Contracts see whether a sink tells what was put, the bytes so far where it
/// tells, and a count of faults.
pub trait Sink {
    ghost tells: { Self → Bool };

    ghost written: { Self → List ℕ };

    ghost faults: { Self → ℕ };

    /// Appends the front of the piece, at least one byte of it, and says how
    /// many bytes.
    fn put(&mut self, piece: &[u8]) -> Result<usize, Failed>
        requires { 0 < length piece.now }
        ensures some { IfOk result (λ n. 0 < n) }
        ensures bound { IfOk result (λ n. n ≤ length piece.now) }
        ensures told { tells self.new ≡ tells self.old }
        ensures bytes { IsTrue (tells self.old) →
            IfOk result (λ n. written self.new ≡ written self.old ++ take n piece.now) }
        ensures failed { IsTrue (tells self.old) → OnErr result (written self.new ≡ written self.old) }
        ensures cause { OnErr result (Rose (faults self.old) (faults self.new)) }
        ensures faults { faults self.old ≤ faults self.new };
}
