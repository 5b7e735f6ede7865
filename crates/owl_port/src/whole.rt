//! Whole documents out of a shelf, and whole texts into a sink.

ghost use Rattle.std.specs.Prelude.{◌≡◌, ◌<◌, ◌≤◌, ◌+◌, ◌^◌, ◌++◌, ℕ, List, [], Some, length, take, vec_len, IsTrue, IfOk, OnOk, OnErr, IsOk, Err};
ghost use Rattle.owl_port.specs.Outside.{Rose, SameElsewhere, before};

use crate::outside::{Failed, Shelf, Sink};
use std::alloc::{AllocError, Global};
use thiserror::Error;

/// Why a document was not read.
#[derive(Clone, Copy, Debug, PartialEq, Eq, Error)]
pub enum ReadFault {
    /// The shelf failed, or has no such name.
    #[error("the shelf failed")]
    Failed,
    /// There are more bytes than the limit allows.
    #[error("the document is longer than its limit")]
    TooLong,
    /// Want of memory.
    #[error("out of memory")]
    Memory,
}

impl From<Failed> for ReadFault {
    ghost use Rattle.std.specs.Prelude.{◌≡◌};
    ghost use Rattle.owl_port.specs.declared.whole.ReadFault.TheVariants.{Failed as Fault};

    ghost from_gives = { λ _ e. e ≡ Fault };

    fn from(_failed: Failed) -> ReadFault {
        ReadFault::Failed
    }
}

impl From<AllocError> for ReadFault {
    ghost use Rattle.std.specs.Prelude.{◌≡◌};
    ghost use Rattle.owl_port.specs.declared.whole.ReadFault.TheVariants.{Memory};

    ghost from_gives = { λ _ e. e ≡ Memory };

    fn from(_error: AllocError) -> ReadFault {
        ReadFault::Memory
    }
}

/// The most bytes that are asked of a shelf at once.
const PIECE: usize = 4096;

/// All bytes that are left under the name, at most `limit` of them.
///
/// `Failed` where a read failed; `TooLong` where more than `limit` bytes are
/// there, once `limit + 1` of them were taken; `Memory`. Bytes that were taken
/// are gone from the shelf, after a refusal too.
pub fn read_all<S: Shelf>(
    alloc: Global,
    shelf: &mut S,
    name: &str,
    limit: u64,
) -> Result<Vec<u8>, ReadFault>
    requires { limit ≤ 2 ^ 28 }
    ensures told { S.tells shelf.new ≡ S.tells shelf.old }

    // What comes out, and what is left under the name.
    ensures whole { IsTrue (S.tells shelf.old) →
        IfOk result (λ bytes. S.left shelf.old name.now ≡ Some bytes.items) }
    ensures emptied { IsTrue (S.tells shelf.old) → OnOk result (S.left shelf.new name.now ≡ Some []) }
    ensures within { IfOk result (λ bytes. vec_len bytes ≤ limit) }
    ensures too_long { IsTrue (S.tells shelf.old) → result ≡ Err ReadFault.TooLong →
        (taken rest : List ℕ) × (S.left shelf.old name.now ≡ Some (taken ++ rest))
        × (S.left shelf.new name.now ≡ Some rest) × (length taken ≡ limit + 1) }
    ensures taken { IsTrue (S.tells shelf.old) →
        (taken : List ℕ) × (length taken ≤ limit + 1)
        × (S.left shelf.old name.now ≡ before taken (S.left shelf.new name.now)) }

    // The counts of faults, and every other name.
    ensures failed { result ≡ Err ReadFault.Failed →
        Rose (S.faults shelf.old name.now) (S.faults shelf.new name.now) }
    ensures faults { S.faults shelf.old name.now ≤ S.faults shelf.new name.now }
    ensures others { IsTrue (S.tells shelf.old) → SameElsewhere name.now (S.left shelf.old) (S.left shelf.new) }
    ensures counts { SameElsewhere name.now (S.faults shelf.old) (S.faults shelf.new) }
{
    let most = limit as usize + 1;
    let mut all = Vec::new(alloc);
    let mut buffer = [0u8; PIECE];
    while all.len() < most {
        let room = (most - all.len()).min(PIECE);
        // Before the read, so that no byte is taken and then lost for want of memory.
        all.reserve(room)?;
        let count = shelf.read(name, &mut buffer[..room])?;
        if count == 0 {
            return Ok(all);
        }
        all.extend_from_slice(&buffer[..count]).unwrap();
    }
    Err(ReadFault::TooLong)
}

/// Puts all the bytes, one piece after another; where there are none, it puts
/// nothing. After `Failed` a front of them was put. Takes no memory.
pub fn put_all<S: Sink>(sink: &mut S, bytes: &[u8]) -> Result<(), Failed>
    ensures told { S.tells sink.new ≡ S.tells sink.old }
    ensures whole { IsTrue (S.tells sink.old) →
        OnOk result (S.written sink.new ≡ S.written sink.old ++ bytes.now) }
    ensures front { IsTrue (S.tells sink.old) →
        OnErr result ((n : ℕ) × (n < length bytes.now)
        × (S.written sink.new ≡ S.written sink.old ++ take n bytes.now)) }
    ensures failed { OnErr result (Rose (S.faults sink.old) (S.faults sink.new)) }
    ensures faults { S.faults sink.old ≤ S.faults sink.new }
    ensures none { bytes.now ≡ [] → IsOk result × (sink.new ≡ sink.old) }
{
    let mut put = 0;
    while put < bytes.len() {
        put += sink.put(&bytes[put..])?;
    }
    Ok(())
}
