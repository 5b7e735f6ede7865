//! Where bytes go.

ghost use Rattle.std.specs.Prelude.{◌≡◌, IfErr, OnOk};
ghost use Rattle.owl_canon.specs.Sinks.{Stops, Takes};

use crate::fault::WriteFault;
use sha2::{Digest, Sha256};

/// Where bytes go, piece by piece.
#[derive(Drop)]
pub enum Sink {
    /// They are kept, up to so many.
    Kept(Vec<u8>, usize),
    /// They are hashed, which takes no memory.
    Hashed(Sha256),
}

impl Sink {
    /// Takes these bytes.
    pub fn put(&mut self, bytes: &[u8]) -> Result<(), WriteFault>
        ensures taken { OnOk result (Takes self.old bytes.now self.new) }
        ensures stopped { IfErr result (Stops self.old bytes.now) }
    {
        match self {
            Sink::Kept(kept, limit) => {
                if *limit < kept.len().saturating_add(bytes.len()) {
                    return Err(WriteFault::TooLong);
                }
                match kept.extend_from_slice(bytes) {
                    Ok(()) => Ok(()),
                    Err(_full) => Err(WriteFault::Memory),
                }
            }
            Sink::Hashed(hasher) => {
                hasher.update(bytes);
                Ok(())
            }
        }
    }
}
