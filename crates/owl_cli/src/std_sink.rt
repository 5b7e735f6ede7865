//! A sink over a writer.

ghost use Rattle.std.specs.Prelude.{◌≡◌, ◌<◌, ◌≤◌, length, IfOk, OnOk, OnErr};
ghost use Rattle.std.specs.Io.KnownBytes.{WriteAppends};
ghost use Rattle.owl_port.specs.Outside.{Rose, raised};
ghost use Rattle.owl_cli.specs.Stream.{fresh};

use owl_port::{Failed, Sink};
use std::io::{self, ErrorKind, Write};
use std::marker::Model;

/// A writer, such as standard output, with a count of faults.
///
/// Contracts see the count, and the bytes that the writer holds, where it tells
/// them.
#[derive(Drop)]
pub struct StdSink<W: Write + Drop> {
    writer: W,
    faults: u64,
}

impl<W: Write + Drop> Model for StdSink<W> {
    ghost use Rattle.owl_cli.specs.Stream.{Stream};

    ghost Value = { Stream };

    ghost view = { λ s. record { faults = s.faults; contents = W.contents s.writer } };
}

impl<W: Write + Drop> StdSink<W> {
    /// A sink over the writer, with no fault.
    pub fn new(writer: W) -> StdSink<W>
        ensures { result ≡ fresh (W.contents writer) }
    {
        StdSink { writer, faults: 0 }
    }
}

impl<W: Write + Drop> Sink for StdSink<W> {
    ghost use Rattle.std.specs.Prelude.{false, []};

    ghost tells = { λ _. false };

    ghost written = { λ _. [] };

    ghost faults = { λ s. s.faults };

    /// One write of the piece. A write that fails, or that takes nothing, is
    /// counted; one that a signal cut short is done once more.
    fn put(&mut self, piece: &[u8]) -> Result<usize, Failed>
        requires { 0 < length piece.now }
        ensures some { IfOk result (λ n. 0 < n) }
        ensures bound { IfOk result (λ n. n ≤ length piece.now) }
        ensures bytes { WriteAppends self.old.contents self.new.contents result piece.now }

        // A failure raises the count by one, and a success leaves it.
        ensures raised { OnErr result (self.new.faults ≡ raised self.old.faults) }
        ensures kept { OnOk result (self.new.faults ≡ self.old.faults) }
        ensures faults { self.old.faults ≤ self.new.faults }
        ensures cause { OnErr result (Rose self.old.faults self.new.faults) }
    {
        match write_retrying(&mut self.writer, piece) {
            Ok(count) if count > 0 => Ok(count),
            _ => {
                self.faults = self.faults.saturating_add(1);
                Err(Failed)
            }
        }
    }
}

/// A write, once more where a signal cut it short.
fn write_retrying<W: Write>(writer: &mut W, piece: &[u8]) -> io::Result<usize>
    ensures bound { IfOk result (λ n. n ≤ length piece.now) }
    ensures bytes { WriteAppends (W.contents writer.old) (W.contents writer.new) result piece.now }
{
    for _ in 0..u64::MAX {
        match writer.write(piece) {
            Err(error) if error.kind() == ErrorKind::Interrupted => {}
            answer => return answer,
        }
    }
    Err(io::Error::from(ErrorKind::Interrupted))
}
