//! What a row sets at the shelf and at the sinks.

ghost use Rattle.std.specs.Prelude.{◌≡◌, ◌<◌};

use crate::fault::RowFault;
use crate::line::{number_of, set};
use owl_characters::NoMemory;
use owl_port::{MemShelf, MemSink};
use std::alloc::Global;

/// How many bytes the output takes where nothing is set.
const ROOM: u64 = 1_000_000;

/// How many bytes the note takes.
const NOTE_ROOM: usize = 1000;

/// The most bytes that a read gives and that a write of the output takes, the
/// numbers of the read and of the writes that fail, and the room of the output.
/// Where nothing is set, nothing fails.
#[derive(Clone, Copy, Default)]
pub struct Devices {
    piece: Option<u64>,
    fail_read: Option<u64>,
    out_piece: Option<u64>,
    fail_put: Option<u64>,
    room: Option<u64>,
    fail_note: Option<u64>,
}

impl Devices {
    /// Sets what a line names. `UnknownLine` where its word names nothing,
    /// `NoNumber` where no number stands behind it, and `Twice` where it is set.
    pub(crate) fn set(&mut self, word: &str, number: &str) -> Result<(), RowFault> {
        let place = match word {
            "piece" => &mut self.piece,
            "fail-read" => &mut self.fail_read,
            "out-piece" => &mut self.out_piece,
            "fail-put" => &mut self.fail_put,
            "room" => &mut self.room,
            "fail-note" => &mut self.fail_note,
            _ => return Err(RowFault::UnknownLine),
        };
        set(place, number_of(number)?)
    }

    /// The same, but a read gives at most so many bytes.
    pub fn in_pieces(self, most: u64) -> Devices {
        Devices {
            piece: Some(most),
            ..self
        }
    }

    /// Has a shelf give what is said of reads. Its documents stay.
    pub fn set_shelf(self, shelf: &mut MemShelf)
        ensures documents { shelf.new.documents ≡ shelf.old.documents }
        ensures made { shelf.new.made ≡ shelf.old.made }
    {
        shelf.piece(size_of(self.piece));
        shelf.fail_at(call_of(self.fail_read));
    }

    /// A sink for the output, with nothing in it.
    pub fn output(self, alloc: Global) -> Result<MemSink, NoMemory> {
        let mut sink = MemSink::new(alloc, self.room.unwrap_or(ROOM) as usize)?;
        sink.piece(size_of(self.out_piece));
        sink.fail_at(call_of(self.fail_put));
        Ok(sink)
    }

    /// A sink for the note, with nothing in it, which takes a line.
    pub fn note(self, alloc: Global) -> Result<MemSink, NoMemory> {
        let mut sink = MemSink::new(alloc, NOTE_ROOM)?;
        sink.fail_at(call_of(self.fail_note));
        Ok(sink)
    }
}

/// The most bytes of a piece: any number where none is set.
fn size_of(most: Option<u64>) -> usize
    ensures { 0 < result }
{
    most.unwrap_or(u64::MAX).max(1) as usize
}

/// The number of the call that fails. Calls are counted from 1.
fn call_of(number: Option<u64>) -> u64 {
    number.unwrap_or(0)
}
