//! A word of the command line, as the name of a file.

ghost use Rattle.std.specs.Prelude.{◌≡◌, ◌<◌, ◌≤◌, ◌+◌, None, length, take, string_bytes, IfOk, OnOk, OnErr, IsTrue};
ghost use Rattle.std.specs.Io.{ReadsAtMost};
ghost use Rattle.std.specs.Io.KnownBytes.{ReadConsumes};
ghost use Rattle.owl_port.specs.Outside.{Rose, raised};
ghost use Rattle.owl_cli.specs.Files.{unread};

use owl_port::Failed;
use std::fs::Files;
use std::io::{ErrorKind, Read};
use std::marker::Model;
use std::{fs, io};

/// A name, its file once it is open, and how often a read of it failed.
#[derive(Drop)]
pub struct NamedFile<F: Read + Drop> {
    name: String,
    file: Option<F>,
    faults: u64,
}

impl<F: Read + Drop> Model for NamedFile<F> {
    ghost use Rattle.std.specs.Prelude.{string_bytes, is_some};
    ghost use Rattle.std.specs.Option.{option_and_then};
    ghost use Rattle.owl_cli.specs.Files.{Word};

    ghost Value = { Word };

    ghost view = { λ w. record {
      name = string_bytes w.name;
      faults = w.faults;
      is_open = is_some w.file;
      left = option_and_then F.remaining w.file;
    } };
}

impl<F: Read + Drop> NamedFile<F> {
    /// A name whose file is not open yet.
    pub fn new(name: String) -> NamedFile<F>
        ensures { result ≡ unread (string_bytes name) }
    {
        NamedFile {
            name,
            file: None,
            faults: 0,
        }
    }

    /// The name.
    pub fn name(&self) -> &str
        ensures { result.now ≡ self.now.name }
    {
        self.name.as_str()
    }

    /// Puts the next bytes of the file at the front of `into`, and says how
    /// many; opens the file first where it is not open. A failure to open or
    /// to read is counted.
    pub fn read<R: Files<File = F>>(&mut self, files: &R, into: &mut [u8]) -> Result<usize, Failed>
        ensures name { self.new.name ≡ self.old.name }
        ensures bound { IfOk result (λ n. n ≤ length into.new) }
        ensures opened { OnOk result (IsTrue self.new.is_open) }
        ensures bytes { ReadConsumes self.old.left self.new.left result into.new }
        ensures kept { OnOk result (self.new.faults ≡ self.old.faults) }
        ensures raised { OnErr result (self.new.faults ≡ raised self.old.faults) }
        ensures faults { self.old.faults ≤ self.new.faults }
        ensures cause { OnErr result (Rose self.old.faults self.new.faults) }
    {
        match self.try_read(files, into) {
            Ok(count) => Ok(count),
            Err(_) => {
                self.faults = self.faults.saturating_add(1);
                Err(Failed)
            }
        }
    }

    /// A read whose failure is not counted.
    fn try_read<R: Files<File = F>>(&mut self, files: &R, into: &mut [u8]) -> io::Result<usize>
        ensures name { self.new.name ≡ self.old.name }
        ensures faults { self.new.faults ≡ self.old.faults }
        ensures bound { IfOk result (λ n. n ≤ length into.new) }
        ensures opened { OnOk result (IsTrue self.new.is_open) }
        ensures bytes { ReadConsumes self.old.left self.new.left result into.new }
    {
        let mut file = match self.file.take() {
            Some(file) => file,
            None => fs::open(files, self.name.as_str())?,
        };
        let answer = read_retrying(&mut file, into);
        self.file = Some(file);
        answer
    }
}

/// A read, once more where a signal cut it short.
fn read_retrying<F: Read>(file: &mut F, into: &mut [u8]) -> io::Result<usize>
    ensures bound { ReadsAtMost result into.new }
    ensures bytes { ReadConsumes (F.remaining file.old) (F.remaining file.new) result into.new }
{
    for _ in 0..u64::MAX {
        match file.read(into) {
            Err(error) if error.kind() == ErrorKind::Interrupted => {}
            answer => return answer,
        }
    }
    Err(io::Error::from(ErrorKind::Interrupted))
}
