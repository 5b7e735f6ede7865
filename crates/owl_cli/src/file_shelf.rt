//! A shelf of the files that a command line names.

ghost use Rattle.std.specs.Prelude.{◌≡◌, ◌<◌, ◌≤◌, None, length, map, position, string_bytes, IfOk, OnOk, OnErr, IsErr};
ghost use Rattle.std.specs.Io.KnownBytes.{ReadConsumes};
ghost use Rattle.std.specs.Str.{bytes_eq};
ghost use Rattle.owl_port.specs.Outside.{Rose, SameElsewhere, raised};
ghost use Rattle.owl_cli.specs.Files.{unread, word_in, faults_of, left_of, IsOpen};

use crate::named_file::NamedFile;
use owl_characters::NoMemory;
use owl_port::{Failed, Shelf};
use std::alloc::Global;
use std::fs::Files;
use std::io::Read;
use std::marker::Model;

/// The files that words name, with a count of faults for each word.
///
/// Contracts see it as the list of its words, each with its count and with what
/// its file tells. Names are compared by their bytes, and of equal words the
/// first is used.
#[derive(Drop)]
pub struct FileShelf<R: Files + Drop> {
    files: R,
    words: Vec<NamedFile<R::File>>,
}

impl<R: Files + Drop> Model for FileShelf<R> {
    ghost use Rattle.std.specs.Prelude.{List};
    ghost use Rattle.owl_cli.specs.Files.{Word};

    ghost Value = { List Word };

    ghost view = { λ s. s.words.items };
}

impl<R: Files + Drop> FileShelf<R> {
    /// A shelf over the words, with no file open and no fault. `NoMemory` where
    /// memory runs out.
    pub fn new(alloc: Global, files: R, words: &[String]) -> Result<FileShelf<R>, NoMemory>
        ensures { IfOk result (λ s. s ≡ map (λ w. unread (string_bytes w)) words.now) }
    {
        let mut named = Vec::new(alloc);
        for word in words {
            let Ok(name) = String::from_str(alloc, word.as_str()) else {
                return Err(NoMemory);
            };
            if named.push(NamedFile::new(name)).is_err() {
                return Err(NoMemory);
            }
        }
        Ok(FileShelf {
            files,
            words: named,
        })
    }
}

impl<R: Files + Drop> Shelf for FileShelf<R> {
    ghost use Rattle.std.specs.Prelude.{None, false};
    ghost use Rattle.owl_cli.specs.Files.{faults_of};

    ghost tells = { λ _. false };

    ghost left = { λ _ _. None };

    ghost faults = { faults_of };

    /// A read of the file with this name, which the first read of it opens.
    ///
    /// It fails where the file can't be opened or read, and where the name is
    /// none of the words. A later read tries again.
    fn read(&mut self, name: &str, into: &mut [u8]) -> Result<usize, Failed>
        requires { 0 < length into.old }
        ensures bound { IfOk result (λ n. n ≤ length into.new) }
        ensures unknown { word_in self.old name.now ≡ None → IsErr result }

        // The file is open, and the bytes are its next ones, as far as it tells them.
        ensures opened { OnOk result (IsOpen self.new name.now) }
        ensures bytes { ReadConsumes (left_of self.old name.now) (left_of self.new name.now) result into.new }

        // A failure raises the count of the name by one, and a success no count.
        ensures raised { OnErr result (faults_of self.new name.now ≡ raised (faults_of self.old name.now)) }
        ensures kept { OnOk result (faults_of self.new name.now ≡ faults_of self.old name.now) }
        ensures counts { SameElsewhere name.now (faults_of self.old) (faults_of self.new) }
        ensures faults { faults_of self.old name.now ≤ faults_of self.new name.now }
        ensures cause { OnErr result (Rose (faults_of self.old name.now) (faults_of self.new name.now)) }

        // The words stay, and all of the other names.
        ensures words { map (λ w. w.name) self.new ≡ map (λ w. w.name) self.old }
        ensures others { SameElsewhere name.now (word_in self.old) (word_in self.new) }
    {
        match place_of(&self.words, name) {
            None => Err(Failed),
            Some(place) => self.words[place].read(&self.files, into),
        }
    }
}

/// The place of the first word with this name.
fn place_of<F: Read + Drop>(words: &[NamedFile<F>], name: &str) -> Option<usize>
    ensures { result ≡ position (λ w. bytes_eq w.name name.now) words.now }
{
    words.iter().position(|word| word.name() == name)
}
