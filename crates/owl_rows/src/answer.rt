//! Runs the program over a row.

use owl_characters::{NoMemory, Text};
use owl_port::{MemShelf, MemSink, Shelf, Sink};
use row_files::{Devices, Document, Row, RowFault};
use std::alloc::{AllocError, Global};

/// What came of a run: the exit status, and what was written and noted.
#[derive(Drop)]
pub struct Answer {
    pub status: u64,
    pub output: MemSink,
    pub note: MemSink,
}

/// What comes of a row at these devices.
pub fn answer_to(alloc: Global, row: &Row<'_>, devices: Devices) -> Result<Answer, RowFault> {
    let words = row.words.ok_or(RowFault::NoWords)?;
    let mut shelf = MemShelf::new(alloc);
    fill(alloc, &row.documents, &mut shelf)?;
    devices.set_shelf(&mut shelf);
    answer_over(alloc, words, &mut shelf, devices)
}

/// Puts documents on a shelf.
fn fill(alloc: Global, documents: &[Document<'_>], shelf: &mut MemShelf) -> Result<(), RowFault> {
    for document in documents {
        add(alloc, document, shelf)?;
    }
    Ok(())
}

fn add(alloc: Global, document: &Document<'_>, shelf: &mut MemShelf) -> Result<(), RowFault> {
    let name = Text::of(alloc, document.name)?;
    shelf.add(name, Vec::from_slice(alloc, &document.bytes)?)?;
    Ok(())
}

fn split(alloc: Global, line: &str) -> Result<Vec<String>, AllocError> {
    let mut words = Vec::new(alloc);
    for word in line.split_whitespace() {
        words.push(String::from_str(alloc, word)?)?;
    }
    Ok(words)
}

fn answer_over(
    alloc: Global,
    words: &str,
    shelf: &mut MemShelf,
    devices: Devices,
) -> Result<Answer, RowFault> {
    let words = split(alloc, words)?;
    let mut answer = Answer::new(alloc, devices)?;
    answer.run(alloc, &words, shelf);
    Ok(answer)
}

impl Answer {
    /// Nothing written yet.
    fn new(alloc: Global, devices: Devices) -> Result<Answer, NoMemory> {
        Ok(Answer {
            status: 0,
            output: devices.output(alloc)?,
            note: devices.note(alloc)?,
        })
    }

    fn run(&mut self, alloc: Global, words: &[String], shelf: &mut MemShelf) {
        self.status = status_of(alloc, words, shelf, &mut self.output, &mut self.note);
    }
}

/// The exit status of a run. Over any shelf and sinks, since what is known of a
/// run is much where they are known.
fn status_of<S: Shelf, O: Sink, N: Sink>(
    alloc: Global,
    words: &[String],
    shelf: &mut S,
    output: &mut O,
    note: &mut N,
) -> u64 {
    u64::from(owl_top::run(alloc, words, shelf, output, note).number())
}
