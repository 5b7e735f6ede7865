//! Rows, and how they are read.

use crate::devices::Devices;
use crate::fault::RowFault;
use crate::line::{is_comment, number_of, set, word_of};
use crate::part::{append_line, append_part, part_of};
use crate::token::{Language, language_of};
use anyhow::{Context, Result};
use std::alloc::Global;
use std::fs;
use std::rt::Files;

/// A document on the shelf, with all its bytes.
#[derive(Drop)]
pub struct Document<'a> {
    pub name: &'a str,
    pub bytes: Vec<u8>,
}

/// What the program is run on, and what has to come of it.
#[derive(Drop)]
pub struct Row<'a> {
    /// The words of the command line, with white space between them.
    pub words: Option<&'a str>,
    pub documents: Vec<Document<'a>>,
    /// Whose tokens of the document are told, in place of a run.
    pub tokens: Option<Language>,
    /// Whether the end of the document is not told.
    pub is_open: bool,
    pub devices: Devices,
    /// Whether it is run once for each of some sizes of pieces.
    pub cuts: bool,
    pub status: Option<u64>,
    /// What is written, if anything is.
    pub output: Option<Vec<u8>>,
    /// What is noted, if anything is.
    pub note: Option<Vec<u8>>,
}

/// The row of these lines, with files of this folder. The error names the line
/// that can't be read and says why, for whoever wrote it.
pub fn read_row<'a, R: Files + AllocGlobal>(
    rt: &R,
    folder: &str,
    lines: &'a str,
) -> Result<Row<'a>> {
    let mut row = Row::new(rt.alloc());
    row.take_all(rt, folder, lines)?;
    Ok(row)
}

impl<'a> Row<'a> {
    /// A row that says nothing yet.
    fn new(alloc: Global) -> Row<'a> {
        Row {
            words: None,
            documents: Vec::new(alloc),
            tokens: None,
            is_open: false,
            devices: Devices::default(),
            cuts: false,
            status: None,
            output: None,
            note: None,
        }
    }

    fn take_all<R: Files + AllocGlobal>(
        &mut self,
        rt: &R,
        folder: &str,
        lines: &'a str,
    ) -> Result<()> {
        for line in lines.split('\n') {
            self.take(rt, folder, line)
                .context(format_args!("{line:?}"))?;
        }
        Ok(())
    }

    fn take<R: Files + AllocGlobal>(&mut self, rt: &R, folder: &str, line: &'a str) -> Result<()> {
        let (word, rest) = word_of(line);
        if word == "<" {
            return self.append_file(rt, folder, rest);
        }
        Ok(self.say(rt.alloc(), line)?)
    }

    fn append_file<R: Files + AllocGlobal>(
        &mut self,
        rt: &R,
        folder: &str,
        name: &str,
    ) -> Result<()> {
        let bytes = self.text()?;
        let content = content_of(rt, folder, name)?;
        bytes.extend_from_slice(&content)?;
        Ok(())
    }

    /// Takes a line that names no file.
    fn say(&mut self, alloc: Global, line: &'a str) -> Result<(), RowFault> {
        if is_comment(line) {
            return Ok(());
        }
        let (word, rest) = word_of(line);
        match part_of(word, rest)? {
            Some(part) => Ok(append_part(self.text()?, part)?),
            None => self.set(alloc, word, rest),
        }
    }

    /// Takes a line that is no part of a text.
    fn set(&mut self, alloc: Global, word: &str, rest: &'a str) -> Result<(), RowFault> {
        match word {
            "words" => set(&mut self.words, rest),
            "tokens" => set(&mut self.tokens, language_of(rest)?),
            "document" => self.begin_document(alloc, rest),
            "output" => set(&mut self.output, Vec::new(alloc)),
            "status" => set(&mut self.status, number_of(rest)?),
            "line" => self.set_note(alloc, rest),
            "cuts" => {
                self.cuts = true;
                Ok(())
            }
            "open" => {
                self.is_open = true;
                Ok(())
            }
            _ => self.devices.set(word, rest),
        }
    }

    fn begin_document(&mut self, alloc: Global, name: &'a str) -> Result<(), RowFault> {
        if self.output.is_some() {
            return Err(RowFault::Late);
        }
        self.documents.push(Document {
            name,
            bytes: Vec::new(alloc),
        })?;
        Ok(())
    }

    fn set_note(&mut self, alloc: Global, line: &str) -> Result<(), RowFault> {
        let mut note = Vec::new(alloc);
        append_line(&mut note, line)?;
        set(&mut self.note, note)
    }

    /// The text that parts go to: the output, or the last document where the
    /// output is not begun.
    fn text(&mut self) -> Result<&mut Vec<u8>, RowFault> {
        if let Some(output) = &mut self.output {
            Ok(output)
        } else if let Some(document) = self.documents.last_mut() {
            Ok(&mut document.bytes)
        } else {
            Err(RowFault::NoText)
        }
    }
}

/// All bytes of a file of a folder. An error names its path.
fn content_of<R: Files + AllocGlobal>(rt: &R, folder: &str, name: &str) -> Result<Vec<u8>> {
    let path = format!(in rt.alloc(); "{folder}/{name}")?;
    fs::read(rt, path.as_str()).context(format_args!("{path}"))
}
