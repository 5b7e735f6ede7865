//! Parts of the texts in a row.

use crate::fault::RowFault;
use crate::line::number_of;
use std::alloc::AllocError;

/// A part of a text.
#[derive(Clone, Copy)]
pub enum Part<'a> {
    /// These characters.
    Text(&'a str),
    /// These characters, and a line feed.
    Line(&'a str),
    /// These characters, so many times.
    Repeated(u64, &'a str),
}

/// The part that a line says by itself, and `None` where its word begins none.
pub fn part_of<'a>(word: &str, rest: &'a str) -> Result<Option<Part<'a>>, RowFault> {
    match word {
        "=" => Ok(Some(Part::Text(rest))),
        "|" => Ok(Some(Part::Line(rest))),
        "*" => repeated(rest),
        _ => Ok(None),
    }
}

/// The part that stands so many times, written `COUNT TEXT`.
fn repeated(text: &str) -> Result<Option<Part<'_>>, RowFault> {
    let (count, text) = text.split_once(' ').ok_or(RowFault::NoNumber)?;
    Ok(Some(Part::Repeated(number_of(count)?, text)))
}

/// Appends a part to a text.
pub fn append_part(bytes: &mut Vec<u8>, part: Part<'_>) -> Result<(), AllocError> {
    match part {
        Part::Text(text) => append(bytes, text),
        Part::Line(text) => append_line(bytes, text),
        Part::Repeated(count, text) => append_repeated(bytes, count, text),
    }
}

fn append(bytes: &mut Vec<u8>, text: &str) -> Result<(), AllocError> {
    bytes.extend_from_slice(text.as_bytes())
}

/// Appends a text and a line feed.
pub fn append_line(bytes: &mut Vec<u8>, text: &str) -> Result<(), AllocError> {
    append(bytes, text)?;
    append(bytes, "\n")
}

fn append_repeated(bytes: &mut Vec<u8>, count: u64, text: &str) -> Result<(), AllocError> {
    for _ in 0..count {
        append(bytes, text)?;
    }
    Ok(())
}
