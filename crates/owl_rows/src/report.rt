//! What is not as expected of a row.

use crate::answer::{Answer, answer_to};
use row_files::{Devices, Language, Row, RowFault, Rows, compare_texts, tokens_of};
use std::alloc::{AllocError, Global};
use std::fmt::Write;

/// The largest size of the pieces that a row with cuts is run in.
const LARGEST_PIECE: u64 = 16;

/// The rows of the program.
pub struct OwlRows;

impl Rows for OwlRows {
    fn report(alloc: Global, row: &Row<'_>, report: &mut String) -> Result<(), RowFault> {
        match row.tokens {
            Some(language) => report_tokens(alloc, row, language, report),
            None if row.cuts => report_pieces(alloc, row, report),
            None => report_run(alloc, row, row.devices, report),
        }
    }
}

/// A run for each size of pieces.
fn report_pieces(alloc: Global, row: &Row<'_>, report: &mut String) -> Result<(), RowFault> {
    for size in 1..=LARGEST_PIECE {
        report_run(alloc, row, row.devices.in_pieces(size), report)?;
    }
    Ok(())
}

fn report_run(
    alloc: Global,
    row: &Row<'_>,
    devices: Devices,
    report: &mut String,
) -> Result<(), RowFault> {
    compare(&answer_to(alloc, row, devices)?, row, report)
}

/// The tokens in each cut of the document in two pieces.
fn report_tokens(
    alloc: Global,
    row: &Row<'_>,
    language: Language,
    report: &mut String,
) -> Result<(), RowFault> {
    let document = row.documents.first().ok_or(RowFault::NoDocument)?;
    for cut in 0..=document.bytes.len() {
        let text = tokens_of(alloc, language, &document.bytes, cut, !row.is_open)?;
        compare_texts("output", text.as_bytes(), &row.output, report)?;
    }
    Ok(())
}

fn compare(answer: &Answer, row: &Row<'_>, report: &mut String) -> Result<(), RowFault> {
    compare_status(answer.status, row.status.ok_or(RowFault::NoStatus)?, report)?;
    compare_texts("output", answer.output.bytes(), &row.output, report)?;
    compare_texts("note", answer.note.bytes(), &row.note, report)?;
    Ok(())
}

fn compare_status(came: u64, wanted: u64, report: &mut String) -> Result<(), AllocError> {
    if came == wanted {
        return Ok(());
    }
    writeln!(report, "the status is {came}, and not {wanted}")
}
