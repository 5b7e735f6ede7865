//! What is not as expected of a row.

use crate::answer::answer_to;
use row_files::{Document, Row, RowFault, Rows, compare_texts};
use std::alloc::Global;

/// The most bytes of a document that is cut.
const MOST_CUT: usize = 200;

/// Rows of Turtle documents.
pub struct TurtleRows;

impl Rows for TurtleRows {
    fn report(alloc: Global, row: &Row<'_>, report: &mut String) -> Result<(), RowFault> {
        let document = row.documents.first().ok_or(RowFault::NoDocument)?;
        if document.bytes.len() > MOST_CUT {
            return report_cut(alloc, row, document, 0, report);
        }
        report_cuts(alloc, row, document, report)
    }
}

/// The document in each cut in two pieces, up to the first that is not as
/// expected.
fn report_cuts(
    alloc: Global,
    row: &Row<'_>,
    document: &Document<'_>,
    report: &mut String,
) -> Result<(), RowFault> {
    for cut in 0..=document.bytes.len() {
        if report.is_empty() {
            report_cut(alloc, row, document, cut, report)?;
        }
    }
    Ok(())
}

fn report_cut(
    alloc: Global,
    row: &Row<'_>,
    document: &Document<'_>,
    cut: usize,
    report: &mut String,
) -> Result<(), RowFault> {
    let Some((first, second)) = document.bytes.split_at_checked(cut) else {
        return Ok(());
    };
    let answer = answer_to(alloc, first, second)?;
    compare_texts("output", answer.output.as_bytes(), &row.output, report)?;
    compare_texts("note", answer.note.as_bytes(), &row.note, report)?;
    Ok(())
}
