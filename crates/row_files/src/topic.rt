//! Folders of rows.

use crate::fault::RowFault;
use crate::folder::folders;
use crate::line::is_comment;
use crate::row::{Row, read_row};
use crate::tally::Tally;
use anyhow::Result;
use std::alloc::Global;
use std::rt::Files;
use std::{fs, io};

/// How rows are run.
pub trait Rows {
    /// Runs a row, and tells what is not as expected, a line for each thing.
    fn report(alloc: Global, row: &Row<'_>, report: &mut String) -> Result<(), RowFault>;
}

/// Runs the rows of all folders, prints what is not as expected, and counts
/// them.
pub fn check_topics<R: Print + Files + AllocGlobal + Clone + Drop, T: Rows>(
    rt: &R,
) -> io::Result<Tally> {
    let mut tally = Tally::default();
    for topic in &folders(rt)? {
        check_topic::<R, T>(rt, topic.as_str(), &mut tally)?;
    }
    Ok(tally)
}

/// Runs the rows of a folder. A file of rows that can't be read is a wrong row.
fn check_topic<R: Print + Files + AllocGlobal, T: Rows>(
    rt: &R,
    topic: &str,
    tally: &mut Tally,
) -> io::Result<()> {
    let path = format!(in rt.alloc(); "{topic}/rows")?;
    match fs::read_to_string(rt, path.as_str()) {
        Ok(text) => check_rows::<R, T>(rt, topic, text.as_str(), tally),
        Err(error) => {
            tally.count(false);
            println!(rt; "{path}: {error}")
        }
    }
}

/// Runs rows, each of which begins with its name.
fn check_rows<R: Print + Files + AllocGlobal, T: Rows>(
    rt: &R,
    topic: &str,
    text: &str,
    tally: &mut Tally,
) -> io::Result<()> {
    let mut rows = text.split("\nrow ");
    check_head(rt, topic, rows.next().unwrap_or(""), tally)?;
    for row in rows {
        check_row::<R, T>(rt, topic, row, tally)?;
    }
    Ok(())
}

/// What stands before the first row has to be comments.
fn check_head<R: Print>(rt: &R, topic: &str, head: &str, tally: &mut Tally) -> io::Result<()> {
    if head.split('\n').all(is_comment) {
        return Ok(());
    }
    tally.count(false);
    println!(rt; "{topic}/rows: no comment at its begin")
}

/// Runs a row, and prints what is not as expected.
fn check_row<R: Print + Files + AllocGlobal, T: Rows>(
    rt: &R,
    topic: &str,
    row: &str,
    tally: &mut Tally,
) -> io::Result<()> {
    let (name, lines) = row.split_once('\n').unwrap_or((row, ""));
    match report::<R, T>(rt, topic, lines) {
        Ok(report) => {
            tally.count(report.is_empty());
            print_lines(rt, topic, name, report.as_str())
        }
        Err(error) => {
            tally.count(false);
            println!(rt; "{topic}/{name}: {error:#}")
        }
    }
}

fn print_lines<R: Print>(rt: &R, topic: &str, name: &str, report: &str) -> io::Result<()> {
    for line in report.lines() {
        println!(rt; "{topic}/{name}: {line}")?;
    }
    Ok(())
}

fn report<R: Files + AllocGlobal, T: Rows>(rt: &R, topic: &str, lines: &str) -> Result<String> {
    let row = read_row(rt, topic, lines)?;
    let mut report = String::new(rt.alloc());
    T::report(rt.alloc(), &row, &mut report)?;
    Ok(report)
}
