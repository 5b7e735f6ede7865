//! Runs the program over rows that stand in files, and tells which of them are not as expected.
//!
//! Each folder beside the program is a topic, and its file `rows` has rows one after another, below a comment. `row NAME`
//! begins a row, and `row_files` says what its lines are.
//!
//! A row that can't be read is a wrong row. To run the rows by hand, start the program in the folder `data`.
#![tactic(auto)]

mod answer;
mod report;

use report::OwlRows;
use row_files::check_topics;
use std::process::ExitCode;

fn main(rt: HostRuntime) -> anyhow::Result<ExitCode> {
    let tally = check_topics::<HostRuntime, OwlRows>(&rt)?;
    println!(rt; "{tally}")?;
    if tally.is_right() {
        Ok(ExitCode::SUCCESS)
    } else {
        Ok(ExitCode::FAILURE)
    }
}
