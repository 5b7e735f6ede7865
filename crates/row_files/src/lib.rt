//! Rows: what a program is run on, and what has to come of it. A row is lines of text, each of which says one thing:
//!
//! - `words WORDS`: the words of the command line, with white space between them.
//! - `document NAME`: a document on the shelf, whose text follows. There may be several.
//! - `output`: what has to be written; its text follows. Without it nothing may be written.
//! - `status N` is the exit status, and `line TEXT` the line that has to be noted. Without it nothing may be noted.
//! - `piece N`: a read gives at most N bytes; `fail-read N`: the read with this number fails, from 1.
//! - `out-piece N`: a write of the output takes at most N bytes; `fail-put N`: the write with this number fails;
//!   `room N`: the output takes at most N bytes in all; `fail-note N`: the write of the note with this number fails.
//! - `cuts`: the row is run once for each `piece` from 1 to 16.
//! - `tokens LANGUAGE`, in place of words: the tokens of the document, in each cut in two pieces, are the output, a line
//!   for each, and behind them a line for how they end. With `open` the end is not told.
//!
//! The parts of a text stand one a line: `= TEXT`, `| TEXT` with a line feed behind, `* COUNT TEXT` so many times, and
//! `< FILE`, all bytes of a file of the row's folder. A line that begins with `#` is a comment.
#![tactic(auto)]

mod compare;
mod described;
mod devices;
mod fault;
mod folder;
mod line;
mod part;
mod row;
mod tally;
mod token;
mod topic;

pub use compare::compare_texts;
pub use devices::Devices;
pub use fault::RowFault;
pub use folder::folders;
pub use line::is_comment;
pub use row::{Document, Row, read_row};
pub use tally::Tally;
pub use token::{Language, tokens_of};
pub use topic::{Rows, check_topics};
