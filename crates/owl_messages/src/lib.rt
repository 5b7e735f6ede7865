//! What a run tells: each answer's text and line.
#![tactic(auto)]

mod answer;
mod refusal;
mod refusals;
mod summaries;
mod trial;
mod unsaid;
mod verdicts;

pub use answer::{
    Answer, Output, counts_line, said, told, told_as_declared, told_as_translated, told_in_bytes,
    too_long_output,
};
pub use refusal::{answer_trouble, refuse_import, refuse_output};
pub use refusals::{refuse_kinds, refuse_undeclared, refuse_unsayable};
pub use summaries::summary;
pub use trial::{BreachCounts, Findings, trial_report};
pub use unsaid::{UnsaidFault, refuse_unsaid};
pub use verdicts::verdict;
