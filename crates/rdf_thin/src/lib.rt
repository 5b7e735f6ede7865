//! Graphs without the types that tools of OWL 1 write beside what says them in OWL 2.
#![tactic(auto)]

mod redundant;

pub use redundant::{is_thin, thin};
