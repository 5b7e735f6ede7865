//! The global restriction on ranges of OWL 2 EL (OWL 2 Profiles, section 2.2.6).
#![tactic(auto)]

mod found;
mod search;
mod statements;

pub use search::chains_without_ranges;
