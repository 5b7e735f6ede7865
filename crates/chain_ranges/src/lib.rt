//! Ranges that are imposed on properties, by numbers (OWL 2 Profiles, section 2.2.6).
#![tactic(auto)]

mod blocks;
mod edges;
mod order;
mod search;
mod spread;

pub use search::lacking_chains;
