//! Which parts of an import closure break which rules of OWL 2 EL, QL and RL (OWL 2
//! Profiles, sections 2, 3 and 4).
#![tactic(auto)]

mod facts;
mod listing;
mod rules;
mod search;

pub use rules::Profile;
pub use search::breaches;
