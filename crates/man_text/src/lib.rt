//! The text of ontologies in Manchester Syntax (sections 2.1 to 2.6), and what it says before the kinds of
//! names are known.
#![tactic(auto)]

mod laws;

pub use laws::words_mean_their_expressions;
