//! All that the program does, over any shelf of documents and any sinks.
#![tactic(auto)]

mod program;

pub use owl_command::{Action, Command, Profile, Status, Target, WordsFault, words};
pub use program::run;
