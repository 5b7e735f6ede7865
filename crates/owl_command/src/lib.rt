//! What the words of the command line ask for, and the statuses with which the program ends.
#![tactic(auto)]

mod command;
mod names;
mod size;
mod status;

pub use command::{Action, Command, Layout, Options, Profile, Target, WordsFault, words};
pub use status::Status;
