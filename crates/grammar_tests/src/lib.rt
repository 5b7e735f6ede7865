//! A small grammar from its page to its parser.
#![tactic(auto)]

mod items;
mod items_table;
mod sentence;
#[cfg(test)]
mod tests;

pub use items::{Act, Class, Items, Rule};
pub use sentence::{Event, Refusal, parse};
