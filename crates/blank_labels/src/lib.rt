//! Labels for the blank nodes that have none in a document (RDF 1.1 Turtle, section
//! 7.2: each stands for a blank node of its own).
#![tactic(auto)]

mod far;
mod fresh;
mod labels;
mod laws;
#[cfg(test)]
mod tests;

pub use fresh::{FreshLabels, LabelNumbers};
pub use laws::fresh_labels_are_told_apart;
