//! What the words of documents stand for: the literal of a form, and the number
//! of digits.
#![tactic(auto)]

mod literals;
mod numbers;

pub use literals::{plain_literal, tagged_literal, typed_literal};
pub use numbers::number_of;
