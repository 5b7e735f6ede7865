//! Texts as lists of characters, UTF-8, and what names are made of.
#![tactic(auto)]

mod limit;
mod names;
mod text;
mod utf8;
mod utf8_states;
mod utf8_step;

pub use limit::MOST_BYTES;
pub use names::{is_base, is_part, is_start, local_parts_fit_iris};
pub use text::{NoMemory, Text};
pub use utf8::Utf8Feed;
pub use utf8_step::{BadUtf8, Utf8Step};
