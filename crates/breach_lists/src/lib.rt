//! The list of what breaks rules of a profile, where the documents of an import
//! closure have their trees in one arena.
#![tactic(auto)]

mod adding;
mod gathering;
mod marks;

pub use adding::add_parts;
pub use gathering::{all_axioms, pooled_alone};
pub use marks::marks_by_number;
