//! Documents with the declarations of entities that they lack (Structural
//! Specification, section 5.8).
#![tactic(auto)]

mod declaring;
mod documents;

pub use declaring::declaration;
pub use documents::with_declarations;
