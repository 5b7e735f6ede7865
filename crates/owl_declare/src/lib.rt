//! The declarations that an ontology needs and its import closure lacks (Structural
//! Specification, sections 5.8 and 5.8.1).
#![tactic(auto)]

mod declaring;
mod fault;
mod finding;
mod found;
mod laws;
mod need;

pub use declaring::declare;
pub use fault::DeclareFault;
pub use finding::needed;
pub use laws::needed_declarations_are_enough;
pub use need::Need;
