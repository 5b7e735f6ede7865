//! The import closure of a document among those that are at hand (Structural
//! Specification, section 3.4).
#![tactic(auto)]

mod close;
mod fault;
mod missing;
mod named;
mod reached;

pub use close::closure;
pub use fault::CloseFault;
