//! Documents from their parts (Structural Specification, section 3).
#![tactic(auto)]

mod assembling;
mod fault;

pub use assembling::assemble;
pub use fault::AssembleFault;
