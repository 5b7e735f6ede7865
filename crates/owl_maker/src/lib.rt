//! A maker of the trees of a document, from constructs that are opened and shut
//! in the order in which they are written.
#![tactic(auto)]

mod build;
mod fault;
mod maker;
mod parts;

pub use fault::MakeFault;
pub use maker::Maker;
