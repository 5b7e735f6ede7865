//! What the writers of all syntaxes share: a text that is made within the
//! limit of an output, the prefixes that stand in it, and how IRIs, labels and
//! the ends of literals are written by them.
#![tactic(auto)]

mod draft;
mod fault;
mod prefixes;
mod terms;

pub use draft::Draft;
pub use fault::WriteFault;
pub use prefixes::written_prefixes;
