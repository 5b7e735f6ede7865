//! Canonical bytes of ontologies: structurally equivalent ontologies have the
//! same bytes, and others have others.
#![tactic(auto)]

mod calls;
mod documents;
mod fault;
mod input;
mod laws;
mod parts;
mod sink;
mod terms;
mod trees;
mod writing;

pub use calls::{digest, digest_text, read, write};
pub use fault::{CanonFault, WriteFault};
pub use laws::{
    bytes_are_read_once, equivalent_ontologies_have_the_same_bytes, no_tree_begins_another,
};
