//! References to IRIs, and what they stand for (RFC 3986, section 5.2).
#![tactic(auto)]

mod bases;
mod cuts;
mod dot_segments;
mod laws;
mod parts;
mod resolution;
mod scan;

pub use bases::{Base, resolve};
pub use laws::dot_segments_go_by_the_rules;
pub use resolution::absolute;
pub use scan::are_iri_characters;
