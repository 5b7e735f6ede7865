//! What the triples of a graph ask of the terms that they name (Mapping to RDF
//! Graphs, section 3.2).
#![tactic(auto)]

mod asked;
mod elements;
mod listed;
mod lists;
mod nodes;
mod shared;
mod sorts;
mod source;
mod typed;

pub use listed::Listed;
pub use lists::meets;
pub use shared::{lists_of, shares_lists};
pub use sorts::{
    has_kind, is_declared, is_entity, is_of_sort, may_be_declared, names_tree, role_of_term,
};
pub use source::Source;
pub use typed::{is_structural, untyped, untyped_in};
