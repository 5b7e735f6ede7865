//! Turtle as a grammar: the classes of its tokens, its rules, and what a
//! document states.
#![tactic(auto)]

mod act;
mod class;
mod laws;
mod node;
mod table;
mod turtle;

pub use act::Act;
pub use class::{Class, class_of};
pub use laws::{
    defects_are_of_no_document, documents_are_read_one_way, one_first_defect, table_is_of_page,
};
pub use node::{Nest, Node, NodeTriple, Object};
pub use turtle::Turtle;
