//! Expressions in an arena, in which equal trees share one number.
#![tactic(auto)]

mod arena;
mod expr_id;
mod grow;
mod nodes;
mod order;
mod ranks;
mod sets;
mod shape;
mod table;

pub use arena::{Arena, DEEPEST, HEAVIEST};
pub use expr_id::ExprId;
pub use grow::Grow;
