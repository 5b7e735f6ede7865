//! The sorts of trees in the grammars of the profiles EL, QL and RL (OWL 2 Profiles,
//! sections 2.2, 3.2 and 4.2).
#![tactic(auto)]

mod forms;
mod leaf_test;
mod pass;
mod production;
mod rows;
mod set;
mod sort;
mod table;

pub use pass::sorts_in;
pub use set::{SortSet, set_at};
pub use sort::Sort;
