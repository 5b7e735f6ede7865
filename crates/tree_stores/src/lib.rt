//! What takes trees and gives a number for each: an arena, or their depths alone.
#![tactic(auto)]

mod arenas;
mod depths;
mod fault;
mod store;

pub use arenas::fits;
pub use depths::Depths;
pub use fault::TreeFault;
pub use store::{TreeStore, add_first_kids, add_kids};
