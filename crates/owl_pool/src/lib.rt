//! The trees of several documents in one arena, where equal trees have one number.
#![tactic(auto)]

mod pooled;
mod pouring;

pub use pooled::Pooled;
pub use pouring::pool;
