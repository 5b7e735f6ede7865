//! Finite directed graphs, whose nodes are the numbers from 0 on: an order of
//! the nodes in which each one stands behind those to which its edges lead, or
//! the least node on a cycle.
#![tactic(auto)]

mod cycles;
mod laws;
mod order;
mod ranks;
mod reach;

pub use laws::ordered_nodes_are_on_no_cycle;
pub use order::{Order, order_nodes};
