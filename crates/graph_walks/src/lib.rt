//! Walks along pairs of numbers: what they lead to, the parts of a graph in which
//! all nodes lead to each other, and which pairs lie on cycles, break an order or
//! close a ring.
//!
//! In a graph with so many nodes these are the numbers below. Edges of a graph are
//! given by the numbers to which those of each node lead.
#![tactic(auto)]

mod components;
mod cycles;
mod edges;
mod entries;
mod found;
mod laws;
mod least;
mod levels;
mod marks;
mod orders;
mod part_numbers;
mod reach;
mod ring_search;
mod rings;
mod roots;
mod turns;
mod ways;

pub use components::component_ranks;
pub use cycles::cycle_pairs;
pub use edges::successors;
pub use laws::{forests_have_no_ring, links_without_rings_have_a_forest};
pub use marks::has_mark;
pub use orders::faults;
pub use part_numbers::parts;
pub use reach::{reached, reached_along};
pub use rings::ring_links;
