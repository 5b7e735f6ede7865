//! The order in which nodes are followed at first.

use graph_walks::component_ranks;
use owl_characters::NoMemory;
use std::alloc::{AllocError, Global};

/// The nodes of a graph, each behind those that lead to it and to which it doesn't
/// lead. Then sets have arrived at a node before its edges are followed.
///
/// No contract says so: what is found is the same in any order.
pub fn forward_order(alloc: Global, edges: &[Vec<usize>]) -> Result<Vec<usize>, NoMemory> {
    let ranks = component_ranks(alloc, edges)?;
    Ok(by_falling_rank(alloc, &ranks)?)
}

/// The places of these ranks, those of higher ones first.
fn by_falling_rank(alloc: Global, ranks: &[usize]) -> Result<Vec<usize>, AllocError> {
    let mut places = Vec::new(alloc);
    for (place, rank) in ranks.iter().enumerate() {
        places.push((*rank, place))?;
    }
    places.sort_unstable();
    places.iter().rev().map(|ranked| ranked.1).collect(alloc)
}
