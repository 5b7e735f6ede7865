//! The least node of each part, by a search from each node.

ghost use Rattle.std.specs.Prelude.{◌↔◌, ◌<◌, IfOk, IsTrue};
ghost use Rattle.graph_walks.specs.Parts.{AreBoth, AreParts, IsFirstOfBoth, IsLeast};
ghost use Rattle.graph_walks.specs.Walks.{AreWithin};

use crate::marks::has_mark;
use crate::reach::reached;
use crate::ways::backwards;
use std::alloc::{AllocError, Global};

/// For each node the least node of its part. The time grows with the number of
/// nodes times that of nodes and pairs.
pub fn least_joined(
    alloc: Global,
    nodes: usize,
    pairs: &[(usize, usize)],
) -> Result<Vec<usize>, AllocError>
    requires { AreWithin nodes pairs.now }
    ensures { IfOk result (λ numbers. AreParts nodes pairs.now numbers.items) }
{
    let mut numbers = Vec::new(alloc);
    for node in 0..nodes {
        let least = least_with(alloc, nodes, pairs, node)?;
        numbers.push(least)?;
    }
    Ok(numbers)
}

/// The least node of the part of this one.
fn least_with(
    alloc: Global,
    nodes: usize,
    pairs: &[(usize, usize)],
    node: usize,
) -> Result<usize, AllocError>
    requires pairs { AreWithin nodes pairs.now }
    requires node { node < nodes }
    ensures { IfOk result (IsLeast pairs.now node) }
{
    let turned = backwards(alloc, pairs)?;
    let forth = reached(alloc, nodes, pairs, &[node])?;
    let back = reached(alloc, nodes, &turned, &[node])?;
    Ok(first_of_both(&forth, &back))
}

/// The first place where both lists have a mark; if there is none, that behind
/// the first list.
fn first_of_both(forth: &[bool], back: &[bool]) -> usize
    ensures { IsFirstOfBoth forth.now back.now result }
{
    for place in 0..forth.len() {
        if are_both(forth, back, place) {
            return place;
        }
    }
    forth.len()
}

/// Whether both lists have a mark there.
fn are_both(forth: &[bool], back: &[bool], place: usize) -> bool
    ensures { IsTrue result ↔ AreBoth forth.now back.now place }
{
    has_mark(forth, place) && has_mark(back, place)
}
