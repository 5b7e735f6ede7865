//! On which properties each of some classes is imposed.

ghost use Rattle.std.specs.Prelude.{◌≡◌, ◌<◌, ◌≤◌, ◌↔◌, ℕ, Contains, IfOk, List, OnOk, length};
ghost use Rattle.std.specs.Int.{bit_at};
ghost use Rattle.graph_walks.specs.Edges.{AreEdges, edges_of};
ghost use Rattle.chain_ranges.specs.Spreads.{AreReachedSets, AreSeeded, AreSpread, Has, IsEmptyOf, IsWaiting};

use crate::spread::Spread;
use graph_walks::successors;
use std::alloc::{AllocError, Global};

/// For each node the set of the places in the block of those classes from whose nodes
/// walks along these edges lead to it.
///
/// The edges of all nodes are followed in this order, and those of a node again where
/// its set has grown since, which it does 64 times at most.
pub fn block_sets(
    alloc: Global,
    edges: &[Vec<usize>],
    order: &[usize],
    holders: &[Vec<usize>],
    block: &[usize],
) -> Result<Vec<u64>, AllocError>
    requires { length block.now ≤ 64 }
    ensures { IfOk result (λ sets. (pairs : List (ℕ × ℕ)) → AreEdges pairs (edges_of edges.now)
        → AreReachedSets pairs (edges_of holders.now) block.now (length edges.now) sets.items) }
{
    let mut spread = Spread::none(alloc, edges.len())?;
    queue_all(order, &mut spread)?;
    seed(holders, block, &mut spread)?;
    follow(edges, &mut spread)?;
    Ok(spread.into_sets())
}

/// The edges of these nodes are to be followed.
fn queue_all(nodes: &[usize], spread: &mut Spread) -> Result<(), AllocError>
    requires { IsEmptyOf (length spread.old.sets.items) spread.old }
    ensures { OnOk result (IsEmptyOf (length spread.old.sets.items) spread.new) }
{
    'nodes: for node in nodes {
        spread.wait_for(*node)?;
    }
    Ok(())
}

/// Adds the place of each class in the block to the sets of its nodes.
fn seed(holders: &[Vec<usize>], block: &[usize], spread: &mut Spread) -> Result<(), AllocError>
    requires few { length block.now ≤ 64 }
    requires empty { IsEmptyOf (length spread.old.sets.items) spread.old }
    ensures { OnOk result (AreSeeded (edges_of holders.now) block.now
        (length spread.old.sets.items) (length block.now) spread.new) }
{
    'classes: for (number, class) in block.iter().enumerate() {
        spread.add_all(successors(holders, *class), bit(number))?;
    }
    Ok(())
}

/// The set of this number alone.
fn bit(number: usize) -> u64
    requires { number < 64 }
    ensures { (other : ℕ) → (bit_at result other ≡ 1) ↔ (other ≡ number) }
{
    1 << number
}

/// Adds the set of each node to those of the nodes to which its edges lead, again
/// where it has grown since.
fn follow(edges: &[Vec<usize>], spread: &mut Spread) -> Result<(), AllocError>
    requires size { length spread.old.sets.items ≡ length edges.now }
    requires noted { (node number : ℕ) → Has spread.old.sets.items node number
        → Contains spread.old.queue.items node }
    requires waiting { (node : ℕ) → IsWaiting spread.old.waiting.items node
        → Contains spread.old.queue.items node }
    ensures { OnOk result ((pairs : List (ℕ × ℕ)) → AreEdges pairs (edges_of edges.now)
        → AreSpread pairs (length edges.now) spread.old.sets.items spread.new.sets.items) }
{
    for place in 0..usize::MAX {
        match spread.node_at(place) {
            Some(node) => {
                spread.begin(node);
                let bits = spread.set_of(node);
                spread.add_all(successors(edges, node), bits)?;
            }
            None => break,
        }
    }
    Ok(())
}
