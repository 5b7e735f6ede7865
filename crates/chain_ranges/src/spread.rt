//! Sets of numbers that spread along the edges of a graph.

ghost use Rattle.std.specs.Prelude.{◌≡◌, ◌∷◌, [], IfOk, OnOk, slice_get, slice_index};
ghost use Rattle.chain_ranges.specs.Spreads.{AddsBits, Begins, IsEmptyOf, Queues};

use graph_walks::has_mark;
use std::alloc::{AllocError, Global};

/// A set of numbers below 64 for each node of a graph, and the nodes whose edges are
/// to be followed, or were, in that order.
#[derive(Debug, Drop)]
pub struct Spread {
    sets: Vec<u64>,
    /// For each node whether its edges are to be followed.
    waiting: Vec<bool>,
    queue: Vec<usize>,
}

impl Spread {
    /// Empty sets, of a graph with so many nodes.
    pub fn none(alloc: Global, nodes: usize) -> Result<Spread, AllocError>
        ensures { IfOk result (IsEmptyOf nodes) }
    {
        Ok(Spread {
            sets: vec![in alloc; 0; nodes]?,
            waiting: vec![in alloc; false; nodes]?,
            queue: Vec::new(alloc),
        })
    }

    /// The node in this place of the queue.
    pub fn node_at(&self, place: usize) -> Option<usize>
        ensures { result ≡ slice_get self.now.queue.items place }
    {
        self.queue.get(place).copied()
    }

    /// The set of the node.
    pub fn set_of(&self, node: usize) -> u64
        ensures { result ≡ slice_index self.now.sets.items node }
    {
        set_at(&self.sets, node)
    }

    /// The set of each node.
    pub fn into_sets(self) -> Vec<u64>
        ensures { result ≡ self.sets }
    {
        self.sets
    }

    /// The edges of the node are followed now.
    pub fn begin(&mut self, node: usize)
        ensures { Begins node self.old self.new }
    {
        if node < self.waiting.len() {
            self.waiting[node] = false;
        }
    }

    /// The edges of the node are to be followed.
    pub fn wait_for(&mut self, node: usize) -> Result<(), AllocError>
        ensures { OnOk result (Queues node self.old self.new) }
    {
        if has_mark(&self.waiting, node) {
            return Ok(());
        }
        if node < self.waiting.len() {
            self.waiting[node] = true;
        }
        self.queue.push(node)?;
        Ok(())
    }

    /// Adds these numbers to the sets of those of these that are nodes.
    pub fn add_all(&mut self, nodes: &[usize], bits: u64) -> Result<(), AllocError>
        ensures { OnOk result (AddsBits nodes.now bits self.old self.new) }
    {
        'nodes: for node in nodes {
            self.add(*node, bits)?;
        }
        Ok(())
    }

    /// Adds these numbers to the set of this, if it is a node.
    fn add(&mut self, node: usize, bits: u64) -> Result<(), AllocError>
        ensures { OnOk result (AddsBits (node ∷ []) bits self.old self.new) }
    {
        let old = set_at(&self.sets, node);
        let new = old | bits;
        if node < self.sets.len() && new != old {
            self.sets[node] = new;
            self.wait_for(node)?;
        }
        Ok(())
    }
}

/// The set in this place: empty, where there is none.
pub fn set_at(sets: &[u64], place: usize) -> u64
    ensures { result ≡ slice_index sets.now place }
{
    sets.get(place).copied().unwrap_or(0)
}
