//! The nodes that a search has found.

ghost use Rattle.std.specs.Prelude.{◌≡◌, ◌↔◌, Contains, IfOk, IsTrue, OnOk, [], ◌∷◌, length, slice_get};
ghost use Rattle.graph_walks.specs.Searches.{IsTold, Finds};

use std::alloc::{AllocError, Global};

/// Some nodes of a graph, in the order in which they were found.
#[derive(Debug, Drop)]
pub struct Found {
    nodes: Vec<usize>,
    /// For each node of the graph whether it was found.
    marks: Vec<bool>,
}

impl Found {
    /// None, of a graph with so many nodes.
    pub fn none(alloc: Global, nodes: usize) -> Result<Found, AllocError>
        ensures none { IfOk result (λ found. found.nodes.items ≡ []) }
        ensures told { IfOk result IsTold }
        ensures graph { IfOk result (λ found. length found.marks.items ≡ nodes) }
    {
        Ok(Found {
            nodes: Vec::new(alloc),
            marks: vec![in alloc; false; nodes]?,
        })
    }

    /// The node that was found in this place.
    pub fn node_at(&self, place: usize) -> Option<usize>
        ensures { result ≡ slice_get self.now.nodes.items place }
    {
        self.nodes.get(place).copied()
    }

    /// The nodes that were found.
    pub fn nodes(&self) -> &[usize]
        ensures { result.now ≡ self.now.nodes.items }
    {
        &self.nodes
    }

    /// Whether the node was found.
    pub fn has(&self, node: usize) -> bool
        requires { IsTold self.now }
        ensures { IsTrue result ↔ Contains self.now.nodes.items node }
    {
        self.marks.get(node).copied().unwrap_or(false)
    }

    /// For each node whether it was found.
    pub fn into_marks(self) -> Vec<bool>
        ensures { result ≡ self.marks }
    {
        self.marks
    }

    /// Finds those of these numbers that are nodes of the graph.
    pub fn find_all(&mut self, nexts: &[usize]) -> Result<(), AllocError>
        requires { IsTold self.old }
        ensures { OnOk result (Finds nexts.now self.old self.new) }
    {
        'nexts: for next in nexts {
            self.find(*next)?;
        }
        Ok(())
    }

    /// Finds this number, if it is a node of the graph.
    fn find(&mut self, node: usize) -> Result<(), AllocError>
        requires { IsTold self.old }
        ensures { OnOk result (Finds (node ∷ []) self.old self.new) }
    {
        if node < self.marks.len() && !self.marks[node] {
            self.marks[node] = true;
            self.nodes.push(node)?;
        }
        Ok(())
    }
}
