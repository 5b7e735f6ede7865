//! The strongly connected components of a graph (Tarjan's algorithm).

use crate::edges::successors;
use owl_characters::NoMemory;
use std::alloc::{AllocError, Global};

/// For each node the rank of its strongly connected component, from 1 on. The
/// components stand in the order in which they are complete, so that no edge
/// leads to a higher rank.
///
/// No contract says so: those who use ranks look at each edge.
pub fn component_ranks(alloc: Global, edges: &[Vec<usize>]) -> Result<Vec<usize>, NoMemory> {
    let mut walk = Walk::new(alloc, edges.len())?;
    // The walk ends long before: it meets each node and follows each edge once.
    for _ in 0..usize::MAX {
        if !walk.step(edges)? {
            break;
        }
    }
    Ok(walk.ranks(alloc)?)
}

/// What the walk knows of a node.
#[derive(Clone, Copy, Debug)]
struct Mark {
    /// When the walk met it, from 1 on; 0 before.
    met: usize,
    /// The earliest node of its component that was found so far, by when it was
    /// met.
    first: usize,
    /// The rank of its component; 0 until that is complete.
    rank: usize,
}

/// A node on the way, and how many of its edges were followed.
#[derive(Clone, Copy, Debug)]
struct Visit {
    node: usize,
    followed: usize,
}

/// A walk through a graph in depth.
#[derive(Debug, Drop)]
struct Walk {
    marks: Vec<Mark>,
    /// The way from a start to where the walk is.
    way: Vec<Visit>,
    /// The nodes of components that are not complete, as they were met.
    open: Vec<usize>,
    /// The next node to start from.
    start: usize,
    /// How many nodes were met.
    met: usize,
    /// How many components are complete.
    complete: usize,
}

impl Walk {
    /// Nothing was met yet, of so many nodes.
    fn new(alloc: Global, nodes: usize) -> Result<Walk, AllocError> {
        let mark = Mark {
            met: 0,
            first: 0,
            rank: 0,
        };
        Ok(Walk {
            marks: vec![in alloc; mark; nodes]?,
            way: Vec::new(alloc),
            open: Vec::new(alloc),
            start: 0,
            met: 0,
            complete: 0,
        })
    }

    /// The ranks of the nodes' components.
    fn ranks(&self, alloc: Global) -> Result<Vec<usize>, AllocError> {
        self.marks.iter().map(|mark| mark.rank).collect(alloc)
    }

    /// Follows one edge, or goes back from a node, or starts anew. Tells whether
    /// anything was left to do.
    fn step(&mut self, edges: &[Vec<usize>]) -> Result<bool, AllocError> {
        let Some(visit) = self.way.last_mut() else {
            return self.begin();
        };
        let node = visit.node;
        match successors(edges, node).get(visit.followed) {
            Some(next) => {
                visit.followed = visit.followed.saturating_add(1);
                self.follow(node, *next)?;
            }
            None => self.leave(node),
        }
        Ok(true)
    }

    /// Starts from the next node, where it wasn't met yet.
    fn begin(&mut self) -> Result<bool, AllocError> {
        let node = self.start;
        let Some(mark) = self.marks.get(node).copied() else {
            return Ok(false);
        };
        self.start = node.saturating_add(1);
        if mark.met == 0 {
            self.meet(node)?;
        }
        Ok(true)
    }

    /// Goes to a node that wasn't met yet.
    fn meet(&mut self, node: usize) -> Result<(), AllocError> {
        self.met = self.met.saturating_add(1);
        if let Some(mark) = self.marks.get_mut(node) {
            mark.met = self.met;
            mark.first = self.met;
        }
        self.open.push(node)?;
        self.way.push(Visit { node, followed: 0 })?;
        Ok(())
    }

    /// Goes along an edge.
    fn follow(&mut self, node: usize, next: usize) -> Result<(), AllocError> {
        if let Some(mark) = self.marks.get(next).copied() {
            if mark.met == 0 {
                self.meet(next)?;
            } else if mark.rank == 0 {
                self.reach_back(node, mark.met);
            }
        }
        Ok(())
    }

    /// The node is in the component of a node that was met then.
    fn reach_back(&mut self, node: usize, met: usize) {
        if let Some(mark) = self.marks.get_mut(node) {
            mark.first = mark.first.min(met);
        }
    }

    /// Goes back from a node all of whose edges were followed.
    fn leave(&mut self, node: usize) {
        self.way.pop();
        if let Some(mark) = self.marks.get(node).copied() {
            if mark.first == mark.met {
                self.close(node);
            } else if let Some(visit) = self.way.last().copied() {
                self.reach_back(visit.node, mark.first);
            }
        }
    }

    /// Completes the component whose earliest node this is.
    fn close(&mut self, node: usize) {
        self.complete = self.complete.saturating_add(1);
        while let Some(member) = self.open.pop() {
            if let Some(mark) = self.marks.get_mut(member) {
                mark.rank = self.complete;
            }
            if member == node {
                break;
            }
        }
    }
}
