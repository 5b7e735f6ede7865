//! Links as a walk in depth follows them.

use crate::edges::{no_edges, successors};
use crate::marks::has_mark;
use std::alloc::{AllocError, Global};

/// For each of these links whether a walk in depth that follows each link once
/// goes along it from its second node to its first.
///
/// No contract says so: those who turn links look at what comes of it.
pub fn turn_marks(
    alloc: Global,
    nodes: usize,
    links: &[(usize, usize)],
) -> Result<Vec<bool>, AllocError> {
    let places = link_places(alloc, nodes, links)?;
    let mut walk = Walk::new(alloc, nodes, links.len())?;
    // The walk ends long before: it meets each node once, and each link twice.
    for _ in 0..usize::MAX {
        if !walk.step(links, &places)? {
            break;
        }
    }
    Ok(walk.into_turned())
}

/// For each node the places of its links.
fn link_places(
    alloc: Global,
    nodes: usize,
    links: &[(usize, usize)],
) -> Result<Vec<Vec<usize>>, AllocError> {
    let mut places = no_edges(alloc, nodes)?;
    for (place, link) in links.iter().enumerate() {
        if let Some(at_first) = places.get_mut(link.0) {
            at_first.push(place)?;
        }
        if let Some(at_second) = places.get_mut(link.1) {
            at_second.push(place)?;
        }
    }
    Ok(places)
}

/// A node on the way, and how many of its links were looked at.
#[derive(Clone, Copy, Debug)]
struct Visit {
    node: usize,
    looked_at: usize,
}

/// A walk along links in depth.
#[derive(Debug, Drop)]
struct Walk {
    /// For each node whether the walk met it.
    met: Vec<bool>,
    /// For each link whether the walk followed it.
    followed: Vec<bool>,
    /// For each link whether it was followed from its second node to its first.
    turned: Vec<bool>,
    /// The way from a start to where the walk is.
    way: Vec<Visit>,
    /// The next node to start from.
    start: usize,
}

impl Walk {
    /// Nothing was met yet, of so many nodes and links.
    fn new(alloc: Global, nodes: usize, links: usize) -> Result<Walk, AllocError> {
        Ok(Walk {
            met: vec![in alloc; false; nodes]?,
            followed: vec![in alloc; false; links]?,
            turned: vec![in alloc; false; links]?,
            way: Vec::new(alloc),
            start: 0,
        })
    }

    /// The links that were followed from their second node to their first.
    fn into_turned(self) -> Vec<bool> {
        self.turned
    }

    /// Looks at one link, or goes back from a node, or starts anew. Tells whether
    /// anything was left to do.
    fn step(
        &mut self,
        links: &[(usize, usize)],
        places: &[Vec<usize>],
    ) -> Result<bool, AllocError> {
        let Some(visit) = self.way.last_mut() else {
            return self.begin();
        };
        let node = visit.node;
        match successors(places, node).get(visit.looked_at) {
            Some(place) => {
                visit.looked_at = visit.looked_at.saturating_add(1);
                self.follow(links, node, *place)?;
            }
            None => {
                self.way.pop();
            }
        }
        Ok(true)
    }

    /// Starts from the next node.
    fn begin(&mut self) -> Result<bool, AllocError> {
        let node = self.start;
        if node >= self.met.len() {
            return Ok(false);
        }
        self.start = node.saturating_add(1);
        self.meet(node)?;
        Ok(true)
    }

    /// Goes to a node, where it wasn't met yet.
    fn meet(&mut self, node: usize) -> Result<(), AllocError> {
        if has_mark(&self.met, node) {
            return Ok(());
        }
        if let Some(met) = self.met.get_mut(node) {
            *met = true;
        }
        self.way.push(Visit { node, looked_at: 0 })?;
        Ok(())
    }

    /// Goes along the link in this place, where it wasn't followed yet.
    fn follow(
        &mut self,
        links: &[(usize, usize)],
        node: usize,
        place: usize,
    ) -> Result<(), AllocError> {
        if has_mark(&self.followed, place) {
            return Ok(());
        }
        if let Some(followed) = self.followed.get_mut(place) {
            *followed = true;
        }
        match links.get(place).copied() {
            Some((first, second)) if first == node => self.meet(second),
            Some((first, _)) => self.turn(place, first),
            None => Ok(()),
        }
    }

    /// Goes along the link in this place from its second node to its first.
    fn turn(&mut self, place: usize, first: usize) -> Result<(), AllocError> {
        if let Some(turned) = self.turned.get_mut(place) {
            *turned = true;
        }
        self.meet(first)
    }
}
