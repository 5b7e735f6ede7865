//! Links that close a ring, by a search for each.

ghost use Rattle.std.specs.Prelude.{◌↔◌, ◌<◌, IfOk, IsTrue, length};
ghost use Rattle.graph_walks.specs.Marks.{MarkEach};
ghost use Rattle.graph_walks.specs.Rings.{ClosesRing, link_at};
ghost use Rattle.graph_walks.specs.Walks.{AreWithin};

use crate::marks::has_mark;
use crate::reach::reached;
use crate::ways::{both_ways, without};
use std::alloc::{AllocError, Global};

/// For each link whether it closes a ring. The time grows with the number of links
/// times that of nodes and links.
pub fn rings_by_search(
    alloc: Global,
    nodes: usize,
    links: &[(usize, usize)],
) -> Result<Vec<bool>, AllocError>
    requires { AreWithin nodes links.now }
    ensures { IfOk result (λ marks. MarkEach (ClosesRing links.now) links.now marks.items) }
{
    let mut marks = Vec::new(alloc);
    for place in 0..links.len() {
        let closes = closes_ring(alloc, nodes, links, place)?;
        marks.push(closes)?;
    }
    Ok(marks)
}

/// Whether the link in this place closes a ring.
fn closes_ring(
    alloc: Global,
    nodes: usize,
    links: &[(usize, usize)],
    place: usize,
) -> Result<bool, AllocError>
    requires links { AreWithin nodes links.now }
    requires place { place < length links.now }
    ensures { IfOk result (λ answer.
        IsTrue answer ↔ ClosesRing links.now place (link_at links.now place)) }
{
    let others = without(alloc, links, place)?;
    let ways = both_ways(alloc, &others)?;
    let link = links[place];
    let marks = reached(alloc, nodes, &ways, &[link.0])?;
    Ok(has_mark(&marks, link.1))
}
