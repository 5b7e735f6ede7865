//! Links that close a ring.

ghost use Rattle.std.specs.Prelude.{IfOk};
ghost use Rattle.graph_walks.specs.Marks.{MarkEach};
ghost use Rattle.graph_walks.specs.Rings.{AreTurned, ClosesRing, IsTurned};
ghost use Rattle.graph_walks.specs.Walks.{AreWithin};

use crate::entries::are_entered_once;
use crate::levels::level_marks;
use crate::marks::has_mark;
use crate::part_numbers::parts;
use crate::ring_search::rings_by_search;
use crate::turns::turn_marks;
use owl_characters::NoMemory;
use std::alloc::{AllocError, Global};

/// For each of these links, by place, whether it closes a ring: whether the links
/// in other places, each in either direction, join its two nodes. A link from a
/// node to itself does, as does each of two links of the same nodes. `NoMemory`
/// comes only where memory runs out.
///
/// The time grows with the number of nodes and links.
pub fn ring_links(
    alloc: Global,
    nodes: usize,
    links: &[(usize, usize)],
) -> Result<Vec<bool>, NoMemory>
    requires { AreWithin nodes links.now }
    ensures { IfOk result (λ marks. MarkEach (ClosesRing links.now) links.now marks.items) }
{
    let turned = turned_links(alloc, nodes, links)?;
    let numbers = parts(alloc, nodes, &turned)?;
    if are_entered_once(alloc, &turned, &numbers)? {
        return Ok(level_marks(alloc, &turned, &numbers)?);
    }
    // No proof says how the links were turned, so this stands behind them: it is
    // slow, and right however they were.
    Ok(rings_by_search(alloc, nodes, links)?)
}

/// The links, each in the direction in which a walk in depth follows it.
fn turned_links(
    alloc: Global,
    nodes: usize,
    links: &[(usize, usize)],
) -> Result<Vec<(usize, usize)>, AllocError>
    ensures { IfOk result (λ turned. AreTurned links.now turned.items) }
{
    let marks = turn_marks(alloc, nodes, links)?;
    Ok(turned_by(alloc, links, &marks)?)
}

/// The links, those with a mark turned round.
fn turned_by(
    alloc: Global,
    links: &[(usize, usize)],
    marks: &[bool],
) -> Result<Vec<(usize, usize)>, AllocError>
    ensures { IfOk result (λ turned. AreTurned links.now turned.items) }
{
    let mut turned = Vec::new(alloc);
    'links: for link in links {
        let is_turned = has_mark(marks, turned.len());
        turned.push(turned_if(*link, is_turned))?;
    }
    Ok(turned)
}

/// The link, turned round where it says so.
fn turned_if(link: (usize, usize), is_turned: bool) -> (usize, usize)
    ensures { IsTurned link result }
{
    if is_turned { (link.1, link.0) } else { link }
}
