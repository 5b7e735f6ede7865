//! Faults of an order.

ghost use Rattle.std.specs.Prelude.{◌≡◌, ◌↔◌, ◌<◌, ◌++◌, ℕ, Contains, IfOk, IsTrue, List, length};
ghost use Rattle.graph_walks.specs.Edges.{edges_of};
ghost use Rattle.graph_walks.specs.Faults.{AreWays, IsFault};
ghost use Rattle.graph_walks.specs.Marks.{MarkEach};
ghost use Rattle.graph_walks.specs.Parts.{AreParts};
ghost use Rattle.graph_walks.specs.Walks.{AreWithin};

use crate::edges::edges_by;
use crate::levels::is_level;
use crate::part_numbers::parts;
use crate::reach::found_from;
use crate::ways::together;
use owl_characters::NoMemory;
use std::alloc::{AllocError, Global};

/// For each of the pairs `below`, by place, whether it is a fault: whether walks
/// lead from its second node along `below`, on along `leads`, and on along `below`
/// to its first. `NoMemory` comes only where memory runs out.
///
/// The time grows with the number of nodes and pairs, and for each pair of nodes
/// that lead to each other by both lists together with these numbers again.
pub fn faults(
    alloc: Global,
    nodes: usize,
    leads: &[(usize, usize)],
    below: &[(usize, usize)],
) -> Result<Vec<bool>, NoMemory>
    requires leads { AreWithin nodes leads.now }
    requires below { AreWithin nodes below.now }
    ensures { IfOk result (λ marks. MarkEach
        (λ _ pair. IsFault leads.now below.now pair.0 pair.1) below.now marks.items) }
{
    let numbers = joint_parts(alloc, nodes, leads, below)?;
    Ok(fault_marks(alloc, nodes, leads, below, &numbers)?)
}

/// For each node the number of its part, in which nodes lead to each other by
/// both lists together.
fn joint_parts(
    alloc: Global,
    nodes: usize,
    leads: &[(usize, usize)],
    below: &[(usize, usize)],
) -> Result<Vec<usize>, NoMemory>
    requires leads { AreWithin nodes leads.now }
    requires below { AreWithin nodes below.now }
    ensures { IfOk result (λ numbers. AreParts nodes (leads.now ++ below.now) numbers.items) }
{
    let all = together(alloc, leads, below)?;
    parts(alloc, nodes, &all)
}

/// Marks the faults. The edges of both lists are made once.
fn fault_marks(
    alloc: Global,
    nodes: usize,
    leads: &[(usize, usize)],
    below: &[(usize, usize)],
    numbers: &[usize],
) -> Result<Vec<bool>, AllocError>
    requires leads { AreWithin nodes leads.now }
    requires below { AreWithin nodes below.now }
    requires numbers { AreParts nodes (leads.now ++ below.now) numbers.now }
    ensures { IfOk result (λ marks. MarkEach
        (λ _ pair. IsFault leads.now below.now pair.0 pair.1) below.now marks.items) }
{
    let lead_edges = edges_by(alloc, nodes, leads)?;
    let below_edges = edges_by(alloc, nodes, below)?;
    Ok(marks_by(alloc, &lead_edges, &below_edges, numbers, below)?)
}

/// Marks the faults, by the edges of both lists.
fn marks_by(
    alloc: Global,
    lead_edges: &[Vec<usize>],
    below_edges: &[Vec<usize>],
    numbers: &[usize],
    below: &[(usize, usize)],
) -> Result<Vec<bool>, AllocError>
    ensures { IfOk result (λ marks. (leads : List (ℕ × ℕ)) → AreWays leads below.now
        (edges_of lead_edges.now) (edges_of below_edges.now) numbers.now
        → MarkEach (λ _ pair. IsFault leads below.now pair.0 pair.1) below.now marks.items) }
{
    let mut marks = Vec::new(alloc);
    'pairs: for pair in below {
        let fault = is_fault(alloc, lead_edges, below_edges, numbers, *pair)?;
        marks.push(fault)?;
    }
    Ok(marks)
}

/// Whether this pair is a fault. One of nodes that do not lead to each other by
/// both lists together is none.
fn is_fault(
    alloc: Global,
    lead_edges: &[Vec<usize>],
    below_edges: &[Vec<usize>],
    numbers: &[usize],
    pair: (usize, usize),
) -> Result<bool, AllocError>
    ensures { IfOk result (λ answer. (leads below : List (ℕ × ℕ)) → AreWays leads below
        (edges_of lead_edges.now) (edges_of below_edges.now) numbers.now
        → Contains below pair → IsTrue answer ↔ IsFault leads below pair.0 pair.1) }
{
    if is_level(numbers, pair) {
        Ok(leads_back(alloc, lead_edges, below_edges, pair)?)
    } else {
        Ok(false)
    }
}

/// Whether walks lead from the second node of the pair up, across and up again to
/// its first.
fn leads_back(
    alloc: Global,
    lead_edges: &[Vec<usize>],
    below_edges: &[Vec<usize>],
    pair: (usize, usize),
) -> Result<bool, AllocError>
    ensures { IfOk result (λ answer. (leads below : List (ℕ × ℕ)) (numbers : List ℕ)
        → AreWays leads below (edges_of lead_edges.now) (edges_of below_edges.now) numbers
        → Contains below pair → IsTrue answer ↔ IsFault leads below pair.0 pair.1) }
{
    let above = found_from(alloc, below_edges, &[pair.1])?;
    let led = found_from(alloc, lead_edges, above.nodes())?;
    let under = found_from(alloc, below_edges, led.nodes())?;
    Ok(under.has(pair.0))
}
