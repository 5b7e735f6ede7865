//! The parts of a graph, in which all nodes lead to each other.

ghost use Rattle.std.specs.Prelude.{◌≡◌, IfOk, IsTrue};
ghost use Rattle.graph_walks.specs.Parts.{AllReached, AreParts};
ghost use Rattle.graph_walks.specs.Walks.{AreWithin, backwards};

use crate::components::component_ranks;
use crate::edges::edges_by;
use crate::least::least_joined;
use crate::levels::{level_pairs, none_goes_up};
use crate::roots::{all_reached, roots};
use crate::ways::backwards;
use owl_characters::NoMemory;
use std::alloc::{AllocError, Global};

/// For each of so many nodes the number of its part: two nodes have one number
/// exactly where walks along these pairs lead from each to the other. `NoMemory`
/// comes only where memory runs out.
///
/// The time grows with the number of nodes and pairs.
pub fn parts(alloc: Global, nodes: usize, pairs: &[(usize, usize)]) -> Result<Vec<usize>, NoMemory>
    requires { AreWithin nodes pairs.now }
    ensures { IfOk result (λ numbers. AreParts nodes pairs.now numbers.items) }
{
    let numbers = component_numbers(alloc, nodes, pairs)?;
    if are_parts(alloc, nodes, pairs, &numbers)? {
        return Ok(numbers);
    }
    // No proof says what the numbers of components are, so this stands behind
    // them: it is slow, and right whatever they are.
    Ok(least_joined(alloc, nodes, pairs)?)
}

/// For each node the number of its strongly connected component. No contract says
/// so: `are_parts` looks at them.
fn component_numbers(
    alloc: Global,
    nodes: usize,
    pairs: &[(usize, usize)],
) -> Result<Vec<usize>, NoMemory>
    requires { AreWithin nodes pairs.now }
{
    let edges = edges_by(alloc, nodes, pairs)?;
    component_ranks(alloc, &edges)
}

/// Whether these are numbers of the parts: so, if it says so.
fn are_parts(
    alloc: Global,
    nodes: usize,
    pairs: &[(usize, usize)],
    numbers: &[usize],
) -> Result<bool, AllocError>
    requires { AreWithin nodes pairs.now }
    ensures { IfOk result (λ answer. IsTrue answer → AreParts nodes pairs.now numbers.now) }
{
    if numbers.len() != nodes {
        return Ok(false);
    }
    if !none_goes_up(pairs, numbers) {
        return Ok(false);
    }
    let level = level_pairs(alloc, pairs, numbers)?;
    let roots = roots(alloc, nodes, numbers)?;
    Ok(are_joined(alloc, nodes, &level, &roots)?)
}

/// Whether walks lead to each node from some of the roots, and to some of them
/// from each.
fn are_joined(
    alloc: Global,
    nodes: usize,
    pairs: &[(usize, usize)],
    roots: &[usize],
) -> Result<bool, AllocError>
    requires { AreWithin nodes pairs.now }
    ensures forth { IfOk result (λ answer. IsTrue answer → AllReached nodes pairs.now roots.now) }
    ensures back { IfOk result (λ answer.
        IsTrue answer → AllReached nodes (backwards pairs.now) roots.now) }
{
    if !all_reached(alloc, nodes, pairs, roots)? {
        return Ok(false);
    }
    let turned = backwards(alloc, pairs)?;
    Ok(all_reached(alloc, nodes, &turned, roots)?)
}
