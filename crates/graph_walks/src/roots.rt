//! For each part one node, its root.

ghost use Rattle.std.specs.Prelude.{◌≡◌, IfOk, IsTrue};
ghost use Rattle.std.specs.List.{filter, range_with_len};
ghost use Rattle.graph_walks.specs.Parts.{AllReached, AreApart, is_head};
ghost use Rattle.graph_walks.specs.Walks.{AreWithin};

use crate::marks::{all_marked, number_at};
use crate::reach::reached;
use std::alloc::{AllocError, Global};

/// Of the nodes with one number one.
pub fn roots(alloc: Global, nodes: usize, numbers: &[usize]) -> Result<Vec<usize>, AllocError>
    ensures { IfOk result (λ roots. AreApart numbers.now roots.items) }
{
    let heads = heads(alloc, numbers)?;
    Ok(heading(alloc, nodes, numbers, &heads)?)
}

/// For each number a node that has it. No contract says so: a node is a root only
/// if it is noted here for its own number.
fn heads(alloc: Global, numbers: &[usize]) -> Result<Vec<usize>, AllocError> {
    let mut heads = vec![in alloc; 0; numbers.len().saturating_add(1)]?;
    for (node, number) in numbers.iter().enumerate() {
        if let Some(head) = heads.get_mut(*number) {
            *head = node;
        }
    }
    Ok(heads)
}

/// The nodes that are noted for their numbers.
fn heading(
    alloc: Global,
    nodes: usize,
    numbers: &[usize],
    heads: &[usize],
) -> Result<Vec<usize>, AllocError>
    ensures { IfOk result (λ some.
        some.items ≡ filter (is_head numbers.now heads.now) (range_with_len 0 nodes)) }
{
    (0..nodes)
        .filter(|node| number_at(heads, number_at(numbers, *node)) == *node)
        .collect(alloc)
}

/// Whether walks lead to each node from some of these.
pub fn all_reached(
    alloc: Global,
    nodes: usize,
    pairs: &[(usize, usize)],
    starts: &[usize],
) -> Result<bool, AllocError>
    requires { AreWithin nodes pairs.now }
    ensures { IfOk result (λ answer. IsTrue answer → AllReached nodes pairs.now starts.now) }
{
    let marks = reached(alloc, nodes, pairs, starts)?;
    Ok(all_marked(&marks))
}
