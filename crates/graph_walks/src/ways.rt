//! Pairs in one direction and the other.

ghost use Rattle.std.specs.Prelude.{◌≡◌, ◌+◌, ◌++◌, ◌<◌, IfOk, length};
ghost use Rattle.graph_walks.specs.Rings.{without};
ghost use Rattle.graph_walks.specs.Walks.{backwards, both_ways};

use std::alloc::{AllocError, Global};

/// Each pair turned round.
pub fn backwards(alloc: Global, pairs: &[(usize, usize)]) -> Result<Vec<(usize, usize)>, AllocError>
    ensures { IfOk result (λ turned. turned.items ≡ backwards pairs.now) }
{
    pairs.iter().map(|pair| (pair.1, pair.0)).collect(alloc)
}

/// The pairs in either direction.
pub fn both_ways(alloc: Global, pairs: &[(usize, usize)]) -> Result<Vec<(usize, usize)>, AllocError>
    ensures { IfOk result (λ ways. ways.items ≡ both_ways pairs.now) }
{
    let mut ways = backwards(alloc, pairs)?;
    ways.extend_from_slice(pairs)?;
    Ok(ways)
}

/// These pairs, and behind them those.
pub fn together(
    alloc: Global,
    these: &[(usize, usize)],
    those: &[(usize, usize)],
) -> Result<Vec<(usize, usize)>, AllocError>
    ensures { IfOk result (λ all. all.items ≡ these.now ++ those.now) }
{
    let mut all = Vec::new(alloc);
    all.extend_from_slice(these)?;
    all.extend_from_slice(those)?;
    Ok(all)
}

/// The pairs but that in this place.
pub fn without(
    alloc: Global,
    pairs: &[(usize, usize)],
    place: usize,
) -> Result<Vec<(usize, usize)>, AllocError>
    requires { place < length pairs.now }
    ensures { IfOk result (λ others. others.items ≡ without place pairs.now) }
{
    let mut others = Vec::new(alloc);
    others.extend_from_slice(&pairs[..place])?;
    others.extend_from_slice(&pairs[place + 1..])?;
    Ok(others)
}
