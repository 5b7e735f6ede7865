//! Pairs of nodes with one number.

ghost use Rattle.std.specs.Prelude.{◌≡◌, ◌↔◌, IfOk, IsTrue, map};
ghost use Rattle.graph_walks.specs.Parts.{NoneGoesUp, is_level, level};

use crate::marks::number_at;
use std::alloc::{AllocError, Global};

/// Whether the two nodes have one number.
pub fn is_level(numbers: &[usize], pair: (usize, usize)) -> bool
    ensures { result ≡ is_level numbers.now pair }
{
    number_at(numbers, pair.0) == number_at(numbers, pair.1)
}

/// Marks the pairs of nodes with one number.
pub fn level_marks(
    alloc: Global,
    pairs: &[(usize, usize)],
    numbers: &[usize],
) -> Result<Vec<bool>, AllocError>
    ensures { IfOk result (λ marks. marks.items ≡ map (is_level numbers.now) pairs.now) }
{
    pairs
        .iter()
        .map(|pair| is_level(numbers, *pair))
        .collect(alloc)
}

/// The pairs of nodes with one number.
pub fn level_pairs(
    alloc: Global,
    pairs: &[(usize, usize)],
    numbers: &[usize],
) -> Result<Vec<(usize, usize)>, AllocError>
    ensures { IfOk result (λ some. some.items ≡ level numbers.now pairs.now) }
{
    pairs
        .iter()
        .filter(|pair| is_level(numbers, **pair))
        .copied()
        .collect(alloc)
}

/// Whether no pair leads to a higher number.
pub fn none_goes_up(pairs: &[(usize, usize)], numbers: &[usize]) -> bool
    ensures { IsTrue result ↔ NoneGoesUp pairs.now numbers.now }
{
    pairs.iter().all(|pair| number_at(numbers, pair.1) <= number_at(numbers, pair.0))
}
