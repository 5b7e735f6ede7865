//! The search for chains whose last property lacks a range.

ghost use Rattle.std.specs.Prelude.{◌≡◌, ◌<◌, ◌≤◌, ◌||◌, ℕ, IfOk, List, OnOk, false, length, map, slice_index_or};
ghost use Rattle.owl_list.specs.Ascending.{HoldSame};
ghost use Rattle.graph_walks.specs.Edges.{AreEdges, edges_of};
ghost use Rattle.graph_walks.specs.Marks.{MarkEach};
ghost use Rattle.graph_walks.specs.Walks.{AreWithin};
ghost use Rattle.chain_ranges.specs.Imposed.{LacksRange};
ghost use Rattle.chain_ranges.specs.Marking.{AddsReaching, lacks, pair_at};

use crate::blocks::block_sets;
use crate::edges::edges_back;
use crate::order::forward_order;
use crate::spread::set_at;
use owl_characters::NoMemory;
use owl_list::arrange;
use std::alloc::{AllocError, Global};

/// How many classes are looked at together, each of which has its bit in a set.
const AT_ONCE: usize = 64;

/// For each chain whether it lacks a range: a class is imposed as range on the property
/// that it implies, and not on the last of its properties (OWL 2 Profiles, section
/// 2.2.6). Properties and classes are numbers below the count. A step leads from a
/// property to one above it, a range is a property with a class, and a chain the last
/// of its properties with the property that it implies. `NoMemory` comes only where
/// memory runs out.
///
/// The time grows with the number of properties, steps and chains, once for each 64
/// classes that are ranges. Where steps lead in rings it is at most 64 times that.
pub fn lacking_chains(
    alloc: Global,
    count: usize,
    steps: &[(usize, usize)],
    ranges: &[(usize, usize)],
    chains: &[(usize, usize)],
) -> Result<Vec<bool>, NoMemory>
    requires steps { AreWithin count steps.now }
    requires ranges { AreWithin count ranges.now }
    requires chains { AreWithin count chains.now }
    ensures { IfOk result (λ marks. MarkEach
        (λ _ chain. LacksRange steps.now ranges.now chain.0 chain.1) chains.now marks.items) }
{
    let mut marks = vec![in alloc; false; chains.len()]?;
    if chains.is_empty() || ranges.is_empty() {
        return Ok(marks);
    }
    let below = edges_back(alloc, count, steps)?;
    let order = forward_order(alloc, &below)?;
    let holders = edges_back(alloc, count, ranges)?;
    let classes = range_classes(alloc, ranges)?;
    mark_classes(
        alloc, &below, &order, &holders, &classes, chains, &mut marks,
    )?;
    Ok(marks)
}

/// The classes of these ranges, each once.
fn range_classes(alloc: Global, ranges: &[(usize, usize)]) -> Result<Vec<usize>, AllocError>
    ensures { IfOk result (λ classes. HoldSame classes.items (map (λ range. range.1) ranges.now)) }
{
    let mut classes = class_list(alloc, ranges)?;
    arrange(&mut classes);
    Ok(classes)
}

/// The class of each of these ranges.
fn class_list(alloc: Global, ranges: &[(usize, usize)]) -> Result<Vec<usize>, AllocError>
    ensures { IfOk result (λ classes. classes.items ≡ map (λ range. range.1) ranges.now) }
{
    ranges.iter().map(|range| range.1).collect(alloc)
}

/// Marks the chains of which the implied property is reached along these edges from
/// some property of one of the classes, and the last one isn't.
fn mark_classes(
    alloc: Global,
    below: &[Vec<usize>],
    order: &[usize],
    holders: &[Vec<usize>],
    classes: &[usize],
    chains: &[(usize, usize)],
    marks: &mut [bool],
) -> Result<(), AllocError>
    requires size { length marks.old ≡ length chains.now }
    requires chains { AreWithin (length below.now) chains.now }
    ensures { OnOk result ((pairs : List (ℕ × ℕ)) → AreEdges pairs (edges_of below.now)
        → AddsReaching pairs (edges_of holders.now) classes.now chains.now marks.old marks.new) }
{
    let mut rest = classes;
    'classes: while !rest.is_empty() {
        let (block, others) = rest.split_at(rest.len().min(AT_ONCE));
        mark_block(alloc, below, order, holders, block, chains, marks)?;
        rest = others;
    }
    Ok(())
}

/// The same for so few classes that sets of them are numbers.
fn mark_block(
    alloc: Global,
    below: &[Vec<usize>],
    order: &[usize],
    holders: &[Vec<usize>],
    block: &[usize],
    chains: &[(usize, usize)],
    marks: &mut [bool],
) -> Result<(), AllocError>
    requires few { length block.now ≤ 64 }
    requires size { length marks.old ≡ length chains.now }
    requires chains { AreWithin (length below.now) chains.now }
    ensures { OnOk result ((pairs : List (ℕ × ℕ)) → AreEdges pairs (edges_of below.now)
        → AddsReaching pairs (edges_of holders.now) block.now chains.now marks.old marks.new) }
{
    let imposed = block_sets(alloc, below, order, holders, block)?;
    mark_lacking(chains, &imposed, marks);
    Ok(())
}

/// Marks the chains of which the implied property has more in its set than the last.
fn mark_lacking(chains: &[(usize, usize)], imposed: &[u64], marks: &mut [bool])
    requires { length marks.old ≡ length chains.now }
    ensures { (place : ℕ) → place < length chains.now → slice_index_or marks.new place false
        ≡ (slice_index_or marks.old place false || lacks imposed.now (pair_at chains.now place)) }
{
    'chains: for (place, chain) in chains.iter().enumerate() {
        marks[place] |= lacks(imposed, *chain);
    }
}

/// Whether the implied property has in its set what the last one hasn't.
fn lacks(imposed: &[u64], chain: (usize, usize)) -> bool
    ensures { result ≡ lacks imposed.now chain }
{
    let last = set_at(imposed, chain.0);
    set_at(imposed, chain.1) | last != last
}
