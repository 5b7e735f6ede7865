//! Composite properties, and chains that break the order of properties.

ghost use Rattle.std.specs.Prelude.{◌≡◌, ◌<◌, ◌+◌, ◌*◌, true, IfOk, length, map};
ghost use Rattle.std.specs.List.{flat_map};
ghost use Rattle.dl_rules.specs.Hierarchy.{BreaksOrder};
ghost use Rattle.dl_rules.specs.Properties.{IsSimple, chain_of, composites, leads, property_in};
ghost use Rattle.graph_walks.specs.Faults.{IsFault};
ghost use Rattle.graph_walks.specs.Marks.{MarkEach, MarkNumbers};
ghost use Rattle.graph_walks.specs.Walks.{IsReached};
ghost use Rattle.owl_arena.specs.Held.{AreHeld, tree_at, trees_at};
ghost use Rattle.owl_arena.specs.Shared.{AreShared};
ghost use Rattle.owl_breaches.specs.Those.{HoldsOfSome};
ghost use Rattle.property_hierarchy.specs.Listed.{mark_of, node_pairs, nodes_of};
ghost use Rattle.property_hierarchy.specs.Numbers.{below_at, number_of, numbered_pairs};

use crate::builtin::{bottom_number, open_kids, top_number};
use crate::chains::below_by;
use crate::composites::composites_by;
use crate::numbers::{PropertyNumber, property_at};
use crate::steps::{Step, steps_by};
use dl_graphs::group_marks;
use graph_walks::{faults, has_mark, reached};
use owl_arena::{Arena, ExprId};
use owl_characters::NoMemory;
use std::alloc::{AllocError, Global};

/// For each tree of the arena, by its place, whether it is an object property
/// expression that is not simple by these axioms. `NoMemory` comes only where
/// memory runs out.
pub fn composite_properties(
    alloc: Global,
    arena: &Arena,
    axioms: &[ExprId],
) -> Result<Vec<bool>, NoMemory>
    requires axioms { AreHeld arena.now.trees axioms.now }
    ensures { IfOk result (λ marks. MarkNumbers (length arena.now.trees)
        (λ id. HoldsOfSome (λ p. IsSimple (trees_at arena.now.trees axioms.now) p → ⊥)
        (property_in (tree_at arena.now.trees id))) marks.items) }
{
    open_kids(arena);
    let nodes = composite_nodes(alloc, arena, axioms)?;
    Ok(tree_marks(alloc, arena, &nodes)?)
}

/// For each node whether a composite property leads to it.
fn composite_nodes(alloc: Global, arena: &Arena, axioms: &[ExprId]) -> Result<Vec<bool>, AllocError>
    requires axioms { AreHeld arena.now.trees axioms.now }
    ensures { IfOk result (λ marks. MarkNumbers (2 * (length arena.now.trees + 1)) (IsReached
        (node_pairs (numbered_pairs arena.now.trees (leads (trees_at arena.now.trees axioms.now))))
        (nodes_of (map (number_of arena.now.trees)
        (composites (trees_at arena.now.trees axioms.now))))) marks.items) }
{
    let nodes = 2 * (arena.distinct() + 1);
    let steps = steps_by(alloc, arena, axioms)?;
    let starts = composites_by(
        alloc,
        arena,
        axioms,
        top_number(arena),
        bottom_number(arena),
    )?;
    let pairs = step_nodes(alloc, &steps)?;
    let starts = number_nodes(alloc, &starts)?;
    reached(alloc, nodes, &pairs, &starts)
}

/// The nodes of these properties.
fn number_nodes(alloc: Global, numbers: &[PropertyNumber]) -> Result<Vec<usize>, AllocError>
    ensures { IfOk result (λ nodes. nodes.items ≡ nodes_of numbers.now) }
{
    numbers.iter().map(|number| number.node()).collect(alloc)
}

/// The pairs of nodes of these steps.
fn step_nodes(alloc: Global, steps: &[Step]) -> Result<Vec<(usize, usize)>, AllocError>
    ensures { IfOk result (λ pairs. pairs.items ≡ node_pairs steps.now) }
{
    steps
        .iter()
        .map(|step| (step.0.node(), step.1.node()))
        .collect(alloc)
}

/// For each tree whether it is a property whose node has a mark.
fn tree_marks(alloc: Global, arena: &Arena, nodes: &[bool]) -> Result<Vec<bool>, AllocError>
    ensures { IfOk result (λ marks. MarkNumbers (length arena.now.trees)
        (λ id. mark_of arena.now.trees nodes.now
        (property_in (tree_at arena.now.trees id)) ≡ true) marks.items) }
{
    let mut marks = Vec::new(alloc);
    'places: for place in 0..arena.distinct() {
        marks.push(tree_mark(arena, arena.at(place), nodes))?;
    }
    Ok(marks)
}

/// Whether the tree is a property whose node has a mark.
fn tree_mark(arena: &Arena, id: ExprId, nodes: &[bool]) -> bool
    requires shared { AreShared arena.now.trees }
    requires id { id < length arena.now.trees }
    ensures { result
        ≡ mark_of arena.now.trees nodes.now (property_in (tree_at arena.now.trees id)) }
{
    match property_at(arena, id) {
        Some(number) => has_mark(nodes, number.node()),
        None => false,
    }
}

/// For each of these axioms whether it is a chain that breaks the order of
/// properties. `NoMemory` comes only where memory runs out.
pub fn broken_chains(alloc: Global, arena: &Arena, axioms: &[ExprId]) -> Result<Vec<bool>, NoMemory>
    requires axioms { AreHeld arena.now.trees axioms.now }
    ensures { IfOk result (λ marks. MarkEach (λ _ t. HoldsOfSome
        (BreaksOrder (trees_at arena.now.trees axioms.now)) (chain_of t))
        (trees_at arena.now.trees axioms.now) marks.items) }
{
    open_kids(arena);
    let below = below_by(alloc, arena, axioms, top_number(arena))?;
    let marks = fault_marks(alloc, arena, axioms, &below.pairs)?;
    Ok(group_marks(alloc, &below.counts, &marks)?)
}

/// For each of the pairs that chains put below one another whether it is a fault.
fn fault_marks(
    alloc: Global,
    arena: &Arena,
    axioms: &[ExprId],
    below: &[Step],
) -> Result<Vec<bool>, NoMemory>
    requires axioms { AreHeld arena.now.trees axioms.now }
    requires below { below.now
        ≡ numbered_pairs arena.now.trees
        (flat_map below_at (trees_at arena.now.trees axioms.now)) }
    ensures { IfOk result (λ marks. MarkEach (λ _ pair. IsFault
        (node_pairs (numbered_pairs arena.now.trees (leads (trees_at arena.now.trees axioms.now))))
        (node_pairs below.now) pair.0 pair.1) (node_pairs below.now) marks.items) }
{
    if below.is_empty() {
        return Ok(Vec::new(alloc));
    }
    let nodes = 2 * (arena.distinct() + 1);
    let steps = steps_by(alloc, arena, axioms)?;
    let leads = step_nodes(alloc, &steps)?;
    let below = step_nodes(alloc, below)?;
    faults(alloc, nodes, &leads, &below)
}
