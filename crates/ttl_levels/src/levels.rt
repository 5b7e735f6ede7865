//! The levels of nestable nodes.

ghost use Rattle.std.specs.Prelude.{◌≡◌, ◌↔◌, ℕ, IfOk, IsTrue, List, Some, length, true, slice_index};
ghost use Rattle.rdf_graph.specs.declared.triple.Triple.{Triple};
ghost use Rattle.rdf_roles.specs.Tables.{IsTableOf};
ghost use Rattle.ttl_levels.specs.Nested.{IsInside, most_levels};
ghost use Rattle.ttl_levels.specs.NestTables.{AreCounts, AreKnownAbove, AreLevels, AreNamed, IsLevelAt, IsLevelFrom};

use crate::cells::is_rest;
use crate::named::Named;
use crate::nestable::is_nestable;
use crate::nodes::{namer, value_of};
use owl_characters::NoMemory;
use rdf_graph::{Graph, Triple};
use rdf_roles::Roles;
use std::alloc::Global;

/// The most levels of brackets and collections.
pub const MOST_LEVELS: usize = 500;

/// The levels of nestable nodes, by the numbers of nodes: 0 where one is not nestable.
pub fn levels_of(
    alloc: Global,
    graph: &Graph,
    roles: &Roles,
    names: &[Named],
    cells: &[usize],
) -> Result<Vec<usize>, NoMemory>
    requires table { IsTableOf graph.now roles.now }
    requires names { AreNamed graph.now graph.now names.now }
    requires cells { AreCounts graph.now cells.now }
    ensures { IfOk result (λ levels. AreLevels graph.now levels.items) }
{
    let mut levels: Vec<usize> = vec![in alloc; 0; roles.len()]?;
    let mut rest = roles.order();
    while let Some((number, front)) = rest.split_last() {
        let level = level_at(graph, roles, names, cells, &levels, *number);
        levels[*number] = level;
        rest = front;
    }
    Ok(levels)
}

/// The level of the node with the number, by the level of the one that leads to it.
fn level_at(
    graph: &Graph,
    roles: &Roles,
    names: &[Named],
    cells: &[usize],
    levels: &[usize],
    number: usize,
) -> usize
    requires table { IsTableOf graph.now roles.now }
    requires names { AreNamed graph.now graph.now names.now }
    requires cells { AreCounts graph.now cells.now }
    requires above { AreKnownAbove graph.now levels.now number }
    ensures { IsLevelAt graph.now number result }
{
    let Some(triple) = namer(graph, names, number) else {
        return 0;
    };
    if !is_nestable(graph, roles, names, &triple.object) {
        return 0;
    }
    if !is_nestable(graph, roles, names, &triple.subject) {
        return 1;
    }
    let above = value_of(roles, levels, &triple.subject);
    next_level(is_inside(roles, cells, triple), above)
}

/// Whether the triple leads from a round node to its rest, which is round.
fn is_inside(roles: &Roles, cells: &[usize], triple: &Triple) -> bool
    ensures { (g : List Triple) → IsTableOf g roles.now → AreCounts g cells.now
        → (IsTrue result ↔ IsInside g triple.now) }
{
    if !is_rest(triple) {
        return false;
    }
    if value_of(roles, cells, &triple.subject) == 0 {
        return false;
    }
    value_of(roles, cells, &triple.object) != 0
}

/// The level below this one.
fn next_level(inside: bool, above: usize) -> usize
    ensures { IsLevelFrom inside above result }
{
    if MOST_LEVELS < above {
        return 1;
    }
    if inside {
        return above;
    }
    above + 1
}
