//! Assertions between anonymous individuals that are no forest.

ghost use Rattle.std.specs.Prelude.{◌≡◌, IfOk, map};
ghost use Rattle.dl_rules.specs.Assertions.{ClosesRing, link_of, links};
ghost use Rattle.graph_walks.specs.Marks.{MarkEach};
ghost use Rattle.owl_arena.specs.Held.{AreHeld, trees_at};
ghost use Rattle.owl_breaches.specs.Those.{HoldsOfSome};
ghost use Rattle.dl_graphs.specs.Links.{mark_at};

use crate::links::links_by;
use crate::pairs::ring_marks;
use graph_walks::has_mark;
use owl_arena::{Arena, ExprId};
use owl_characters::NoMemory;
use std::alloc::{AllocError, Global};

/// For each of these axioms of one ontology whether it is an assertion between
/// anonymous individuals that closes a ring: whether others join its individuals.
/// `NoMemory` comes only where memory runs out.
///
/// The time grows with the size of the arena and the number of axioms.
pub fn ring_assertions(
    alloc: Global,
    arena: &Arena,
    axioms: &[ExprId],
) -> Result<Vec<bool>, NoMemory>
    requires axioms { AreHeld arena.now.trees axioms.now }
    ensures { IfOk result (λ marks. let axs = trees_at arena.now.trees axioms.now in
        MarkEach (λ _ t. HoldsOfSome (ClosesRing (links axs)) (link_of t)) axs marks.items) }
{
    let nodes = arena.distinct();
    let links = links_by(alloc, arena, axioms)?;
    let marks = ring_marks(alloc, nodes, &links.ends)?;
    Ok(marks_at(alloc, &links.places, &marks)?)
}

/// The marks in these places.
fn marks_at(
    alloc: Global,
    places: &[Option<usize>],
    marks: &[bool],
) -> Result<Vec<bool>, AllocError>
    ensures { IfOk result (λ found. found.items ≡ map (mark_at marks.now) places.now) }
{
    places
        .iter()
        .map(|place| mark_at(marks, *place))
        .collect(alloc)
}

/// The mark in this place: false, where there is none.
fn mark_at(marks: &[bool], place: Option<usize>) -> bool
    ensures { result ≡ mark_at marks.now place }
{
    match place {
        Some(place) => has_mark(marks, place),
        None => false,
    }
}
