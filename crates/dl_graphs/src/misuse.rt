//! Datatypes that may not be used.

ghost use Rattle.std.specs.Prelude.{◌≡◌, ◌↔◌, ◌<◌, IfOk, IsTrue, List, codes, length};
ghost use Rattle.dl_rules.specs.Definitions.{is_given};
ghost use Rattle.dl_rules.specs.Local.{HasMisusedDatatype};
ghost use Rattle.graph_walks.specs.Marks.{MarkNumbers};
ghost use Rattle.owl_arena.specs.Held.{AreHeld, tree_at, trees_at};
ghost use Rattle.owl_characters.specs.Order.{text_eq};
ghost use Rattle.owl_tree.specs.Trees.{Tree};
ghost use Rattle.rdf_terms.specs.Vocabulary.{rdfs};
ghost use Rattle.dl_graphs.specs.Ranges.{AreRanges, is_misused};

use crate::leaves::used_datatype;
use crate::ranges::{DefinedRange, note_definitions, range_of};
use indexmap::IndexMap;
use owl_arena::{Arena, ExprId};
use owl_characters::NoMemory;
use rdf_terms::{Iri, in_map, rdfs, reserved};
use std::alloc::{AllocError, Global};

/// For each tree of the arena, by its place, whether it names a datatype, or holds
/// a literal of one, that may not be used. `NoMemory` comes only where memory runs
/// out.
///
/// The time grows with the size of the arena and the number of axioms.
pub fn misused_datatypes(
    alloc: Global,
    arena: &Arena,
    axioms: &[ExprId],
) -> Result<Vec<bool>, NoMemory>
    requires axioms { AreHeld arena.now.trees axioms.now }
    ensures { IfOk result (λ marks. let axs = trees_at arena.now.trees axioms.now in
        MarkNumbers (length arena.now.trees)
        (λ id. HasMisusedDatatype axs (tree_at arena.now.trees id)) marks.items) }
{
    let trees = arena.distinct();
    let mut table = IndexMap::new(alloc);
    note_definitions(alloc, arena, axioms, &mut table)?;
    Ok(misused_marks(alloc, arena, trees, &table)?)
}

/// For each of so many trees whether it has a datatype that may not be used, by the
/// table of definitions.
fn misused_marks(
    alloc: Global,
    arena: &Arena,
    trees: usize,
    table: &IndexMap<Iri, DefinedRange>,
) -> Result<Vec<bool>, AllocError>
    requires trees { trees ≡ length arena.now.trees }
    ensures { IfOk result (λ marks. (axs : List Tree)
        → AreRanges arena.now.trees axs table.now.entries → MarkNumbers trees
        (λ id. HasMisusedDatatype axs (tree_at arena.now.trees id)) marks.items) }
{
    let mut marks = Vec::new(alloc);
    for place in 0..trees {
        marks.push(has_misused(arena, arena.at(place), table))?;
    }
    Ok(marks)
}

/// Whether the tree has a datatype that may not be used.
fn has_misused(arena: &Arena, id: ExprId, table: &IndexMap<Iri, DefinedRange>) -> bool
    requires { id < length arena.now.trees }
    ensures { (axs : List Tree) → AreRanges arena.now.trees axs table.now.entries
        → IsTrue result ↔ HasMisusedDatatype axs (tree_at arena.now.trees id) }
{
    match used_datatype(arena, id) {
        Some(iri) => is_misused(iri, range_of(table, iri)),
        None => false,
    }
}

/// Whether a datatype with this range, if it is defined, may not be used.
fn is_misused(iri: &Iri, defined: Option<DefinedRange>) -> bool
    ensures { result ≡ is_misused iri.now defined }
{
    match defined {
        Some(defined) => is_given(iri) || reserved(iri) || !defined.is_only(),
        None => !is_given(iri),
    }
}

/// Whether the datatype is `rdfs:Literal`, or one of the datatype map.
fn is_given(iri: &Iri) -> bool
    ensures { result ≡ is_given iri.now }
{
    is_rdfs_literal(iri) || in_map(iri)
}

/// Whether the datatype is `rdfs:Literal`.
fn is_rdfs_literal(iri: &Iri) -> bool
    ensures { result ≡ text_eq iri.now (rdfs (codes "Literal")) }
{
    iri.is(rdfs!("Literal"))
}
