//! The ranges of datatypes, by their definitions.

ghost use Rattle.std.specs.Prelude.{◌≡◌, ◌<◌, OnOk, [], length};
ghost use Rattle.std.specs.Map.{lookup};
ghost use Rattle.dl_rules.specs.Definitions.{definition_of};
ghost use Rattle.owl_arena.specs.Held.{AreHeld, tree_at, trees_at};
ghost use Rattle.owl_arena.specs.Shared.{AreShared};
ghost use Rattle.owl_characters.specs.Order.{text_eq};
ghost use Rattle.dl_graphs.specs.Ranges.{AreRanges, NotesDefinition, NotesRange, ranged};

use crate::definitions::definition_at;
use crate::leaves::datatype_at;
use indexmap::IndexMap;
use owl_arena::{Arena, ExprId};
use owl_characters::NoMemory;
use rdf_terms::Iri;
use std::alloc::{AllocError, Global};

/// What the definitions of a datatype give as its range.
#[derive(Clone, Copy, Debug)]
pub struct DefinedRange {
    /// What the first of them gives.
    range: ExprId,
    /// Whether all of them give it.
    is_only: bool,
}

impl DefinedRange {
    /// Whether all definitions of the datatype give one range.
    pub fn is_only(self) -> bool
        ensures { result ≡ self.is_only }
    {
        self.is_only
    }
}

/// Notes the definitions among these axioms in a table without entries.
pub fn note_definitions(
    alloc: Global,
    arena: &Arena,
    axioms: &[ExprId],
    table: &mut IndexMap<Iri, DefinedRange>,
) -> Result<(), NoMemory>
    requires shared { AreShared arena.now.trees }
    requires axioms { AreHeld arena.now.trees axioms.now }
    requires none { table.old.entries ≡ [] }
    ensures { OnOk result (AreRanges arena.now.trees (trees_at arena.now.trees axioms.now)
        table.new.entries) }
{
    'axioms: for id in axioms {
        note_definition(alloc, arena, *id, table)?;
    }
    Ok(())
}

/// Notes the definition that the axiom is, if it is one.
fn note_definition(
    alloc: Global,
    arena: &Arena,
    id: ExprId,
    table: &mut IndexMap<Iri, DefinedRange>,
) -> Result<(), NoMemory>
    requires shared { AreShared arena.now.trees }
    requires axiom { id < length arena.now.trees }
    ensures { OnOk result (NotesDefinition arena.now.trees
        (definition_of (tree_at arena.now.trees id)) table.old.entries table.new.entries) }
{
    let Some(ids) = definition_at(arena, id) else {
        return Ok(());
    };
    if let Some(iri) = datatype_at(arena, ids.datatype) {
        let iri = iri.copy(alloc)?;
        note_range(table, iri, ids.range)?;
    }
    Ok(())
}

/// Notes that a definition gives the datatype this range.
fn note_range(
    table: &mut IndexMap<Iri, DefinedRange>,
    iri: Iri,
    range: ExprId,
) -> Result<(), AllocError>
    ensures { OnOk result (NotesRange iri range table.old.entries table.new.entries) }
{
    let defined = ranged(range_of(table, &iri), range);
    table.insert(iri, defined)?;
    Ok(())
}

/// The range of the datatype, where one more definition gives this one.
fn ranged(known: Option<DefinedRange>, range: ExprId) -> DefinedRange
    ensures { result ≡ ranged known range }
{
    match known {
        Some(known) => DefinedRange {
            range: known.range,
            is_only: known.is_only && known.range == range,
        },
        None => DefinedRange {
            range,
            is_only: true,
        },
    }
}

/// The range of the datatype, if it is defined.
pub fn range_of(table: &IndexMap<Iri, DefinedRange>, iri: &Iri) -> Option<DefinedRange>
    ensures { result ≡ lookup (text_eq iri.now) table.now.entries }
{
    table.get(iri).copied()
}
