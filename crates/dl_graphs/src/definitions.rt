//! Definitions of datatypes (Structural Specification, section 9.4).

ghost use Rattle.std.specs.Prelude.{◌<◌, length};
ghost use Rattle.dl_rules.specs.Definitions.{definition_of};
ghost use Rattle.owl_arena.specs.Held.{tree_at};
ghost use Rattle.owl_arena.specs.Shared.{AreShared};
ghost use Rattle.dl_graphs.specs.Uses.{IsDefinitionIf};

use owl_arena::{Arena, ExprId};
use owl_tree::Tag;

/// A definition, by the numbers of trees.
#[derive(Clone, Copy, Debug)]
pub struct DefinitionIds {
    pub datatype: ExprId,
    pub range: ExprId,
}

/// The definition that the axiom is, if it is one.
pub fn definition_at(arena: &Arena, id: ExprId) -> Option<DefinitionIds>
    requires shared { AreShared arena.now.trees }
    requires axiom { id < length arena.now.trees }
    ensures { IsDefinitionIf arena.now.trees result (definition_of (tree_at arena.now.trees id)) }
{
    if arena.tag(id) != Tag::DatatypeDefinition {
        return None;
    }
    match arena.kids(id) {
        [_, datatype, range] => Some(DefinitionIds {
            datatype: *datatype,
            range: *range,
        }),
        _ => None,
    }
}
