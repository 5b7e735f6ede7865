//! The properties of keys.

ghost use Rattle.std.specs.Prelude.{IfOk, IfSome, IsNone, IsTrue, not};
ghost use Rattle.rdf_faults.specs.Asked.{IsListOf, is_key};
ghost use Rattle.rdf_roles.specs.Refusals.{AreNodesFormed};
ghost use Rattle.rdf_roles.specs.Tables.{IsTableOf};
ghost use Rattle.rdf_statements.specs.Forms.{AreKeyOperands, IsKeyAdded};

use owl_characters::NoMemory;
use owl_tree::Sort;
use rdf_graph::Term;
use rdf_nodes::{Operand, Source};
use rdf_rows::is_nil;
use std::alloc::AllocError;

/// The properties of a key: those of objects and those of data, each in order.
#[derive(Debug, Drop)]
pub(crate) struct KeyOperands {
    pub of_objects: Vec<Operand>,
    pub of_data: Vec<Operand>,
}

/// The elements of the list, where each is an object property expression or else a
/// data property. A list has no more cells than the graph has triples.
pub(crate) fn keys_of(source: &Source, list: &Term) -> Result<Option<KeyOperands>, NoMemory>
    requires { IsTableOf source.now.graph.now source.now.roles.now }
    ensures keys { IfOk result (λ found. IfSome found (λ keys.
        AreKeyOperands source.now.graph.now source.now.kinds.now source.now.roles.now list.now
        keys.of_objects.items keys.of_data.items)) }
    ensures none { AreNodesFormed source.now.graph.now → IfOk result (λ found. IsNone found →
        IsListOf source.now.graph.now (is_key source.now.graph.now source.now.kinds.now) 0
        list.now → ⊥) }
{
    let mut keys = KeyOperands {
        of_objects: Vec::new(source.alloc),
        of_data: Vec::new(source.alloc),
    };
    let mut rest = list;
    for count in 0..source.graph.len() + 1 {
        let Some((first, behind)) = source.cell(rest) else {
            return if is_nil(rest) {
                Ok(Some(keys))
            } else {
                Ok(None)
            };
        };
        if !add_key(source, &mut keys, first)? {
            return Ok(None);
        }
        rest = behind;
    }
    Ok(None)
}

/// Adds the property, and tells whether it is one.
fn add_key(source: &Source, keys: &mut KeyOperands, term: &Term) -> Result<bool, NoMemory>
    requires { IsTableOf source.now.graph.now source.now.roles.now }
    ensures added { IfOk result (λ added. IsTrue added →
        IsKeyAdded source.now.graph.now source.now.kinds.now source.now.roles.now term.now
        keys.old.of_objects.items keys.old.of_data.items keys.new.of_objects.items
        keys.new.of_data.items) }
    ensures none { IfOk result (λ added. IsTrue (not added) →
        IsTrue (is_key source.now.graph.now source.now.kinds.now term.now) → ⊥) }
{
    if let Some(key) = source.operand(Sort::ObjectPropertyExpression, term)? {
        keys.of_objects.push(key).map_err(AllocError::from)?;
        return Ok(true);
    }
    if let Some(key) = source.operand(Sort::DataPropertyExpression, term)? {
        keys.of_data.push(key).map_err(AllocError::from)?;
        return Ok(true);
    }
    Ok(false)
}
