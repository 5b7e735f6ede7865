//! The kids that a term gives.

ghost use Rattle.std.specs.Prelude.{◌≡◌, ◌≤◌, ◌↔◌, ◌∷◌, ◌++◌, [], IfOk, IfSome, IsNone, IsTrue, length, map, true};
ghost use Rattle.rdf_faults.specs.Asked.{IsMet};
ghost use Rattle.rdf_meaning.specs.declared.row.Want.TheVariants.{Declared, Keys, Many, One, Whole};
ghost use Rattle.rdf_roles.specs.Refusals.{AreNodesFormed};
ghost use Rattle.rdf_roles.specs.Tables.{IsTableOf};
ghost use Rattle.rdf_statements.specs.declared.form.Kid.TheVariants as kid;
ghost use Rattle.rdf_statements.specs.Forms.{GivesKids, is_told};

use crate::form::Kid;
use crate::keys::{KeyOperands, keys_of};
use owl_characters::NoMemory;
use owl_tree::{Atom, Sort, Tag};
use rdf_asked::is_declared;
use rdf_graph::Term;
use rdf_meaning::Want;
use rdf_nodes::{Operand, Source};
use rdf_rows::is_true;
use std::alloc::{AllocError, Global};

/// The kids that the term gives where this is wanted.
pub(crate) fn kids_of_term(
    source: &Source,
    want: Want,
    term: &Term,
) -> Result<Option<Vec<Kid>>, NoMemory>
    requires { IsTableOf source.now.graph.now source.now.roles.now }
    ensures kids { IfOk result (λ found. IfSome found (λ kids.
        GivesKids source.now.graph.now source.now.kinds.now source.now.roles.now term.now want
        kids.items)) }
    ensures none { AreNodesFormed source.now.graph.now → is_told want ≡ true →
        IfOk result (λ found. IsNone found →
        IsMet source.now.graph.now source.now.kinds.now want term.now → ⊥) }
{
    match want {
        Want::One(sort) => one(source, sort, term),
        Want::Many(sort, least) => many(source, sort, least, term),
        Want::Whole(tag, sort, least) => whole(source, tag, sort, least, term),
        Want::Keys => keys(source, term),
        Want::Declared(tag) => declared(source, tag, term),
        Want::Mark => Ok(Some(Vec::new(source.alloc))),
        Want::True => {
            if !is_true(term) {
                return Ok(None);
            }
            Ok(Some(Vec::new(source.alloc)))
        }
    }
}

/// The kid where one tree of the sort is wanted.
fn one(source: &Source, sort: Sort, term: &Term) -> Result<Option<Vec<Kid>>, NoMemory>
    requires { IsTableOf source.now.graph.now source.now.roles.now }
    ensures kids { IfOk result (λ found. IfSome found (λ kids.
        GivesKids source.now.graph.now source.now.kinds.now source.now.roles.now term.now
        (One sort) kids.items)) }
    ensures none { AreNodesFormed source.now.graph.now → is_told (One sort) ≡ true →
        IfOk result (λ found. IsNone found →
        IsMet source.now.graph.now source.now.kinds.now (One sort) term.now → ⊥) }
{
    let Some(operand) = source.operand(sort, term)? else {
        return Ok(None);
    };
    Ok(Some(only(source.alloc, Kid::One(operand))?))
}

/// The kids where a list of so many is wanted.
fn many(
    source: &Source,
    sort: Sort,
    least: usize,
    list: &Term,
) -> Result<Option<Vec<Kid>>, NoMemory>
    requires { IsTableOf source.now.graph.now source.now.roles.now }
    ensures kids { IfOk result (λ found. IfSome found (λ kids.
        GivesKids source.now.graph.now source.now.kinds.now source.now.roles.now list.now
        (Many sort least) kids.items)) }
    ensures none { AreNodesFormed source.now.graph.now → is_told (Many sort least) ≡ true →
        IfOk result (λ found. IsNone found →
        IsMet source.now.graph.now source.now.kinds.now (Many sort least) list.now → ⊥) }
{
    let Some(elements) = source.elements(sort, list)? else {
        return Ok(None);
    };
    if elements.len() < least {
        return Ok(None);
    }
    Ok(Some(ones(source.alloc, elements)?))
}

/// The kid where such a list is wanted as one kid with the tag.
fn whole(
    source: &Source,
    tag: Tag,
    sort: Sort,
    least: usize,
    list: &Term,
) -> Result<Option<Vec<Kid>>, NoMemory>
    requires { IsTableOf source.now.graph.now source.now.roles.now }
    ensures kids { IfOk result (λ found. IfSome found (λ kids.
        GivesKids source.now.graph.now source.now.kinds.now source.now.roles.now list.now
        (Whole tag sort least) kids.items)) }
    ensures none { AreNodesFormed source.now.graph.now → is_told (Whole tag sort least) ≡ true →
        IfOk result (λ found. IsNone found →
        IsMet source.now.graph.now source.now.kinds.now (Whole tag sort least) list.now → ⊥) }
{
    let Some(elements) = source.elements(sort, list)? else {
        return Ok(None);
    };
    if elements.len() < least {
        return Ok(None);
    }
    Ok(Some(only(source.alloc, Kid::Group(tag, elements))?))
}

/// The kids where a list of one or more properties that are a key is wanted.
fn keys(source: &Source, list: &Term) -> Result<Option<Vec<Kid>>, NoMemory>
    requires { IsTableOf source.now.graph.now source.now.roles.now }
    ensures kids { IfOk result (λ found. IfSome found (λ kids.
        GivesKids source.now.graph.now source.now.kinds.now source.now.roles.now list.now Keys
        kids.items)) }
    ensures none { AreNodesFormed source.now.graph.now → is_told Keys ≡ true →
        IfOk result (λ found. IsNone found →
        IsMet source.now.graph.now source.now.kinds.now Keys list.now → ⊥) }
{
    let Some(keys) = keys_of(source, list)? else {
        return Ok(None);
    };
    if !has_key(&keys) {
        return Ok(None);
    }
    let KeyOperands {
        of_objects,
        of_data,
    } = keys;
    let objects = Kid::Group(Tag::ObjectKeys, of_objects);
    let data = Kid::Group(Tag::DataKeys, of_data);
    Ok(Some(both(source.alloc, objects, data)?))
}

/// Whether there is a property.
fn has_key(keys: &KeyOperands) -> bool
    ensures { IsTrue result
        ↔ (1 ≤ length (keys.now.of_objects.items ++ keys.now.of_data.items)) }
{
    if keys.of_objects.is_empty() {
        !keys.of_data.is_empty()
    } else {
        true
    }
}

/// The kid where an entity that is declared is wanted.
fn declared(source: &Source, tag: Tag, term: &Term) -> Result<Option<Vec<Kid>>, NoMemory>
    ensures kids { IfOk result (λ found. IfSome found (λ kids.
        GivesKids source.now.graph.now source.now.kinds.now source.now.roles.now term.now
        (Declared tag) kids.items)) }
    ensures none { AreNodesFormed source.now.graph.now → is_told (Declared tag) ≡ true →
        IfOk result (λ found. IsNone found →
        IsMet source.now.graph.now source.now.kinds.now (Declared tag) term.now → ⊥) }
{
    let Term::Iri(iri) = term else {
        return Ok(None);
    };
    if !is_declared(source.kinds, tag, term) {
        return Ok(None);
    }
    let atom = Atom::Iri(iri.copy(source.alloc)?);
    let kid = Kid::One(Operand::Leaf(tag, atom));
    Ok(Some(only(source.alloc, kid)?))
}

/// The kid alone.
fn only(alloc: Global, kid: Kid) -> Result<Vec<Kid>, NoMemory>
    ensures { IfOk result (λ kids. kids.items ≡ kid ∷ []) }
{
    let mut kids = Vec::new(alloc);
    kids.push(kid).map_err(AllocError::from)?;
    Ok(kids)
}

/// The two kids.
fn both(alloc: Global, first: Kid, second: Kid) -> Result<Vec<Kid>, NoMemory>
    ensures { IfOk result (λ kids. kids.items ≡ first ∷ second ∷ []) }
{
    let mut kids = Vec::new(alloc);
    kids.push(first).map_err(AllocError::from)?;
    kids.push(second).map_err(AllocError::from)?;
    Ok(kids)
}

/// The operands as kids.
fn ones(alloc: Global, operands: Vec<Operand>) -> Result<Vec<Kid>, NoMemory>
    ensures { IfOk result (λ kids. kids.items ≡ map kid.One operands.items) }
{
    Ok(
        operands
            .into_iter()
            .map(|operand| Kid::One(operand))
            .collect(alloc)?,
    )
}
