//! Arenas that are put into one.

ghost use Rattle.std.specs.Prelude.{◌≡◌, ◌<◌, IfOk, OnOk, length, map, take};
ghost use Rattle.std.specs.List.{AllByRecursion};
ghost use Rattle.owl_arena.specs.Held.{AreHeld, node_over, tree_at};
ghost use Rattle.owl_arena.specs.Shared.{IsEntry};
ghost use Rattle.owl_doc.specs.Documents.{ontology_of};
ghost use Rattle.owl_pool.specs.Pooling.{AreNumbers, ArePooled, Grows, IsPooled, IsPoured, number_at};
ghost use Rattle.owl_tree.specs.Trees.{leaf};

use crate::pooled::Pooled;
use owl_arena::{Arena, ExprId, Grow};
use owl_characters::NoMemory;
use owl_doc::Doc;
use owl_tree::{Atom, Tag};
use std::alloc::{AllocError, Global};

/// Puts the trees of the documents into one arena, with the numbers there of what each
/// of them says.
///
/// `NoMemory` also where there would be more than 2^28 trees.
pub fn pool(alloc: Global, docs: &[Doc]) -> Result<(Arena, Vec<Pooled>), NoMemory>
    ensures { IfOk result (λ pooled.
        ArePooled pooled.0.trees (map ontology_of docs.now) pooled.1.items) }
{
    let mut pool = Arena::new(alloc);
    let pooled = pour_all(alloc, docs, &mut pool)?;
    Ok((pool, pooled))
}

/// Puts the trees of the documents into the pool.
fn pour_all(alloc: Global, docs: &[Doc], pool: &mut Arena) -> Result<Vec<Pooled>, NoMemory>
    ensures { IfOk result (λ pooled.
        ArePooled pool.new.trees (map ontology_of docs.now) pooled.items) }
{
    let mut pooled = Vec::with_capacity(alloc, docs.len())?;
    'docs: for doc in docs {
        let poured = pour_doc(alloc, doc, pool)?;
        pooled.push(poured).map_err(AllocError::from)?;
    }
    Ok(pooled)
}

/// Puts the trees of the document into the pool.
fn pour_doc(alloc: Global, doc: &Doc, pool: &mut Arena) -> Result<Pooled, NoMemory>
    ensures grows { OnOk result (Grows pool.old.trees pool.new.trees) }
    ensures pooled { IfOk result (IsPooled pool.new.trees (ontology_of doc.now)) }
{
    let numbers = pour(alloc, doc.arena(), pool)?;
    Ok(Pooled {
        notes: renumbered(alloc, doc.notes(), &numbers)?,
        axioms: renumbered(alloc, doc.axioms(), &numbers)?,
    })
}

/// Puts the trees of the arena into the pool. The number there of each of them.
fn pour(alloc: Global, arena: &Arena, pool: &mut Arena) -> Result<Vec<ExprId>, NoMemory>
    ensures grows { OnOk result (Grows pool.old.trees pool.new.trees) }
    ensures numbers { IfOk result (λ numbers.
        AreNumbers pool.new.trees numbers.items arena.now.trees) }
{
    let count = arena.distinct();
    let mut numbers = Vec::with_capacity(alloc, count)?;
    'places: for place in 0..count {
        let number = pour_tree(alloc, arena, arena.at(place), &numbers, pool)?;
        numbers.push(number).map_err(AllocError::from)?;
    }
    Ok(numbers)
}

/// Puts the tree into the pool, where those before it have these numbers. Its number
/// there.
fn pour_tree(
    alloc: Global,
    arena: &Arena,
    id: ExprId,
    numbers: &[ExprId],
    pool: &mut Arena,
) -> Result<ExprId, NoMemory>
    requires id { id < length arena.now.trees }
    requires numbers { AreNumbers pool.old.trees numbers.now (take id arena.now.trees) }
    ensures { IfOk result
        (IsPoured pool.old.trees pool.new.trees (tree_at arena.now.trees id)) }
{
    // What every arena holds is canonical and within the limits.
    let _trees = arena.distinct();
    let tag = arena.tag(id);
    match arena.atom(id) {
        Some(atom) => hold_leaf(pool, tag, atom.copy(alloc)?),
        None => {
            let kids = renumbered(alloc, arena.kids(id), numbers)?;
            hold_node(pool, tag, kids)
        }
    }
}

/// The number of the leaf in the pool.
fn hold_leaf(pool: &mut Arena, tag: Tag, atom: Atom) -> Result<ExprId, NoMemory>
    requires { IsEntry (leaf tag atom) }
    ensures { IfOk result (IsPoured pool.old.trees pool.new.trees (leaf tag atom)) }
{
    match pool.leaf(tag, atom) {
        Ok(number) => Ok(number),
        Err(Grow::TooMany | Grow::Memory) => Err(NoMemory),
        Err(Grow::BadShape) => unreachable!(),
        Err(Grow::TooDeep) => unreachable!(),
        Err(Grow::TooHeavy) => unreachable!(),
    }
}

/// The number of the node in the pool.
fn hold_node(pool: &mut Arena, tag: Tag, kids: Vec<ExprId>) -> Result<ExprId, NoMemory>
    requires held { AreHeld pool.old.trees kids.items }
    requires entry { IsEntry (node_over pool.old.trees tag kids.items) }
    ensures { IfOk result
        (IsPoured pool.old.trees pool.new.trees (node_over pool.old.trees tag kids.items)) }
{
    match pool.node(tag, kids) {
        Ok(number) => Ok(number),
        Err(Grow::TooMany | Grow::Memory) => Err(NoMemory),
        Err(Grow::BadShape) => unreachable!(),
        Err(Grow::TooDeep) => unreachable!(),
        Err(Grow::TooHeavy) => unreachable!(),
    }
}

/// The numbers that stand at these places.
fn renumbered(alloc: Global, places: &[ExprId], numbers: &[ExprId]) -> Result<Vec<ExprId>, NoMemory>
    requires { AllByRecursion (λ place. place < length numbers.now) places.now }
    ensures { IfOk result (λ found. found.items ≡ map (number_at numbers.now) places.now) }
{
    let mut found = Vec::with_capacity(alloc, places.len())?;
    'places: for id in places {
        found.push(numbers[id.place()]).map_err(AllocError::from)?;
    }
    Ok(found)
}
