//! Trees in an arena, and what they hold.

use owl_arena::{Arena, ExprId, Grow};
use owl_atom::Iri;
use owl_tree::{Atom, Tag};
use std::alloc::Global;
use std::test::Fail;

/// How many numbers are given to an arena.
const NUMBERS: usize = 1_000_000;

fn class(alloc: Global, arena: &mut Arena, iri: &str) -> Result<ExprId, Fail> {
    let iri = Iri::of(alloc, iri)?;
    Ok(arena.leaf(Tag::Class, Atom::Iri(iri))?)
}

/// What comes of a union of classes.
fn union(
    alloc: Global,
    arena: &mut Arena,
    classes: &[ExprId],
) -> Result<Result<ExprId, Grow>, Fail> {
    let mut kids = Vec::new(alloc);
    for class in classes {
        if !arena.holds(*class) {
            return Err(Fail::new("a number of another arena"));
        }
        kids.push(*class)?;
    }
    Ok(arena.node(Tag::ObjectUnionOf, kids))
}

/// What comes of the unions of A and B, of B, A and A, and of nothing, and how
/// many trees there are then.
fn unions(
    alloc: Global,
    arena: &mut Arena,
) -> Result<([Result<ExprId, Grow>; 3], [usize; 2]), Fail> {
    arena.reserve(3)?;
    let a = class(alloc, arena, "http://e/A")?;
    let b = class(alloc, arena, "http://e/B")?;
    let one = union(alloc, arena, &[a, b])?;
    let again = union(alloc, arena, &[b, a, a])?;
    let distinct = arena.distinct();
    let none = union(alloc, arena, &[])?;
    Ok(([one, again, none], [distinct, arena.distinct()]))
}

fn unions_made(alloc: Global) -> Result<([Result<ExprId, Grow>; 3], [usize; 2]), Fail> {
    let mut arena = Arena::new(alloc);
    unions(alloc, &mut arena)
}

#[test]
fn a_union_in_two_orders_is_one_tree(rt: HostRuntime) -> Result<(), Fail> {
    let ([one, again, none], distinct) = unions_made(rt.alloc())?;
    assert!(rt; one.is_ok());
    assert_eq!(rt; one, again);
    assert_eq!(rt; none, Err(Grow::BadShape));
    assert_eq!(rt; distinct, [3, 3]);
    Ok(())
}

/// The numbers of the leaves of the numbers from 0.
fn leaves(alloc: Global, arena: &mut Arena) -> Result<Vec<ExprId>, Fail> {
    let mut ids = Vec::new(alloc);
    for number in 0..NUMBERS {
        ids.push(arena.leaf(Tag::Number, Atom::Number(number as u64))?)?;
    }
    Ok(ids)
}

/// Whether the same leaves have the same numbers again, and how many trees there are.
fn leaves_twice(alloc: Global, arena: &mut Arena) -> Result<(bool, usize), Fail> {
    let first = leaves(alloc, arena)?;
    let second = leaves(alloc, arena)?;
    Ok((first.as_slice() == second.as_slice(), arena.distinct()))
}

fn leaves_made(alloc: Global) -> Result<(bool, usize), Fail> {
    let mut arena = Arena::new(alloc);
    leaves_twice(alloc, &mut arena)
}

#[test]
fn a_million_leaves_are_found_again(rt: HostRuntime) -> Result<(), Fail> {
    assert_eq!(rt; leaves_made(rt.alloc())?, (true, NUMBERS));
    Ok(())
}

fn atom_is_its_copy(alloc: Global) -> Result<bool, Fail> {
    let atom = Atom::Iri(Iri::of(alloc, "http://e/a")?);
    Ok(atom.copy(alloc)? == atom)
}

#[test]
fn a_copy_of_an_atom_is_equal(rt: HostRuntime) -> Result<(), Fail> {
    assert!(rt; atom_is_its_copy(rt.alloc())?);
    Ok(())
}
