//! The places of triples in the order of their objects.

ghost use Rattle.std.specs.Prelude.{◌≡◌, ◌↔◌, ◌<◌, ◌≤◌, ℕ, length, Contains, IfOk, IfSome, IsNone, IsTrue, Some};
ghost use Rattle.std.specs.List.Sorted.{IsPermutation, IsSorted};
ghost use Rattle.std.specs.Option.{option_cmp, option_copied};
ghost use Rattle.rdf_graph.specs.ByObject.{IsCountBefore, IsIndex, is_before, place_cmp};
ghost use Rattle.rdf_graph.specs.Graphs.{HasNoneWith, IsNextWith, most_triples, object_at};
ghost use Rattle.rdf_graph.specs.Terms.{term_cmp};

use crate::ranks::Fronts;
use crate::term::Term;
use crate::triple::Triple;
use owl_list::sort_by_ranks;
use std::alloc::{AllocError, Global};
use std::cmp::Ordering;

/// The places of all triples, by object and then by place.
pub fn places_by_object(alloc: Global, triples: &[Triple]) -> Result<Vec<u32>, AllocError>
    requires { length triples.now ≤ most_triples }
    ensures { IfOk result (λ places. IsIndex triples.now places.items) }
{
    let mut places = all_places(alloc, triples)?;
    order_by_ranks(triples, &Fronts::of_objects(triples), &mut places);
    // What is in order already is only gone through.
    order(triples, &mut places);
    Ok(places)
}

/// The next place, from this one on, of a triple with this object.
pub fn next_place(triples: &[Triple], places: &[u32], object: &Term, from: usize) -> Option<usize>
    requires { IsIndex triples.now places.now }
    ensures some { IfSome result (λ place. IsNextWith triples.now object.now from place) }
    ensures none { IsNone result ↔ HasNoneWith triples.now object.now from }
{
    let place = *places.get(count_before(triples, places, object, from))? as usize;
    if has_object(triples, place, object) {
        Some(place)
    } else {
        None
    }
}

/// The next place, from this one on, of a triple with this object, one triple
/// after the other.
pub fn next_with(triples: &[Triple], object: &Term, from: usize) -> Option<usize>
    ensures some { IfSome result (λ place. IsNextWith triples.now object.now from place) }
    ensures none { IsNone result ↔ HasNoneWith triples.now object.now from }
{
    for place in from..triples.len() {
        if has_object(triples, place, object) {
            return Some(place);
        }
    }
    None
}

/// Whether the triple at this place has this object.
fn has_object(triples: &[Triple], place: usize, object: &Term) -> bool
    requires { place < length triples.now }
    ensures { IsTrue result ↔ (object_at triples.now place ≡ Some object.now) }
{
    triples[place].object == *object
}

/// How many places have a lesser object than this one, or this one and are
/// before `from`.
fn count_before(triples: &[Triple], places: &[u32], object: &Term, from: usize) -> usize
    requires { IsSorted (place_cmp triples.now) places.now }
    ensures { IsCountBefore triples.now places.now object.now from result }
{
    places.partition_point(|place| is_before(triples, *place as usize, object, from))
}

/// The places of all triples.
fn all_places(alloc: Global, triples: &[Triple]) -> Result<Vec<u32>, AllocError>
    requires { length triples.now ≤ most_triples }
    ensures { IfOk result (λ places. (place : ℕ)
        → Contains places.items place ↔ (place < length triples.now)) }
{
    let mut places = Vec::with_capacity(alloc, triples.len())?;
    for place in 0..triples.len() as u32 {
        places.push(place)?;
    }
    Ok(places)
}

/// Puts places in about the order of their objects, where there is memory for it.
fn order_by_ranks(triples: &[Triple], fronts: &Fronts, places: &mut Vec<u32>)
    ensures { IsPermutation places.old.items places.new.items }
{
    sort_by_ranks(
        places,
        |place| rank_at(triples, fronts, *place as usize),
        |a, b| compare(triples, *a as usize, *b as usize),
    );
}

/// The rank of the object of the triple at this place; 0 where none stands there.
fn rank_at(triples: &[Triple], fronts: &Fronts, place: usize) -> u128 {
    match triples.get(place) {
        Some(triple) => fronts.rank(&triple.object),
        None => 0,
    }
}

/// Puts places in order, by object and then by place.
fn order(triples: &[Triple], places: &mut Vec<u32>)
    ensures moved { IsPermutation places.old.items places.new.items }
    ensures sorted { IsSorted (place_cmp triples.now) places.new.items }
{
    places.sort_unstable_by(|a, b| compare(triples, *a as usize, *b as usize));
}

/// The order of places: by object, those of no triple first, and then by place.
fn compare(triples: &[Triple], a: usize, b: usize) -> Ordering
    ensures { result ≡ place_cmp triples.now a b }
{
    compare_objects(object_at(triples, a), object_at(triples, b)).then(a.cmp(&b))
}

/// Whether the place has a lesser object than this one, or this one and is
/// before `from`.
fn is_before(triples: &[Triple], place: usize, object: &Term, from: usize) -> bool
    ensures { result ≡ is_before triples.now object.now from place }
{
    compare_objects(object_at(triples, place), Some(object))
        .then(place.cmp(&from))
        .is_lt()
}

fn compare_objects(a: Option<&Term>, b: Option<&Term>) -> Ordering
    ensures { result ≡ option_cmp term_cmp (option_copied a.entry) (option_copied b.entry) }
{
    a.cmp(&b)
}

/// The object of the triple at this place, where one stands there.
fn object_at(triples: &[Triple], place: usize) -> Option<&Term>
    ensures { option_copied result ≡ object_at triples.now place }
{
    triples.get(place).map(|triple| &triple.object)
}
