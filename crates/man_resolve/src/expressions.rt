//! What annotations and expressions mean.

ghost use Rattle.std.specs.Prelude.{◌≡◌, ◌≤◌, ◌+◌, ◌-◌, IfErr, IfOk, OnOk, drop, length, map};
ghost use Rattle.man_resolve.specs.Building.{AddsKids, AddsTree, AddsTrees, IsFaultOf, leaves};
ghost use Rattle.man_resolve.specs.Items.{parts_of};
ghost use Rattle.man_resolve.specs.Expressions.{all_of, by_property, cardinality, inside, knows, meant, meant_facet, node_of, placed, restriction, shaped, stem, takes, where_takes};

use crate::fault::ResolveFault;
use crate::names::leaf_of;
use crate::place::Place;
use crate::shape::{ByKind, Places, Shape, shape_of};
use crate::step::{Leaf, Step, add, add_leaf, ends_in_data};
use man_raw::{Facet, Raw, What};
use owl_kind::Kinds;
use owl_tree::Tag;

/// Adds what the piece means at the place.
#[cycle(meaning)]
pub fn mean<'a>(
    kinds: &Kinds,
    place: Place,
    raw: &'a Raw,
    steps: &mut Vec<Step<'a>>,
) -> Result<(), ResolveFault>
    ensures added { OnOk result (AddsTree steps.old.items steps.new.items
        (meant (knows kinds.now) raw.now place)) }
    ensures fault { IfErr result (IsFaultOf (meant (knows kinds.now) raw.now place)) }
{
    match &raw.what {
        What::Atom(atom) => {
            let leaf = leaf_of(kinds, place, raw.at, atom)?;
            add(steps, Step::Leaf(leaf))?;
            Ok(())
        }
        What::Facet(facet) => mean_facet(place, raw.at, *facet, steps),
        What::Word(_) => Err(ResolveFault::WrongForm { at: raw.at }),
        What::Form(form) => {
            let shape = shape_of(place, *form);
            mean_shape(kinds, shape, place, raw.at, &raw.parts, steps)
        }
    }
}

fn mean_facet<'a>(
    place: Place,
    at: u64,
    facet: Facet,
    steps: &mut Vec<Step<'a>>,
) -> Result<(), ResolveFault>
    ensures added { OnOk result (AddsTree steps.old.items steps.new.items
        (meant_facet at facet place)) }
    ensures fault { IfErr result (IsFaultOf (meant_facet at facet place)) }
{
    match place {
        Place::Facet => {
            add(steps, Step::Facet(facet))?;
            Ok(())
        }
        _ => Err(ResolveFault::WrongForm { at }),
    }
}

/// Adds what the shape is with these parts.
#[cycle(meaning)]
fn mean_shape<'a>(
    kinds: &Kinds,
    shape: Shape,
    place: Place,
    at: u64,
    parts: &'a [Raw],
    steps: &mut Vec<Step<'a>>,
) -> Result<(), ResolveFault>
    ensures added { OnOk result (AddsTree steps.old.items steps.new.items
        (shaped shape place at (map (meant (knows kinds.now)) parts.now))) }
    ensures fault { IfErr result (IsFaultOf
        (shaped shape place at (map (meant (knows kinds.now)) parts.now))) }
{
    match shape {
        Shape::Inside => mean_inside(kinds, place, at, parts, steps),
        Shape::Over(tag, places) => mean_over(kinds, tag, places, at, parts, steps),
        Shape::Restriction(by) => mean_restriction(kinds, by, at, parts, steps),
        Shape::Cardinality(by) => mean_cardinality(kinds, by, at, parts, steps),
        Shape::Wrong => Err(ResolveFault::WrongForm { at }),
    }
}

/// Adds what the one part means.
#[cycle(meaning)]
fn mean_inside<'a>(
    kinds: &Kinds,
    place: Place,
    at: u64,
    parts: &'a [Raw],
    steps: &mut Vec<Step<'a>>,
) -> Result<(), ResolveFault>
    ensures added { OnOk result (AddsTree steps.old.items steps.new.items
        (inside place at (map (meant (knows kinds.now)) parts.now))) }
    ensures fault { IfErr result (IsFaultOf
        (inside place at (map (meant (knows kinds.now)) parts.now))) }
{
    match parts.split_first() {
        Some((part, [])) => mean(kinds, place, part, steps),
        _ => Err(ResolveFault::WrongForm { at }),
    }
}

/// Adds a node over the parts at these places.
#[cycle(meaning)]
fn mean_over<'a>(
    kinds: &Kinds,
    tag: Tag,
    places: Places,
    at: u64,
    parts: &'a [Raw],
    steps: &mut Vec<Step<'a>>,
) -> Result<(), ResolveFault>
    ensures added { OnOk result (AddsTree steps.old.items steps.new.items
        (shaped (Shape.Over tag places) Place.Class at
        (map (meant (knows kinds.now)) parts.now))) }
    ensures fault { IfErr result (IsFaultOf
        (shaped (Shape.Over tag places) Place.Class at
        (map (meant (knows kinds.now)) parts.now))) }
{
    if !takes(tag, parts.len()) {
        return Err(ResolveFault::WrongForm { at });
    }
    let count = mean_each(kinds, places, parts, 0, steps)?;
    add(steps, Step::Node(tag, count))?;
    Ok(())
}

/// Adds a node over a property and the parts behind it.
#[cycle(meaning)]
fn mean_restriction<'a>(
    kinds: &Kinds,
    by: ByKind,
    at: u64,
    parts: &'a [Raw],
    steps: &mut Vec<Step<'a>>,
) -> Result<(), ResolveFault>
    ensures added { OnOk result (AddsTree steps.old.items steps.new.items
        (node_of (restriction by at (map (meant (knows kinds.now)) parts.now)))) }
    ensures fault { IfErr result (IsFaultOf
        (node_of (restriction by at (map (meant (knows kinds.now)) parts.now)))) }
{
    if !takes(by.object_tag, parts.len()) {
        return Err(ResolveFault::WrongForm { at });
    }
    let (tag, count) = mean_by_property(kinds, by, None, at, parts, 1, steps)?;
    add(steps, Step::Node(tag, count))?;
    Ok(())
}

/// Adds a node over the number behind a property, the property and the other parts.
#[cycle(meaning)]
fn mean_cardinality<'a>(
    kinds: &Kinds,
    by: ByKind,
    at: u64,
    parts: &'a [Raw],
    steps: &mut Vec<Step<'a>>,
) -> Result<(), ResolveFault>
    ensures added { OnOk result (AddsTree steps.old.items steps.new.items
        (node_of (cardinality by at (map (meant (knows kinds.now)) parts.now)))) }
    ensures fault { IfErr result (IsFaultOf
        (node_of (cardinality by at (map (meant (knows kinds.now)) parts.now)))) }
{
    if !takes(by.object_tag, parts.len()) {
        return Err(ResolveFault::WrongForm { at });
    }
    let Some(number) = parts.get(1) else {
        return Err(ResolveFault::WrongForm { at });
    };
    mean(kinds, Place::Number, number, steps)?;
    let (tag, count) = mean_by_property(kinds, by, None, at, parts, 2, steps)?;
    add(steps, Step::Node(tag, count + 1))?;
    Ok(())
}

/// Adds the property, which is the first part, the leaf, and the parts but the first so
/// many; and says of which tag and how many they are the kids.
#[cycle(meaning)]
pub fn mean_by_property<'a>(
    kinds: &Kinds,
    by: ByKind,
    between: Option<Leaf<'a>>,
    at: u64,
    parts: &'a [Raw],
    passed: usize,
    steps: &mut Vec<Step<'a>>,
) -> Result<(Tag, usize), ResolveFault>
    ensures added { IfOk result (λ told. AddsKids steps.old.items steps.new.items told.0 told.1
        (by_property by (leaves between.entry) passed at
        (map (meant (knows kinds.now)) parts.now))) }
    ensures fault { IfErr result (IsFaultOf
        (by_property by (leaves between.entry) passed at
        (map (meant (knows kinds.now)) parts.now))) }
    ensures few { IfOk result (λ told. told.1 ≤ length parts.now + 2) }
{
    let Some(property) = parts.first() else {
        return Err(ResolveFault::WrongForm { at });
    };
    mean(kinds, Place::Property, property, steps)?;
    let (tag, place) = by.of(ends_in_data(steps));
    let given = add_leaf(steps, between)?;
    let others = mean_each(kinds, Places::all(place), parts, passed, steps)?;
    Ok((tag, 1 + given + others))
}

/// Adds the parts at these places, but the first so many, and says how many were added.
#[cycle(meaning)]
pub fn mean_each<'a>(
    kinds: &Kinds,
    places: Places,
    parts: &'a [Raw],
    passed: usize,
    steps: &mut Vec<Step<'a>>,
) -> Result<usize, ResolveFault>
    ensures added { IfOk result (λ count. AddsTrees steps.old.items steps.new.items count
        (all_of (placed places.first places.second places.others
        (drop passed (map (meant (knows kinds.now)) parts.now))))) }
    ensures fault { IfErr result (IsFaultOf
        (all_of (placed places.first places.second places.others
        (drop passed (map (meant (knows kinds.now)) parts.now))))) }
    ensures few { IfOk result (λ count. count ≤ length parts.now) }
{
    let mut place = places.first;
    let mut next = places.second;
    let rest = all_but(parts, passed);
    for part in rest {
        mean(kinds, place, part, steps)?;
        place = next;
        next = places.others;
    }
    Ok(rest.len())
}

/// The parts but the first so many.
fn all_but(parts: &[Raw], passed: usize) -> &[Raw]
    ensures { result.now ≡ drop passed parts.now }
{
    parts.get(passed..).unwrap_or(&[])
}

/// Whether a node with the tag may have so many kids.
pub fn takes(tag: Tag, count: usize) -> bool
    ensures { result ≡ takes tag count }
{
    tag.row().takes_count(count)
}

/// The parts of a piece.
#[tactic(auto, using(crate::proofs::PartLaws::parts_listed))]
pub fn parts_of(raw: &Raw) -> &[Raw]
    ensures { result.now ≡ parts_of raw.now }
{
    &raw.parts
}
