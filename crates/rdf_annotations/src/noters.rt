//! By which nodes each triple of a graph is annotated.

ghost use Rattle.std.specs.Prelude.{◌≡◌, ◌+◌, ◌<◌, ℕ, IfOk, List, OnOk, Some, length, slice_get};
ghost use Rattle.indexmap.specs.IndexMap.{IsEmpty};
ghost use Rattle.rdf_graph.specs.declared.triple.Triple.{Triple};
ghost use Rattle.rdf_meaning.specs.Statements.{noters};
ghost use Rattle.rdf_roles.specs.Tables.{RoleTable};
ghost use Rattle.rdf_scans.specs.Sorts.{IsReading};
ghost use Rattle.rdf_annotations.specs.Noters.{AreNoters, AreNotersUpTo, AreNumbersOf, numbers_at, numbers_of, shown, with_number};

use crate::places::annotated_place;
use indexmap::IndexMap;
use owl_characters::NoMemory;
use rdf_scans::Reading;
use std::alloc::{AllocError, Global};
use std::marker::Model;

/// By which nodes each triple of a graph is annotated: the reifications of it
/// that have annotations (Mapping to RDF Graphs, section 2.3). Contracts see the
/// numbers of these nodes, by the place of the triple.
#[derive(Debug, Drop)]
pub struct Noters {
    by_place: IndexMap<usize, Vec<usize>>,
}

impl Model for Noters {
    ghost use Rattle.rdf_annotations.specs.Noters.{NoterTable, shown};

    ghost Value = { NoterTable };

    ghost view = { λ n. shown n.by_place.entries };
}

impl Noters {
    /// The nodes by which the triples of the graph are annotated.
    pub fn of(alloc: Global, reading: &Reading) -> Result<Noters, NoMemory>
        requires { IsReading reading.now }
        ensures { IfOk result (AreNoters reading.now.graph.now reading.now.roles.now) }
    {
        let mut by_place = IndexMap::new(alloc);
        add_all(alloc, reading, &mut by_place)?;
        Ok(Noters { by_place })
    }

    /// The numbers of the nodes by which the triple at this place is annotated, in
    /// ascending order. Takes no memory.
    pub fn at(&self, place: usize) -> &[usize]
        ensures numbers { result.now ≡ numbers_of self.now place }
        ensures noters { (g : List Triple) (roles : RoleTable) (t : Triple)
            → AreNoters g roles self.now → slice_get g place ≡ Some t →
            AreNumbersOf roles (noters g t) result.now }
    {
        numbers_at(&self.by_place, place)
    }
}

/// The numbers that stand at the place.
fn numbers_at(by_place: &IndexMap<usize, Vec<usize>>, place: usize) -> &[usize]
    ensures { result.now ≡ numbers_at by_place.now.entries place }
{
    match by_place.get(&place) {
        Some(numbers) => numbers,
        None => &[],
    }
}

/// Adds the numbers of all nodes that annotate a triple.
fn add_all(
    alloc: Global,
    reading: &Reading,
    by_place: &mut IndexMap<usize, Vec<usize>>,
) -> Result<(), NoMemory>
    requires reading { IsReading reading.now }
    requires empty { IsEmpty by_place.old }
    ensures { OnOk result (AreNoters reading.now.graph.now reading.now.roles.now
        (shown by_place.new.entries)) }
{
    for number in 0..reading.roles.len() {
        add_node(alloc, reading, by_place, number)?;
    }
    Ok(())
}

/// Adds the number of the node, where it annotates a triple.
fn add_node(
    alloc: Global,
    reading: &Reading,
    by_place: &mut IndexMap<usize, Vec<usize>>,
    number: usize,
) -> Result<(), NoMemory>
    requires reading { IsReading reading.now }
    requires number { number < length reading.now.roles.now.nodes }
    requires before { AreNotersUpTo reading.now.graph.now reading.now.roles.now number
        (numbers_at by_place.old.entries) }
    ensures { OnOk result (AreNotersUpTo reading.now.graph.now reading.now.roles.now (number + 1)
        (numbers_at by_place.new.entries)) }
{
    match annotated_place(alloc, reading, number)? {
        Some(place) => add(alloc, by_place, place, number),
        None => Ok(()),
    }
}

/// Puts the number behind those at the place.
fn add(
    alloc: Global,
    by_place: &mut IndexMap<usize, Vec<usize>>,
    place: usize,
    number: usize,
) -> Result<(), NoMemory>
    ensures { OnOk result ((other : ℕ) → numbers_at by_place.new.entries other
        ≡ with_number (numbers_at by_place.old.entries) place number other) }
{
    let entry = by_place.entry(place).map_err(AllocError::from)?;
    let numbers = entry.or_insert(Vec::new(alloc));
    Ok(numbers.push(number).map_err(AllocError::from)?)
}
