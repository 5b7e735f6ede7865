//! What is asked of the nodes and triples of a graph before anything is made of
//! them.

ghost use Rattle.std.specs.Prelude.{◌≡◌, ◌⊎◌, ◌<◌, IfErr, IfSome, OnOk, length, slice_get};
ghost use Rattle.rdf_meaning.specs.Kinds.{HaveNoClash};
ghost use Rattle.rdf_scans.specs.Sorts.{IsReading};
ghost use Rattle.rdf_reverse.specs.declared.fault.ReverseFault.TheVariants.{Memory, Untyped};
ghost use Rattle.rdf_reverse.specs.Clear.{AreScanned, AreTyped};
ghost use Rattle.rdf_reverse.specs.Faults.{IsClashFault};
ghost use Rattle.rdf_reverse.specs.Reverse.{IsFoundBy, scanning, typing};

use crate::fault::ReverseFault;
use owl_characters::NoMemory;
use owl_kind::Kinds;
use rdf_asked::{Source, untyped_in};
use rdf_graph::Graph;
use rdf_scans::{Reading, first_of_nothing, first_orphan, first_reserved, first_untyped_statement};
use std::alloc::Global;

/// Whether no IRI has two kinds that no IRI may share (Structural Specification,
/// section 5.8.1).
pub fn check_kinds(alloc: Global, kinds: &Kinds) -> Result<(), ReverseFault>
    ensures clear { OnOk result (HaveNoClash kinds.now) }
    ensures fault { IfErr result (IsClashFault kinds.now) }
{
    if let Some(iri) = kinds.clash() {
        return Err(ReverseFault::TwoKinds {
            iri: iri.copy(alloc)?,
        });
    }
    Ok(())
}

/// Whether each reification is one of something, no triple takes a reserved IRI for
/// what it isn't, axioms reach all nodes, and all triples name what they may.
pub fn check_reading(alloc: Global, reading: &Reading) -> Result<(), ReverseFault>
    requires { IsReading reading.now }
    ensures clear { OnOk result (AreScanned reading.now.graph.now reading.now.kinds.now
        reading.now.header.now) }
    ensures fault { IfErr result (
        IsFoundBy reading.now.graph.now reading.now.kinds.now scanning) }
{
    if let Some(node) = first_of_nothing(reading) {
        return Err(ReverseFault::MainMissing {
            node: node.copy(alloc)?,
        });
    }
    if let Some(triple) = first_reserved(reading) {
        return Err(ReverseFault::Reserved {
            triple: triple.copy(alloc)?,
        });
    }
    if let Some(node) = first_orphan(alloc, reading)? {
        return Err(ReverseFault::Orphan {
            node: node.copy(alloc)?,
        });
    }
    check_types(alloc, reading)
}

/// Whether all triples name what they may.
fn check_types(alloc: Global, reading: &Reading) -> Result<(), ReverseFault>
    requires { IsReading reading.now }
    ensures clear { OnOk result (AreTyped reading.now.graph.now reading.now.kinds.now
        reading.now.header.now) }
    ensures fault { IfErr result (
        IsFoundBy reading.now.graph.now reading.now.kinds.now typing) }
{
    let source = Source {
        graph: reading.graph,
        roles: reading.roles,
        kinds: reading.kinds,
        lists: reading.lists,
    };
    if let Some(place) = untyped_in(&source) {
        return Err(untyped_at(alloc, reading.graph, place));
    }
    match first_untyped_statement(reading) {
        Some(triple) => Err(ReverseFault::Untyped {
            triple: triple.copy(alloc)?,
        }),
        None => Ok(()),
    }
}

/// That the triple at the place is not typed.
fn untyped_at(alloc: Global, graph: &Graph, place: usize) -> ReverseFault
    requires { place < length graph.now }
    ensures { (result ≡ Memory) ⊎ IfSome (slice_get graph.now place) (λ t. result ≡ Untyped t) }
{
    match graph.at(place).copy(alloc) {
        Ok(triple) => ReverseFault::Untyped { triple },
        Err(NoMemory) => ReverseFault::Memory,
    }
}
