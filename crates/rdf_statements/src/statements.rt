//! All that a graph states, in a store.

ghost use Rattle.std.specs.Prelude.{IfErr, IfOk, OnOk};
ghost use Rattle.owl_tree.specs.Trees.{Tree};
ghost use Rattle.rdf_annotations.specs.Annotations.{AreSets};
ghost use Rattle.rdf_annotations.specs.Held.{AreTypedNotes, IsAnnotated};
ghost use Rattle.rdf_meaning.specs.Kinds.{HaveNoClash};
ghost use Rattle.rdf_nodes.specs.Numbers.{DenoteTrees};
ghost use Rattle.rdf_scans.specs.Sorts.{IsReading};
ghost use Rattle.rdf_statements.specs.GraphTrees.{AreStatements, IsHeldWithin, IsStatementFault, IsTreeOf, StatesAxioms};
ghost use Rattle.rdf_statements.specs.Holding.{HoldAll, IsKnown, IsKnownFault, StandForAxioms};
ghost use Rattle.tree_stores.specs.Stores.{Keeps};

use crate::known::Known;
use crate::nodes::add_nodes;
use crate::stated::StatedAxioms;
use crate::triples::add_triples;
use rdf_annotations::{Annotated, Noters, Sets};
use rdf_nodes::Source;
use rdf_scans::Reading;
use std::alloc::Global;
use tree_stores::{TreeFault, TreeStore};

/// The annotations and the axioms that the graph states, by their numbers in a
/// store.
#[derive(Debug, Drop)]
pub struct Statements<N> {
    pub annotations: Vec<N>,
    pub axioms: Vec<N>,
}

/// The annotations and the axioms that the graph states, and with these all that
/// its nodes denote, in the store (Mapping to RDF Graphs, sections 3.2.5 and 3.3).
/// The store keeps the trees that it had, at their numbers, also where this refuses.
///
/// `TooDeep` where what a node denotes, an annotation, a set of annotations, or an
/// axiom is more than 128 levels deep; `TooHeavy` where one has more than 2^24 nodes
/// and leaves, or where different ones have more than 2^24 kids together.
pub fn hold_statements<S: TreeStore>(
    alloc: Global,
    reading: &Reading,
    store: &mut S,
) -> Result<Statements<S::Number>, TreeFault<S::Heavy>>
    requires reading { IsReading reading.now }
    requires kinds { HaveNoClash reading.now.kinds.now }
    requires axioms { StatesAxioms reading.now.graph.now reading.now.kinds.now
        reading.now.header.now }
    requires notes { AreTypedNotes reading.now.graph.now reading.now.kinds.now
        reading.now.header.now }
    requires nodes { DenoteTrees reading.now.graph.now reading.now.kinds.now }
    ensures stated { IfOk result (λ said. AreStatements (S.stands store.new)
        reading.now.graph.now reading.now.kinds.now reading.now.header.now
        said.annotations.items said.axioms.items) }
    ensures held { OnOk result ((t : Tree)
        → IsTreeOf reading.now.graph.now reading.now.kinds.now reading.now.header.now t →
        IsHeldWithin (S.stands store.new) t) }
    ensures fault { IfErr result (IsStatementFault reading.now.graph.now
        reading.now.kinds.now reading.now.header.now) }
    ensures kept { Keeps (S.stands store.old) (S.stands store.new) }
{
    let noters = Noters::of(alloc, reading)?;
    let annotated = Annotated {
        alloc,
        reading: *reading,
        noters: &noters,
    };
    hold_annotated(&annotated, store)
}

/// So, where it is known by which nodes triples are annotated.
fn hold_annotated<S: TreeStore>(
    annotated: &Annotated,
    store: &mut S,
) -> Result<Statements<S::Number>, TreeFault<S::Heavy>>
    requires annotated { IsAnnotated annotated.now }
    requires kinds { HaveNoClash annotated.now.reading.kinds.now }
    requires axioms { StatesAxioms annotated.now.reading.graph.now
        annotated.now.reading.kinds.now annotated.now.reading.header.now }
    requires nodes { DenoteTrees annotated.now.reading.graph.now
        annotated.now.reading.kinds.now }
    ensures all { IfOk result (λ said. HoldAll (S.stands store.new)
        annotated.now.reading.graph.now annotated.now.reading.kinds.now
        annotated.now.reading.header.now said.annotations.items said.axioms.items) }
    ensures fault { IfErr result (IsStatementFault annotated.now.reading.graph.now
        annotated.now.reading.kinds.now annotated.now.reading.header.now) }
    ensures kept { Keeps (S.stands store.old) (S.stands store.new) }
{
    let sets = annotated.hold_sets(store)?;
    hold_noted(annotated, &sets, store)
}

/// So, where the sets of annotations of reifications are held.
fn hold_noted<S: TreeStore>(
    annotated: &Annotated,
    sets: &Sets<S::Number>,
    store: &mut S,
) -> Result<Statements<S::Number>, TreeFault<S::Heavy>>
    requires annotated { IsAnnotated annotated.now }
    requires kinds { HaveNoClash annotated.now.reading.kinds.now }
    requires axioms { StatesAxioms annotated.now.reading.graph.now
        annotated.now.reading.kinds.now annotated.now.reading.header.now }
    requires nodes { DenoteTrees annotated.now.reading.graph.now
        annotated.now.reading.kinds.now }
    requires sets { AreSets (S.stands store.old) annotated.now.reading.graph.now
        annotated.now.reading.kinds.now annotated.now.reading.roles.now
        sets.now.of_nodes.items sets.now.empty }
    ensures all { IfOk result (λ said. HoldAll (S.stands store.new)
        annotated.now.reading.graph.now annotated.now.reading.kinds.now
        annotated.now.reading.header.now said.annotations.items said.axioms.items) }
    ensures fault { IfErr result (IsStatementFault annotated.now.reading.graph.now
        annotated.now.reading.kinds.now annotated.now.reading.header.now) }
    ensures kept { Keeps (S.stands store.old) (S.stands store.new) }
{
    let source = Source {
        alloc: annotated.alloc,
        graph: annotated.reading.graph,
        roles: annotated.reading.roles,
        kinds: annotated.reading.kinds,
    };
    let ids = source.numbers(store, true)?;
    let known = Known {
        annotated: *annotated,
        sets,
        ids: &ids,
    };
    hold_known(&known, store)
}

/// The annotations and the axioms, where the sets of annotations and what the nodes
/// denote are held.
fn hold_known<S: TreeStore>(
    known: &Known<S::Number>,
    store: &mut S,
) -> Result<Statements<S::Number>, TreeFault<S::Heavy>>
    requires { IsKnown (S.stands store.old) known.now }
    ensures stated { IfOk result (λ said. AreStatements (S.stands store.new)
        known.now.annotated.reading.graph.now known.now.annotated.reading.kinds.now
        known.now.annotated.reading.header.now said.annotations.items said.axioms.items) }
    ensures fault { IfErr result (IsKnownFault known.now) }
    ensures kept { Keeps (S.stands store.old) (S.stands store.new) }
{
    let header = known.annotated.reading.header;
    let annotations = known.annotated.hold_annotations(store, known.sets, header)?;
    let axioms = hold_all_axioms(known, store)?;
    Ok(Statements {
        annotations,
        axioms,
    })
}

/// The numbers of the axioms that triples are, and then of those that nodes stand
/// for.
fn hold_all_axioms<S: TreeStore>(
    known: &Known<S::Number>,
    store: &mut S,
) -> Result<Vec<S::Number>, TreeFault<S::Heavy>>
    requires { IsKnown (S.stands store.old) known.now }
    ensures held { IfOk result (λ axioms. StandForAxioms (S.stands store.new)
        known.now.annotated.reading.graph.now known.now.annotated.reading.kinds.now
        known.now.annotated.reading.header.now axioms.items) }
    ensures fault { IfErr result (IsKnownFault known.now) }
    ensures kept { Keeps (S.stands store.old) (S.stands store.new) }
{
    let mut axioms = StatedAxioms {
        numbers: Vec::new(known.annotated.alloc),
        kids: 0,
    };
    add_triples(known, store, &mut axioms)?;
    add_nodes(known, store, &mut axioms)?;
    Ok(axioms.numbers)
}
