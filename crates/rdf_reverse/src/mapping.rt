//! The mapping back.

ghost use Rattle.std.specs.Prelude.{◌≡◌, IfErr, IfOk};
ghost use Rattle.owl_doc.specs.Documents.{ontology_of};
ghost use Rattle.rdf_scans.specs.Outlines.{IsHeadAt};
ghost use Rattle.rdf_reverse.specs.Clear.{IsClear};
ghost use Rattle.rdf_reverse.specs.Guesses.{IsFaultWith, IsSaidWith};
ghost use Rattle.rdf_reverse.specs.Reverse.{IsFoundBy, IsReverseFault, IsSaid, limits};
ghost use Rattle.rdf_thin.specs.Thinned.{thinned};

use crate::fault::ReverseFault;
use crate::scans::{check_kinds, check_reading};
use crate::trees::read_statements;
use owl_arena::Arena;
use owl_assembly::assemble;
use owl_atom::Prefixes;
use owl_declarations::with_declarations;
use owl_doc::{Doc, Head};
use owl_kind::{Kind, Kinds};
use rdf_asked::lists_of;
use rdf_graph::Graph;
use rdf_nodes::{is_thin, thin};
use rdf_roles::Roles;
use rdf_scans::{Reading, head_of, only_header};
use rdf_terms::Iri;
use std::alloc::Global;

/// The ontology that a graph says of which nothing is wrong but perhaps its size.
fn read_clear(
    alloc: Global,
    reading: &Reading,
    prefixes: Prefixes,
    head: Head,
) -> Result<Doc, ReverseFault>
    requires clear { IsClear reading.now }
    requires head { IsHeadAt reading.now.graph.now reading.now.header.now head }
    ensures said { IfOk result (λ doc.
        IsSaid reading.now.graph.now reading.now.kinds.now (ontology_of doc)) }
    ensures prefixes { IfOk result (λ doc. doc.prefixes ≡ prefixes) }
    ensures fault { IfErr result (
        IsFoundBy reading.now.graph.now reading.now.kinds.now limits) }
{
    let mut arena = Arena::new(alloc);
    let said = read_statements(alloc, reading, &mut arena)?;
    Ok(assemble(
        alloc,
        prefixes,
        head,
        arena,
        &said.annotations,
        &said.axioms,
    )?)
}

/// The ontology that the graph says as it is, with these prefixes.
fn reverse_whole(
    alloc: Global,
    graph: &Graph,
    prefixes: Prefixes,
    kinds: &Kinds,
) -> Result<Doc, ReverseFault>
    ensures said { IfOk result (λ doc. IsSaid graph.now kinds.now (ontology_of doc)) }
    ensures prefixes { IfOk result (λ doc. doc.prefixes ≡ prefixes) }
    ensures fault { IfErr result (IsReverseFault graph.now kinds.now) }
{
    check_kinds(alloc, kinds)?;
    let header = only_header(graph.triples())?;
    let head = head_of(alloc, graph, header)?;
    let roles = Roles::of(alloc, graph)?;
    let lists = lists_of(alloc, graph, &roles, kinds)?;
    let reading = Reading {
        graph,
        roles: &roles,
        kinds,
        lists: &lists,
        header,
    };
    check_reading(alloc, &reading)?;
    read_clear(alloc, &reading, prefixes, head)
}

/// The ontology that the graph says without its redundant triples, with these prefixes.
fn reverse_thinned(
    alloc: Global,
    graph: &Graph,
    prefixes: Prefixes,
    kinds: &Kinds,
) -> Result<Doc, ReverseFault>
    ensures said { IfOk result (λ doc.
        IsSaid (thinned graph.now) kinds.now (ontology_of doc)) }
    ensures prefixes { IfOk result (λ doc. doc.prefixes ≡ prefixes) }
    ensures fault { IfErr result (IsReverseFault (thinned graph.now) kinds.now) }
{
    if is_thin(graph) {
        // Most graphs are, and a copy would double what a large one takes.
        return reverse_whole(alloc, graph, prefixes, kinds);
    }
    let thinned = thin(alloc, graph)?;
    reverse_whole(alloc, &thinned, prefixes, kinds)
}

/// The ontology that the graph says under these kinds, with these prefixes
/// (Mapping to RDF Graphs, section 3), and with the declarations of the annotation
/// properties that were guessed. Its redundant triples, types that tools of OWL 1
/// write, are passed over, and all that follows is of the graph without them.
///
/// In this order, each with the first such IRI, node or triple: `TwoKinds` where an
/// IRI has kinds that no IRI may share; `NoHeader`, `TwoHeaders`, `BadHeader`;
/// `Mixed`, `BadList`, `Cycle`, `BadNode`; `MainMissing` where a reification is of
/// nothing; `Reserved` where a triple takes a reserved IRI for what it isn't;
/// `Orphan` where no axiom reaches a node; `Untyped` where a triple names what it may
/// not, those of nodes before the others; `NumberTooLarge` where a cardinality is
/// 2^64 or more; `TooDeep` where an expression, an annotation or an axiom is more
/// than 128 levels deep; `TooHeavy` where one has more than 2^24 nodes and leaves,
/// or the ontology has, without these declarations or with them.
pub fn reverse(
    alloc: Global,
    graph: &Graph,
    prefixes: Prefixes,
    kinds: &Kinds,
    guessed: &[Iri],
) -> Result<Doc, ReverseFault>
    ensures said { IfOk result (λ doc.
        IsSaidWith (thinned graph.now) kinds.now guessed.now (ontology_of doc)) }
    ensures prefixes { IfOk result (λ doc. doc.prefixes ≡ prefixes) }
    ensures fault { IfErr result (IsFaultWith (thinned graph.now) kinds.now guessed.now) }
{
    let doc = reverse_thinned(alloc, graph, prefixes, kinds)?;
    if guessed.is_empty() {
        return Ok(doc);
    }
    Ok(with_declarations(alloc, &doc, Kind::AnnotationProperty, guessed)?)
}
