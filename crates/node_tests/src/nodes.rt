//! Nodes of graphs that documents of Turtle say, and what they stand for.

ghost use Rattle.std.specs.Prelude.{OnOk};
ghost use Rattle.rdf_meaning.specs.Kinds.{HaveNoClash};
ghost use Rattle.rdf_roles.specs.Refusals.{AreNodesFormed};
ghost use Rattle.rdf_roles.specs.Tables.{IsTableOf};

use owl_arena::Arena;
use owl_kind::{Kind, Kinds};
use rdf_graph::Graph;
use rdf_nodes::{DenoteFault, Nodes, Role, Roles, denote, untyped};
use rdf_terms::{Iri, Label};
use std::alloc::Global;
use std::test::Fail;
use ttl_read::{ReadFault, Reader, TtlDoc};

const HEAD: &[u8] =
    b"@prefix : <http://example.org/> . @prefix owl: <http://www.w3.org/2002/07/owl#> .\n";

/// The union of the class A and its complement.
const UNION: &[u8] =
    b"_:x a owl:Class ; owl:unionOf ( :A [ a owl:Class ; owl:complementOf :A ] ) .\n";

/// How many classes are each twice as heavy as the one before.
const DOUBLINGS: usize = 30;

fn graph_of_union(alloc: Global) -> Result<TtlDoc, ReadFault> {
    let Ok(mut reader) = Reader::new(alloc) else {
        return Err(ReadFault::Memory);
    };
    let _fed = feed_union(&mut reader);
    reader.finish()
}

/// The union, and behind it classes that are each the union of the one before and
/// its complement.
fn graph_of_doublings(alloc: Global) -> Result<TtlDoc, ReadFault> {
    let Ok(mut reader) = Reader::new(alloc) else {
        return Err(ReadFault::Memory);
    };
    let _fed = feed_doublings(&mut reader);
    reader.finish()
}

fn feed_union(reader: &mut Reader) -> Result<(), ReadFault> {
    reader.feed(HEAD)?;
    reader.feed(UNION)
}

fn feed_doublings(reader: &mut Reader) -> Result<(), ReadFault> {
    feed_union(reader)?;
    for before in 0..DOUBLINGS {
        feed_doubling(reader, before)?;
    }
    Ok(())
}

/// Feeds the class behind the one with this number.
fn feed_doubling(reader: &mut Reader, before: usize) -> Result<(), ReadFault> {
    feed_label(reader, before)?;
    reader.feed(b"x a owl:Class ; owl:unionOf ( ".as_slice())?;
    feed_label(reader, before)?;
    reader.feed(b" [ a owl:Class ; owl:complementOf ".as_slice())?;
    feed_label(reader, before)?;
    reader.feed(b" ] ) .\n".as_slice())
}

/// Feeds the label of the class with this number.
fn feed_label(reader: &mut Reader, number: usize) -> Result<(), ReadFault> {
    reader.feed(b"_:x".as_slice())?;
    for _ in 0..number {
        reader.feed(b"x".as_slice())?;
    }
    Ok(())
}

/// What is answered for a node of a graph.
#[derive(Clone, Copy, Debug, PartialEq, Eq, Drop)]
enum Answer {
    /// The graph is not one of which this is asked.
    Wrong,
    /// Why what its nodes stand for has no place in an arena.
    Refused(DenoteFault),
    /// The role of the node, and the weight of what it stands for.
    Weighs(Role, Option<u64>),
}

/// The class A is declared.
fn kinds(alloc: Global) -> Result<Kinds, Fail> {
    let iri = Iri::of(alloc, "http://example.org/A")?;
    let mut kinds = Kinds::new(alloc);
    kinds.declare(Kind::Class, iri)?;
    Ok(kinds)
}

/// `Wrong` where an IRI has kinds that no IRI may share.
fn check_kinds(kinds: &Kinds) -> Result<(), Answer>
    ensures { OnOk result (HaveNoClash kinds.now) }
{
    if let Some(_iri) = kinds.clash() {
        return Err(Answer::Wrong);
    }
    Ok(())
}

/// The weight of what the node stands for.
fn weight_of(arena: &Arena, nodes: &Nodes, node: &Label) -> Option<u64> {
    let id = nodes.expression(node)?;
    if arena.holds(id) {
        Some(arena.weight(id))
    } else {
        None
    }
}

/// What is answered for the node, where these are the roles of the graph's nodes.
fn answer_with(alloc: Global, graph: &Graph, roles: &Roles, kinds: &Kinds, node: &Label) -> Answer
    requires table { IsTableOf graph.now roles.now }
    requires formed { AreNodesFormed graph.now }
{
    if let Err(wrong) = check_kinds(kinds) {
        return wrong;
    }
    if untyped(graph, roles, kinds).is_some() {
        return Answer::Wrong;
    }
    let mut arena = Arena::new(alloc);
    match denote(alloc, graph, roles, kinds, &mut arena) {
        Ok(nodes) => Answer::Weighs(roles.role(node), weight_of(&arena, &nodes, node)),
        Err(fault) => Answer::Refused(fault),
    }
}

/// What is answered for the first class of the graph.
fn answer_of(alloc: Global, graph: &Graph) -> Result<Answer, Fail> {
    let kinds = kinds(alloc)?;
    let node = Label::of(alloc, "x")?;
    match Roles::of(alloc, graph) {
        Ok(roles) => Ok(answer_with(alloc, graph, &roles, &kinds, &node)),
        Err(_) => Ok(Answer::Wrong),
    }
}

fn answer_for_union(alloc: Global) -> Result<Answer, Fail> {
    let doc = graph_of_union(alloc)?;
    answer_of(alloc, &doc.graph)
}

#[test]
fn a_union_is_weighed(rt: HostRuntime) -> Result<(), Fail> {
    assert_eq!(rt;
        answer_for_union(rt.alloc())?,
        Answer::Weighs(Role::Class, Some(4))
    );
    Ok(())
}

fn answer_for_doublings(alloc: Global) -> Result<Answer, Fail> {
    let doc = graph_of_doublings(alloc)?;
    answer_of(alloc, &doc.graph)
}

#[test]
fn classes_that_double_are_too_heavy(rt: HostRuntime) -> Result<(), Fail> {
    assert_eq!(rt;
        answer_for_doublings(rt.alloc())?,
        Answer::Refused(DenoteFault::TooHeavy)
    );
    Ok(())
}
