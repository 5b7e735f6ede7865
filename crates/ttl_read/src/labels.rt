//! Labels for the blank nodes that have none.

ghost use Rattle.std.specs.Prelude.{◌≡◌, ◌<◌, ◌≤◌, ◌++◌, IfOk, IsErrOf, OnOk, length, map};
ghost use Rattle.blank_labels.specs.FreshLabels.{fresh_name};
ghost use Rattle.blank_labels.specs.LabelNumbers.{Counts, names_beside};
ghost use Rattle.owl_list.specs.Ascending.{HoldSame};
ghost use Rattle.rdf_graph.specs.declared.fault.GraphFault.{GraphFault};
ghost use Rattle.rdf_graph.specs.Graphs.{most_triples, set_of};
ghost use Rattle.rdf_graph.specs.Terms.{IsSubject};
ghost use Rattle.ttl_grammar.specs.Labels.{graph_of, labels_of, named, named_object, named_triple, node_labels, object_labels, triple_labels};

use blank_labels::{FreshLabels, LabelNumbers};
use indexmap::IndexSet;
use owl_characters::NoMemory;
use rdf_graph::{Gather, Graph, GraphFault, Term, Triple};
use std::alloc::{AllocError, Global};
use ttl_grammar::{Node, NodeTriple, Object};

/// Counts the label of a node, if it has one.
fn count_node(numbers: &mut LabelNumbers, node: &Node) -> Result<(), NoMemory>
    ensures { OnOk result (Counts numbers.old numbers.new (node_labels node.now)) }
{
    match node {
        Node::Label(label) => numbers.count(label),
        Node::Iri(_) | Node::Unlabelled(_) => Ok(()),
    }
}

fn count_object(numbers: &mut LabelNumbers, object: &Object) -> Result<(), NoMemory>
    ensures { OnOk result (Counts numbers.old numbers.new (object_labels object.now)) }
{
    match object {
        Object::Node(node) => count_node(numbers, node),
        Object::Literal(_) => Ok(()),
    }
}

fn count_triple(numbers: &mut LabelNumbers, triple: &NodeTriple) -> Result<(), NoMemory>
    ensures { OnOk result (Counts numbers.old numbers.new (triple_labels triple.now)) }
{
    count_node(numbers, &triple.subject)?;
    count_object(numbers, &triple.object)
}

/// The labels of the nodes that have none, beside all that stand in the triples.
fn fresh_labels(alloc: Global, triples: &[NodeTriple]) -> Result<FreshLabels, NoMemory>
    ensures { IfOk result (λ labels.
        names_beside labels ≡ fresh_name (labels_of triples.now)) }
{
    let mut numbers = LabelNumbers::new(alloc);
    for triple in triples {
        count_triple(&mut numbers, triple)?;
    }
    Ok(numbers.fresh_labels())
}

/// A node with its label.
fn named(alloc: Global, labels: &FreshLabels, node: Node) -> Result<Term, NoMemory>
    ensures named { IfOk result (λ term. term ≡ named (names_beside labels.now) node) }
    ensures subject { IfOk result IsSubject }
{
    match node {
        Node::Iri(iri) => Ok(Term::Iri(iri)),
        Node::Label(label) => Ok(Term::Blank(label)),
        Node::Unlabelled(number) => Ok(Term::Blank(labels.label(alloc, number)?)),
    }
}

fn named_object(alloc: Global, labels: &FreshLabels, object: Object) -> Result<Term, NoMemory>
    ensures { IfOk result (λ term. term ≡ named_object (names_beside labels.now) object) }
{
    match object {
        Object::Node(node) => named(alloc, labels, node),
        Object::Literal(literal) => Ok(Term::Literal(literal)),
    }
}

fn named_triple(alloc: Global, labels: &FreshLabels, triple: NodeTriple) -> Result<Triple, NoMemory>
    ensures named { IfOk result (λ named. named ≡ named_triple (names_beside labels.now) triple) }
    ensures subject { IfOk result (λ named. IsSubject named.subject) }
{
    let subject = named(alloc, labels, triple.subject)?;
    let object = named_object(alloc, labels, triple.object)?;
    Ok(Triple {
        subject,
        predicate: triple.predicate,
        object,
    })
}

/// The triples with all labels, gathered. Those of IRIs come first, as in a graph,
/// so that a document in which they ascend has little to sort.
fn gathered(alloc: Global, triples: IndexSet<NodeTriple>) -> Result<Gather, NoMemory>
    ensures { IfOk result (λ gather. set_of gather ≡ graph_of triples.keys) }
{
    let labels = fresh_labels(alloc, triples.as_slice())?;
    let mut gather = Gather::new(alloc);
    let others = gather_of_iris(alloc, &labels, triples, &mut gather)?;
    gather_all(alloc, &labels, others, &mut gather)?;
    Ok(gather)
}

/// Gathers the triples whose subjects are IRIs, and gives the others.
fn gather_of_iris(
    alloc: Global,
    labels: &FreshLabels,
    triples: IndexSet<NodeTriple>,
    gather: &mut Gather,
) -> Result<Vec<NodeTriple>, NoMemory>
    ensures { IfOk result (λ others.
        HoldSame (gather.new ++ map (named_triple (names_beside labels.now)) others.items)
        (gather.old ++ map (named_triple (names_beside labels.now)) triples.keys)) }
{
    let mut others = Vec::new(alloc);
    for triple in triples {
        if is_iri(&triple.subject) {
            gather.add(named_triple(alloc, labels, triple)?)?;
        } else {
            others.push(triple).map_err(AllocError::from)?;
        }
    }
    Ok(others)
}

fn is_iri(node: &Node) -> bool {
    matches!(node, Node::Iri(_))
}

/// Gathers all of these triples.
fn gather_all(
    alloc: Global,
    labels: &FreshLabels,
    triples: Vec<NodeTriple>,
    gather: &mut Gather,
) -> Result<(), NoMemory>
    ensures { OnOk result (gather.new
        ≡ gather.old ++ map (named_triple (names_beside labels.now)) triples.items) }
{
    for triple in triples {
        gather.add(named_triple(alloc, labels, triple)?)?;
    }
    Ok(())
}

/// The graph of triples, once all blank nodes have labels. `TooMany` exactly
/// where it has more than 2^24 triples.
pub fn graph_of(alloc: Global, triples: IndexSet<NodeTriple>) -> Result<Graph, GraphFault>
    ensures ok { IfOk result (λ graph. graph ≡ graph_of triples.keys) }
    ensures few { IfOk result (λ graph. length (graph_of triples.keys) ≤ most_triples) }
    ensures too_many { IsErrOf result GraphFault.TooMany
        → most_triples < length (graph_of triples.keys) }
{
    match gathered(alloc, triples) {
        Ok(gather) => gather.finish_without_index(),
        Err(NoMemory) => Err(GraphFault::Memory),
    }
}
