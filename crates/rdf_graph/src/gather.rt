//! Triples as they come.

ghost use Rattle.std.specs.Prelude.{◌≡◌, ◌↔◌, ◌<◌, ◌≤◌, ◌++◌, ◌∷◌, [], length, IfErr, IfOk, IsErrOf, OnOk, OnErr};
ghost use Rattle.std.specs.List.Sorted.{IsPermutation};
ghost use Rattle.rdf_graph.specs.Graphs.{most_triples, set_of};
ghost use Rattle.rdf_graph.specs.Terms.{IsSubject};
ghost use Rattle.rdf_graph.specs.declared.fault.GraphFault.{GraphFault};

use crate::by_object::places_by_object;
use crate::fault::GraphFault;
use crate::graph::{Graph, MOST_TRIPLES};
use crate::ranks::Fronts;
use crate::triple::Triple;
use owl_characters::NoMemory;
use owl_list::{arrange, sort_by_ranks};
use std::alloc::{AllocError, Global};
use std::marker::Model;

/// Gathers the triples of a graph, which contracts see as the list of those that
/// were added.
#[derive(Debug, Drop)]
pub struct Gather {
    alloc: Global,
    triples: Vec<Triple>,
}

impl Model for Gather {
    ghost use Rattle.std.specs.Prelude.{List};
    ghost use Rattle.rdf_graph.specs.declared.triple.Triple.{Triple};

    ghost Value = { List Triple };

    ghost use Rattle.rdf_graph.specs.Terms.{HaveSubjects};

    ghost view = { λ g. g.triples.items };

    ghost invariant = { λ g. HaveSubjects g.triples.items };
}

impl Gather {
    /// No triples. Takes no memory.
    pub fn new(alloc: Global) -> Gather
        ensures { result ≡ [] }
    {
        Gather {
            alloc,
            triples: Vec::new(alloc),
        }
    }

    /// Adds a triple; one that is added twice is one. Where the call refuses,
    /// nothing changes.
    pub fn add(&mut self, triple: Triple) -> Result<(), NoMemory>
        requires { IsSubject triple.subject }
        ensures ok { OnOk result (self.new ≡ self.old ++ triple ∷ []) }
        ensures err { OnErr result (self.new ≡ self.old) }
    {
        Ok(self.triples.push(triple).map_err(AllocError::from)?)
    }

    /// The graph of the triples, which is the set of them (RDF 1.1 Concepts and
    /// Abstract Syntax, section 3), with an index by object. `TooMany` exactly where
    /// they are more than 2^24, each counted once, whatever memory there is.
    pub fn finish(self) -> Result<Graph, GraphFault>
        ensures ok { IfOk result (λ graph. graph ≡ set_of self) }
        ensures too_many { IsErrOf result GraphFault.TooMany
            ↔ (most_triples < length (set_of self)) }
    {
        let triples = set_of(self.triples)?;
        let by_object = Some(places_by_object(self.alloc, &triples)?);
        Ok(Graph { by_object, triples })
    }

    /// The same graph without an index, so `Graph::with_object` looks at one triple
    /// after the other.
    pub fn finish_without_index(self) -> Result<Graph, GraphFault>
        ensures ok { IfOk result (λ graph. graph ≡ set_of self) }
        ensures too_many { IsErrOf result GraphFault.TooMany
            ↔ (most_triples < length (set_of self)) }
    {
        Ok(Graph {
            by_object: None,
            triples: set_of(self.triples)?,
        })
    }
}

/// The triples in ascending order, each once. `TooMany` where they are more than
/// 2^24.
fn set_of(triples: Vec<Triple>) -> Result<Vec<Triple>, GraphFault>
    ensures ok { IfOk result (λ set. set.items ≡ set_of triples.items) }
    ensures few { OnOk result (length (set_of triples.items) ≤ most_triples) }
    ensures too_many { IfErr result (λ fault. (fault ≡ GraphFault.TooMany)
        × (most_triples < length (set_of triples.items))) }
{
    let mut triples = triples;
    let fronts = Fronts::of_subjects(&triples);
    order(&mut triples, &fronts);
    if MOST_TRIPLES < triples.len() {
        return Err(GraphFault::TooMany);
    }
    Ok(triples)
}

/// Puts the triples in ascending order, each once.
fn order(triples: &mut Vec<Triple>, fronts: &Fronts)
    ensures { triples.new.items ≡ set_of triples.old.items }
{
    order_by_ranks(triples, fronts);
    // What ascends already is only gone through.
    arrange(triples);
}

/// Puts the triples in order, unless they are, where there is memory for it.
fn order_by_ranks(triples: &mut Vec<Triple>, fronts: &Fronts)
    ensures { IsPermutation triples.old.items triples.new.items }
{
    if triples.is_sorted() {
        return;
    }
    sort_by_ranks(triples, |triple| fronts.rank(&triple.subject), Ord::cmp);
}
