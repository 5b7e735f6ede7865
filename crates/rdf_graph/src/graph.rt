//! Graphs.

ghost use Rattle.std.specs.Prelude.{◌≡◌, ◌↔◌, ◌<◌, ◌≤◌, ℕ, [], length, slice_get, IfSome, IsNone, Some};
ghost use Rattle.std.specs.declared.cmp.Ordering.TheVariants.{Less};
ghost use Rattle.std.specs.List.{filter};
ghost use Rattle.std.specs.Ordering.{eq_by_cmp};
ghost use Rattle.owl_list.specs.Ascending.{IsAscending};
ghost use Rattle.rdf_graph.specs.BySubject.{IsCountBelow, IsCountUpTo};
ghost use Rattle.rdf_graph.specs.Graphs.{HasNoneWith, IsGraph, IsNextWith, subject_at};
ghost use Rattle.rdf_graph.specs.Terms.{IsSubject, term_cmp, triple_cmp};

use crate::by_object::{next_place, next_with};
use crate::term::Term;
use crate::triple::Triple;
use std::alloc::Global;
use std::marker::Model;

/// The most triples that a graph has.
pub const MOST_TRIPLES: usize = 1 << 24;

/// A set of triples (RDF 1.1 Concepts and Abstract Syntax, section 3), which
/// contracts see as the list of them in ascending order, each once.
#[derive(Debug, Drop)]
pub struct Graph {
    // Let go before the triples, whose many small texts the allocator joins when a
    // large block comes back.
    pub(crate) by_object: Option<Vec<u32>>,
    pub(crate) triples: Vec<Triple>,
}

impl Model for Graph {
    ghost use Rattle.std.specs.Prelude.{List};
    ghost use Rattle.rdf_graph.specs.declared.triple.Triple.{Triple};

    ghost Value = { List Triple };

    ghost use Rattle.std.specs.Prelude.{IfSome};
    ghost use Rattle.rdf_graph.specs.ByObject.{IsIndex};
    ghost use Rattle.rdf_graph.specs.Graphs.{IsGraph};

    ghost view = { λ g. g.triples.items };

    ghost invariant = { λ g. IsGraph g.triples.items
        × IfSome g.by_object (λ places. IsIndex g.triples.items places.items) };
}

impl Graph {
    /// No triples. Takes no memory.
    pub fn empty(alloc: Global) -> Graph
        ensures { result ≡ [] }
    {
        Graph {
            triples: Vec::new(alloc),
            by_object: None,
        }
    }

    /// How many triples there are. Takes no memory.
    pub fn len(&self) -> usize
        ensures len { result ≡ length self.now }
        ensures graph { IsGraph self.now }
    {
        self.triples.len()
    }

    /// The triple at this place. Takes no memory.
    pub fn at(&self, place: usize) -> &Triple
        requires { place < length self.now }
        ensures at { slice_get self.now place ≡ Some result.now }
        ensures subject { IsSubject result.now.subject }
    {
        &self.triples[place]
    }

    /// The first place of a triple with this subject, and the place past the
    /// last one. Where there is none, both are the place where one would stand.
    /// Takes no memory.
    pub fn of_subject(&self, term: &Term) -> (usize, usize)
        ensures ordered { result.0 ≤ result.1 }
        ensures within { result.1 ≤ length self.now }
        ensures among { (place : ℕ) →
            (subject_at self.now place ≡ Some term.now)
            ↔ ((result.0 ≤ place) × (place < result.1)) }
        ensures before { (place : ℕ) → place < result.0 →
            IfSome (subject_at self.now place) (λ subject. term_cmp subject term.now ≡ Less) }
        ensures behind { (place : ℕ) → result.1 ≤ place →
            IfSome (subject_at self.now place) (λ subject. term_cmp term.now subject ≡ Less) }
    {
        let below = count_below(&self.triples, term);
        (below, end_of_subject(&self.triples, term, below))
    }

    /// The triples with this subject, in order. Takes no memory.
    pub fn about(&self, term: &Term) -> &[Triple]
        ensures { result.now ≡ filter (λ t. eq_by_cmp term_cmp t.subject term.now) self.now }
    {
        let (start, end) = self.of_subject(term);
        &self.triples[start..end]
    }

    /// All triples, in order. Takes no memory.
    pub fn triples(&self) -> &[Triple]
        ensures triples { result.now ≡ self.now }
        ensures graph { IsGraph self.now }
    {
        &self.triples
    }

    /// The next place, from this one on, of a triple with this object, by halving
    /// where the graph has an index. Takes no memory.
    pub fn with_object(&self, term: &Term, from: usize) -> Option<usize>
        ensures some { IfSome result (λ place. IsNextWith self.now term.now from place) }
        ensures none { IsNone result ↔ HasNoneWith self.now term.now from }
    {
        match &self.by_object {
            Some(places) => next_place(&self.triples, places, term, from),
            None => next_with(&self.triples, term, from),
        }
    }
}

/// How many triples have a lesser subject.
fn count_below(triples: &[Triple], term: &Term) -> usize
    requires { IsAscending triple_cmp triples.now }
    ensures { IsCountBelow term.now result triples.now }
{
    triples.partition_point(|triple| triple.subject < *term)
}

/// How many triples are looked at one after the other before a search by halving.
const NEAR: usize = 8;

/// How many triples have this subject or a lesser one, where so many have a lesser
/// one. Most subjects have few triples.
fn end_of_subject(triples: &[Triple], term: &Term, below: usize) -> usize
    requires ascending { IsAscending triple_cmp triples.now }
    requires below { IsCountBelow term.now below triples.now }
    ensures { IsCountUpTo term.now result triples.now }
{
    let near = below.saturating_add(NEAR).min(triples.len());
    for end in below..near {
        if *term < triples[end].subject {
            return end;
        }
    }
    count_up_to(triples, term)
}

/// How many triples have this subject or a lesser one.
fn count_up_to(triples: &[Triple], term: &Term) -> usize
    requires { IsAscending triple_cmp triples.now }
    ensures { IsCountUpTo term.now result triples.now }
{
    triples.partition_point(|triple| triple.subject <= *term)
}
