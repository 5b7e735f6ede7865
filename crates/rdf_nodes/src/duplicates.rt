//! Nodes that have the same triples.

ghost use Rattle.std.specs.Prelude.{◌≡◌, ◌++◌, ◌∷◌, [], IfOk, IfSome, IsTrue, None, OnErr, OnOk, map, nat_eq};
ghost use Rattle.indexmap.specs.IndexMap.{get};
ghost use Rattle.rdf_roles.specs.Tables.{IsTableOf};
ghost use Rattle.rdf_graph.specs.declared.term.Term.TheVariants.{Blank};
ghost use Rattle.rdf_nodes.specs.Duplicates.{AddsAtMost, AreDuplicates, HaveSameArcs, arc_of};

use crate::source::Source;
use indexmap::IndexMap;
use owl_characters::NoMemory;
use rdf_asked::shares_lists;
use rdf_graph::{Term, Triple};
use rdf_terms::Label;
use std::hash::{DefaultHasher, Hasher};
use std::marker::Model;

/// Nodes that were asked for, by a hash of their predicates and objects. Only where
/// two triples name one list are any kept: there each of the nodes that share it may
/// have to be read in the time that the list takes, and one that has the same triples
/// as another need not. Contracts see the hashes that are kept, in the order in which
/// they came, each with the number of its node.
#[derive(Debug, Drop)]
pub struct Duplicates {
    asked_for: IndexMap<u64, usize>,
    are_kept: bool,
}

impl Model for Duplicates {
    ghost use Rattle.std.specs.Prelude.{List, ℕ};

    ghost Value = { List (ℕ × ℕ) };

    ghost view = { λ d. d.asked_for.entries };
}

impl Duplicates {
    /// No nodes.
    pub fn of(source: &Source) -> Duplicates
        requires { IsTableOf source.now.graph.now source.now.roles.now }
    {
        Duplicates {
            asked_for: IndexMap::new(source.alloc),
            are_kept: shares_lists(source.roles, source.graph.triples()),
        }
    }

    /// The number of a node that was asked for and has the same predicates and
    /// objects as the one with this number, where one was found. At want of memory
    /// the nodes that are kept stay as they were.
    pub fn earlier(&mut self, source: &Source, number: usize) -> Result<Option<usize>, NoMemory>
        requires { IsTableOf source.now.graph.now source.now.roles.now }
        ensures found { IfOk result (λ found. IfSome found (λ other.
            AreDuplicates source.now.graph.now source.now.roles.now other number)) }
        ensures kept { AddsAtMost self.old self.new number }
        ensures err { OnErr result (self.new ≡ self.old) }
    {
        if !self.are_kept {
            return Ok(None);
        }
        let hash = hash_of(source, number)?;
        let Some(other) = self.asked_for.get(&hash).copied() else {
            keep(&mut self.asked_for, hash, number)?;
            return Ok(None);
        };
        if are_duplicates(source, other, number)? {
            Ok(Some(other))
        } else {
            Ok(None)
        }
    }
}

/// Keeps the number of a node by a hash that no node had.
fn keep(asked_for: &mut IndexMap<u64, usize>, hash: u64, number: usize) -> Result<(), NoMemory>
    requires { get nat_eq asked_for.old hash ≡ None }
    ensures ok { OnOk result (asked_for.new.entries ≡ asked_for.old.entries ++ (hash, number) ∷ []) }
    ensures err { OnErr result (asked_for.new.entries ≡ asked_for.old.entries) }
{
    match asked_for.insert(hash, number) {
        Ok(_) => Ok(()),
        Err(_) => Err(NoMemory),
    }
}

/// A hash of the predicates and objects of the node with this number.
fn hash_of(source: &Source, number: usize) -> Result<u64, NoMemory> {
    let mut hasher = DefaultHasher::new();
    if let Some(label) = source.roles.node(number) {
        let node = Term::Blank(label.copy(source.alloc)?);
        for triple in source.graph.about(&node) {
            add_arc(&mut hasher, triple);
        }
    }
    Ok(hasher.finish())
}

/// Adds the texts of the triple's predicate and object.
fn add_arc(hasher: &mut DefaultHasher, triple: &Triple) {
    hasher.write(triple.predicate.text().as_bytes());
    match &triple.object {
        Term::Iri(iri) => hasher.write(iri.text().as_bytes()),
        Term::Blank(label) => hasher.write(label.text().as_bytes()),
        Term::Literal(literal) => hasher.write(literal.lexical().as_bytes()),
    }
}

/// Whether the nodes with these numbers have the same predicates and objects.
fn are_duplicates(source: &Source, first: usize, second: usize) -> Result<bool, NoMemory>
    ensures { IsTableOf source.now.graph.now source.now.roles.now →
        IfOk result (λ same. IsTrue same →
        AreDuplicates source.now.graph.now source.now.roles.now first second) }
{
    let Some(one) = source.roles.node(first) else {
        return Ok(false);
    };
    let Some(other) = source.roles.node(second) else {
        return Ok(false);
    };
    have_same_arcs(source, one, other)
}

/// Whether the nodes have the same predicates and objects.
fn have_same_arcs(source: &Source, first: &Label, second: &Label) -> Result<bool, NoMemory>
    ensures { IfOk result (λ same. IsTrue same →
        HaveSameArcs source.now.graph.now (Blank first.now) (Blank second.now)) }
{
    let one = Term::Blank(first.copy(source.alloc)?);
    let other = Term::Blank(second.copy(source.alloc)?);
    Ok(are_same(source.graph.about(&one), source.graph.about(&other)))
}

/// Whether the triples have the same predicates and objects, one by one.
fn are_same(first: &[Triple], second: &[Triple]) -> bool
    ensures { IsTrue result → map arc_of first.now ≡ map arc_of second.now }
{
    let mut rest = first;
    let mut others = second;
    while let Some((triple, behind)) = rest.split_first() {
        let Some((other, more)) = others.split_first() else {
            return false;
        };
        if triple.predicate != other.predicate || triple.object != other.object {
            return false;
        }
        rest = behind;
        others = more;
    }
    others.is_empty()
}
