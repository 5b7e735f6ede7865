//! Subjects, predicates and triples.

ghost use Rattle.std.specs.Prelude.{◌≡◌, ◌↔◌, ◌+◌, ◌-◌, ◌∷◌, ◌++◌, [], length, take, None, Ok, Some, IfErr, IfOk, IsTrue, OnOk};
ghost use Rattle.ttl_grammar.specs.States as stated;
ghost use Rattle.ttl_grammar.specs.States.{bracket_opened, cell_added, closed, collection_closed, collection_opened, element_added, iri_in, last_nest, no_facts, no_nest, node_in, node_term, opened, with_object, with_predicate, with_subject, with_triple};
ghost use Rattle.owl_reader.specs.Computing.{Turns, TurnsTo};
ghost use Rattle.ttl_read.specs.Keeping.{AreKept, AreSame, IsNear, IsNearNode};

use indexmap::IndexSet;
use owl_atom::Iri;
use owl_characters::NoMemory;
use owl_reader::TokenFault;
use rdf_graph::MOST_TRIPLES;
use rdf_terms::rdf;
use std::alloc::{AllocError, Global};
use std::marker::Model;
use std::mem;
use ttl_grammar::{Nest, Node, NodeTriple, Object};

/// How many brackets and lists may be open at once.
const MOST_NESTS: usize = 512;

/// The numbers of nodes whose triples are held, which no memory reaches.
const MOST_NODES: u64 = 1 << 61;

/// What was read of triples, which contracts see as the facts of a state of a
/// parser (RDF 1.1 Turtle, section 7.1). A triple that is stated again is not kept,
/// so that what is held grows with the graph, and none is kept once they are more
/// than a graph may have.
#[derive(Debug, Drop)]
pub struct Facts {
    alloc: Global,
    term: Option<Object>,
    nest: Nest,
    outer: Vec<Nest>,
    unlabelled: u64,
    /// The triples, each once, up to one more than a graph may have.
    triples: IndexSet<NodeTriple>,
}

impl Model for Facts {
    ghost use Rattle.ttl_grammar.specs.States as stated;
    ghost use Rattle.ttl_read.specs.Keeping.{AreKept};

    ghost Value = { stated.Facts };

    ghost view = { λ f. record {
      term = f.term;
      nest = f.nest;
      outer = f.outer.items;
      unlabelled = f.unlabelled;
      triples = f.triples.keys;
    } };

    ghost invariant = { λ f. AreKept f.triples.keys };
}

impl Facts {
    /// Nothing was read. Takes no memory.
    pub fn new(alloc: Global) -> Facts
        ensures { result ≡ no_facts }
    {
        Facts {
            alloc,
            term: None,
            nest: no_nest(),
            outer: Vec::new(alloc),
            unlabelled: 0,
            triples: IndexSet::new(alloc),
        }
    }

    /// The triples, each once, up to one more than a graph may have.
    pub fn into_triples(self) -> IndexSet<NodeTriple>
        ensures triples { result.keys ≡ self.triples }
        ensures kept { AreKept self.triples }
    {
        self.triples
    }

    /// A term was read.
    pub fn read(&mut self, term: Object)
        ensures { self.new ≡ record self.old { term = Some term } }
    {
        self.term = Some(term);
    }

    /// The term is the subject.
    pub fn name_subject(&mut self)
        ensures { self.new ≡ with_subject self.old }
    {
        self.nest.subject = node_in(self.term.take());
    }

    /// The term is the predicate.
    pub fn name_predicate(&mut self)
        ensures { self.new ≡ with_predicate self.old }
    {
        self.nest.predicate = iri_in(self.term.take());
    }

    /// The term is an object.
    pub fn add_object(&mut self) -> Result<(), NoMemory>
        ensures { OnOk result (AreSame self.new (with_object self.old)) }
    {
        let subject = copy_node(self.alloc, &self.nest.subject)?;
        let predicate = copy_iri(self.alloc, &self.nest.predicate)?;
        let object = self.term.take();
        self.add_triple(subject, predicate, object)
    }

    /// States a triple, where its three terms are there.
    fn add_triple(
        &mut self,
        subject: Option<Node>,
        predicate: Option<Iri>,
        object: Option<Object>,
    ) -> Result<(), NoMemory>
        ensures { OnOk result (AreSame self.new
            (with_triple subject predicate object self.old)) }
    {
        if let (Some(subject), Some(predicate), Some(object)) = (subject, predicate, object) {
            let triple = NodeTriple {
                subject,
                predicate,
                object,
            };
            return self.keep(triple);
        }
        self.kept();
        Ok(())
    }

    /// Law: each triple is held once, with numbers that memory reaches.
    fn kept(&self)
        ensures { AreKept self.now.triples }
    {
        self.triples.len();
    }

    /// Keeps a triple that was stated, unless there are too many for a graph.
    fn keep(&mut self, triple: NodeTriple) -> Result<(), NoMemory>
        ensures { OnOk result (AreSame self.new
            (record self.old { triples = self.old.triples ++ triple ∷ [] })) }
    {
        if MOST_TRIPLES < self.triples.len() {
            return Ok(());
        }
        if !is_near(&triple) {
            return Err(NoMemory);
        }
        self.triples.insert(triple).map_err(AllocError::from)?;
        Ok(())
    }

    /// Opens brackets.
    pub fn open_bracket(&mut self) -> Result<(), TokenFault>
        ensures { Turns result self.new (bracket_opened self.old) }
    {
        let number = self.unlabelled;
        let nest = Nest {
            whole: Some(Node::Unlabelled(number)),
            subject: Some(Node::Unlabelled(number)),
            predicate: None,
        };
        self.open(nest)?;
        self.unlabelled = behind(number)?;
        Ok(())
    }

    /// Opens a list.
    pub fn open_collection(&mut self) -> Result<(), TokenFault>
        ensures { Turns result self.new (collection_opened self.old) }
    {
        self.open(no_nest())
    }

    /// Opens brackets or a list.
    fn open(&mut self, nest: Nest) -> Result<(), TokenFault>
        ensures { Turns result self.new (opened nest self.old.unlabelled self.old) }
    {
        if self.outer.len() >= MOST_NESTS {
            return Err(TokenFault::TooDeep);
        }
        let outer = mem::replace(&mut self.nest, nest);
        self.outer.push(outer).map_err(AllocError::from)?;
        Ok(())
    }

    /// Closes brackets.
    pub fn close_bracket(&mut self)
        ensures { self.new ≡ closed self.old.nest.whole self.old }
    {
        let whole = self.nest.whole.take();
        self.close(whole);
    }

    /// Closes what is open; this node stands for it.
    fn close(&mut self, whole: Option<Node>)
        ensures { self.new ≡ closed whole self.old }
    {
        self.nest = last_nest(&mut self.outer);
        self.term = node_term(whole);
    }

    /// A cell of the list appears.
    pub fn add_cell(&mut self) -> Result<(), TokenFault>
        ensures { TurnsTo AreSame result self.new (Ok (cell_added self.old)) }
    {
        let number = self.unlabelled;
        let last = copy_node(self.alloc, &self.nest.subject)?;
        let rest = Iri::of_ascii(self.alloc, rdf!("rest"))?;
        let cell = Object::Node(Node::Unlabelled(number));
        self.add_triple(last, Some(rest), Some(cell))?;
        let whole = self.nest.whole.take();
        self.nest = Nest {
            whole: Some(whole.unwrap_or(Node::Unlabelled(number))),
            subject: Some(Node::Unlabelled(number)),
            predicate: None,
        };
        self.unlabelled = behind(number)?;
        Ok(())
    }

    /// The term is the element of the cell.
    pub fn add_element(&mut self) -> Result<(), NoMemory>
        ensures { OnOk result (AreSame self.new (element_added self.old)) }
    {
        let cell = copy_node(self.alloc, &self.nest.subject)?;
        let first = Iri::of_ascii(self.alloc, rdf!("first"))?;
        let element = self.term.take();
        self.add_triple(cell, Some(first), element)
    }

    /// Closes a list.
    pub fn close_collection(&mut self) -> Result<(), NoMemory>
        ensures { OnOk result (AreSame self.new (collection_closed self.old)) }
    {
        let last = copy_node(self.alloc, &self.nest.subject)?;
        let rest = Iri::of_ascii(self.alloc, rdf!("rest"))?;
        let nil = Iri::of_ascii(self.alloc, rdf!("nil"))?;
        let end = Object::Node(Node::Iri(nil));
        self.add_triple(last, Some(rest), Some(end))?;
        let whole = match self.nest.whole.take() {
            Some(first) => first,
            None => Node::Iri(Iri::of_ascii(self.alloc, rdf!("nil"))?),
        };
        self.close(Some(whole));
        Ok(())
    }
}

/// Whether the numbers of the nodes of a triple are such as memory may reach.
fn is_near(triple: &NodeTriple) -> bool
    ensures { IsTrue result ↔ IsNear triple.now }
{
    let Object::Node(object) = &triple.object else {
        return is_near_node(&triple.subject);
    };
    is_near_node(&triple.subject) && is_near_node(object)
}

fn is_near_node(node: &Node) -> bool
    ensures { IsTrue result ↔ IsNearNode node.now }
{
    match node {
        Node::Unlabelled(number) => *number < MOST_NODES,
        Node::Iri(_) | Node::Label(_) => true,
    }
}

/// Nothing is open.
fn no_nest() -> Nest
    ensures { result ≡ no_nest }
{
    Nest {
        whole: None,
        subject: None,
        predicate: None,
    }
}

/// The innermost of what stands around, which is taken from it.
fn last_nest(outer: &mut Vec<Nest>) -> Nest
    ensures last { result ≡ last_nest outer.old.items }
    ensures others { outer.new.items ≡ take (length outer.old.items - 1) outer.old.items }
{
    match outer.pop() {
        Some(nest) => nest,
        None => no_nest(),
    }
}

/// The node as a term.
fn node_term(node: Option<Node>) -> Option<Object>
    ensures { result ≡ node_term node }
{
    match node {
        Some(node) => Some(Object::Node(node)),
        None => None,
    }
}

/// The next number. A document of so many nodes fits into no memory.
fn behind(number: u64) -> Result<u64, TokenFault>
    ensures ok { IfOk result (λ next. next ≡ number + 1) }
    ensures memory { IfErr result (λ fault. fault ≡ TokenFault.Memory) }
{
    number.checked_add(1).ok_or(TokenFault::Memory)
}

/// The node that a term is, if it is one.
fn node_in(term: Option<Object>) -> Option<Node>
    ensures { result ≡ node_in term }
{
    match term {
        Some(Object::Node(node)) => Some(node),
        _ => None,
    }
}

/// The IRI that a term is, if it is one.
fn iri_in(term: Option<Object>) -> Option<Iri>
    ensures { result ≡ iri_in term }
{
    match term {
        Some(Object::Node(Node::Iri(iri))) => Some(iri),
        _ => None,
    }
}

/// An equal node, where there is one.
fn copy_node(alloc: Global, node: &Option<Node>) -> Result<Option<Node>, NoMemory>
    ensures { IfOk result (λ copy. copy ≡ node.now) }
{
    match node {
        Some(node) => Ok(Some(node.copy(alloc)?)),
        None => Ok(None),
    }
}

/// An equal IRI, where there is one.
fn copy_iri(alloc: Global, iri: &Option<Iri>) -> Result<Option<Iri>, NoMemory>
    ensures { IfOk result (λ copy. copy ≡ iri.now) }
{
    match iri {
        Some(iri) => Ok(Some(iri.copy(alloc)?)),
        None => Ok(None),
    }
}
