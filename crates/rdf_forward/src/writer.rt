//! The triples of an ontology, as they are made.

ghost use Rattle.std.specs.Prelude.{◌≡◌, ◌<◌, [], IfOk, OnOk, length};
ghost use Rattle.owl_arena.specs.Held.{tree_at};
ghost use Rattle.rdf_graph.specs.Terms.{IsSubject};
ghost use Rattle.rdf_mapping.specs.Forms.{first_iri, rest_iri, term_of};
ghost use Rattle.rdf_mapping.specs.Drawing.{arc_iri, atom_term, form_of};
ghost use Rattle.rdf_forward.specs.AxiomWalks.{main_triples};
ghost use Rattle.rdf_forward.specs.Walks.{IsDrawnBelow, Writes, WritesLink, drawn_form, end_term};
ghost use Rattle.rdf_forward.specs.Walks.{holder_term, name_iri, names, node_term, rest_term};
ghost use Rattle.rdf_forward.specs.Walks.{second_cell};

use crate::drawn::Drawn;
use crate::ends::{End, Holder, Link, Name, drawn_end, rest_end, tree_end};
use blank_labels::FreshLabels;
use owl_arena::{Arena, ExprId};
use owl_characters::NoMemory;
use owl_tree::Atom;
use rdf_graph::{Gather, Term, Triple};
use rdf_mapping::{arc_iri, nil, number_literal, true_literal, type_iri, word_iri};
use rdf_meaning::Word;
use rdf_terms::Iri;
use std::alloc::Global;

/// The triples that were made, and how many blank nodes have a number.
#[derive(Drop)]
pub struct Writer {
    pub alloc: Global,
    pub gather: Gather,
    pub next: u64,
    pub labels: FreshLabels,
}

impl Writer {
    /// The number of one more blank node.
    pub fn fresh(&mut self) -> Result<u64, NoMemory>
        ensures number { IfOk result (λ number. number ≡ self.old.next) }
        ensures one { OnOk result (Writes self.old self.new 1 []) }
    {
        let number = self.next;
        self.next = number.checked_add(1).ok_or(NoMemory)?;
        Ok(number)
    }

    /// The blank node with this number.
    fn blank(&self, number: u64) -> Result<Term, NoMemory>
        ensures { IfOk result (λ term. term ≡ node_term self.now number) }
    {
        Ok(Term::Blank(self.labels.label(self.alloc, number)?))
    }

    /// The IRI of a name.
    fn name_iri(&self, name: &Name) -> Result<Iri, NoMemory>
        ensures { IfOk result (λ iri. iri ≡ name_iri name.now) }
    {
        match *name {
            Name::Type => type_iri(self.alloc),
            Name::Word(word) => word_iri(self.alloc, word),
            Name::Arc(word) => arc_iri(self.alloc, word),
            Name::Given(iri) => iri.copy(self.alloc),
        }
    }

    /// The term that a leaf is.
    fn atom_term(&self, atom: &Atom) -> Result<Term, NoMemory>
        ensures { IfOk result (λ term. term ≡ atom_term atom.now) }
    {
        match atom {
            Atom::Iri(iri) => Ok(Term::Iri(iri.copy(self.alloc)?)),
            Atom::Label(label) => Ok(Term::Blank(label.copy(self.alloc)?)),
            Atom::Literal(literal) => Ok(Term::Literal(literal.copy(self.alloc)?)),
            Atom::Number(number) => Ok(Term::Literal(number_literal(self.alloc, *number)?)),
        }
    }

    /// The term of an end.
    pub fn term(&self, end: &End) -> Result<Term, NoMemory>
        ensures { IfOk result (λ term. term ≡ end_term (names self.now) end.now) }
    {
        match end {
            End::Named(name) => Ok(Term::Iri(self.name_iri(name)?)),
            End::Leaf(atom) => self.atom_term(atom),
            End::Node(number) => self.blank(*number),
            End::Nil => nil(self.alloc),
            End::True => Ok(Term::Literal(true_literal(self.alloc)?)),
        }
    }

    /// The term that annotations belong to.
    fn holder_term(&self, holder: &Holder) -> Result<Term, NoMemory>
        ensures { IfOk result (λ term. term ≡ holder_term (names self.now) holder.now) }
    {
        match *holder {
            Holder::Node(number) => self.blank(number),
            Holder::Named(iri) => Ok(Term::Iri(iri.copy(self.alloc)?)),
        }
    }

    /// Adds the triple of a subject.
    fn add(&mut self, subject: Term, predicate: &Name, object: &End) -> Result<(), NoMemory>
        requires { IsSubject subject }
        ensures { OnOk result (WritesLink self.old self.new subject (name_iri predicate.now)
            (end_term (names self.old) object.now)) }
    {
        let predicate = self.name_iri(predicate)?;
        let object = self.term(object)?;
        self.gather.add(Triple {
            subject,
            predicate,
            object,
        })
    }

    /// Adds the triple of a holder.
    pub fn link(&mut self, holder: &Holder, predicate: &Name, object: &End) -> Result<(), NoMemory>
        ensures { OnOk result (WritesLink self.old self.new
            (holder_term (names self.old) holder.now) (name_iri predicate.now)
            (end_term (names self.old) object.now)) }
    {
        let subject = self.holder_term(holder)?;
        self.add(subject, predicate, object)
    }

    /// Adds the triple, unless its subject is a literal.
    pub fn add_main(&mut self, link: &Link) -> Result<(), NoMemory>
        ensures { OnOk result (Writes self.old self.new 0
            (main_triples (names self.old) link.now [])) }
    {
        let subject = self.term(&link.subject)?;
        if let Term::Literal(_) = subject {
            return Ok(());
        }
        self.add(subject, &link.predicate, &link.object)
    }

    /// Adds the triple of a node that leads to what stands at a part.
    pub fn link_part(
        &mut self,
        arena: &Arena,
        node: u64,
        word: Word,
        drawn: &Drawn,
    ) -> Result<(), NoMemory>
        requires { IsDrawnBelow (length arena.now.trees) drawn.now }
        ensures { OnOk result (WritesLink self.old self.new (node_term self.old node) (arc_iri word)
            (term_of (names self.old) (drawn_form arena.now.trees drawn.now) self.old.next)) }
    {
        let object = drawn_end(arena, drawn, self.next);
        self.link(&Holder::Node(node), &Name::Arc(word), &object)
    }

    /// Adds the triple of a facet that leads to its value.
    pub fn link_facet(
        &mut self,
        arena: &Arena,
        node: u64,
        facet: &Iri,
        value: ExprId,
    ) -> Result<(), NoMemory>
        requires { value < length arena.now.trees }
        ensures { OnOk result (WritesLink self.old self.new (node_term self.old node) facet.now
            (term_of (names self.old) (form_of (tree_at arena.now.trees value)) self.old.next)) }
    {
        let object = tree_end(arena, value, self.next);
        self.link(&Holder::Node(node), &Name::Given(facet), &object)
    }

    /// Adds the triple of a cell that leads to its element.
    pub fn link_element(
        &mut self,
        arena: &Arena,
        cell: u64,
        id: ExprId,
        number: u64,
    ) -> Result<(), NoMemory>
        requires { id < length arena.now.trees }
        ensures { OnOk result (WritesLink self.old self.new (node_term self.old cell) first_iri
            (term_of (names self.old) (form_of (tree_at arena.now.trees id)) number)) }
    {
        let object = tree_end(arena, id, number);
        self.link(&Holder::Node(cell), &Name::Word(Word::First), &object)
    }

    /// Adds the triple of a cell that leads to the next one, which is made next, or
    /// to the end.
    pub fn link_rest(&mut self, cell: u64, goes_on: bool) -> Result<(), NoMemory>
        ensures { OnOk result (WritesLink self.old self.new (node_term self.old cell) rest_iri
            (rest_term (names self.old) goes_on self.old.next)) }
    {
        let object = rest_end(goes_on, self.next);
        self.link(&Holder::Node(cell), &Name::Word(Word::Rest), &object)
    }

    /// Adds the second cell of a list that has its one element twice.
    pub fn link_again(
        &mut self,
        arena: &Arena,
        cell: u64,
        id: ExprId,
        number: u64,
    ) -> Result<(), NoMemory>
        requires { id < length arena.now.trees }
        ensures { OnOk result (Writes self.old self.new 1
            (second_cell (names self.old) cell self.old.next
            (term_of (names self.old) (form_of (tree_at arena.now.trees id)) number))) }
    {
        self.link_rest(cell, true)?;
        let second = self.fresh()?;
        self.link_element(arena, second, id, number)?;
        self.link_rest(second, false)
    }
}
