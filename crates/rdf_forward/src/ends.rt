//! What terms and triples are made of, before any of them is made.

ghost use Rattle.std.specs.Prelude.{◌≡◌, ◌<◌, ℕ, List, length};
ghost use Rattle.owl_arena.specs.Held.{tree_at};
ghost use Rattle.rdf_mapping.specs.Forms.{term_of};
ghost use Rattle.rdf_mapping.specs.Drawing.{form_of};
ghost use Rattle.rdf_forward.specs.Walks.{IsDrawnBelow, drawn_form, end_term, holder_term};
ghost use Rattle.rdf_forward.specs.Walks.{list_term, rest_term};
ghost use Rattle.rdf_forward.specs.AxiomWalks.{is_end, link_at};

use crate::drawn::Drawn;
use owl_arena::{Arena, ExprId};
use owl_tree::Atom;
use rdf_meaning::{Place, Word};
use rdf_terms::Iri;

/// What an IRI is made of.
#[derive(Clone, Copy)]
pub enum Name<'a> {
    /// rdf:type
    Type,
    /// The IRI of a word.
    Word(Word),
    /// The predicate of a word's triples: rdf:type for a class.
    Arc(Word),
    /// An IRI that is there.
    Given(&'a Iri),
}

/// What a term is made of.
#[derive(Clone, Copy)]
pub enum End<'a> {
    /// An IRI.
    Named(Name<'a>),
    /// The term that a leaf is.
    Leaf(&'a Atom),
    /// The blank node with this number.
    Node(u64),
    /// rdf:nil, the list without elements.
    Nil,
    /// The literal "true".
    True,
}

/// What a triple is made of.
#[derive(Clone, Copy)]
pub struct Link<'a> {
    pub subject: End<'a>,
    pub predicate: Name<'a>,
    pub object: End<'a>,
}

/// What annotations belong to.
#[derive(Clone, Copy)]
pub enum Holder<'a> {
    /// The blank node with this number.
    Node(u64),
    /// The ontology with this IRI.
    Named(&'a Iri),
}

/// The holder as an end of a triple.
pub fn holder_end<'a>(holder: &Holder<'a>) -> End<'a>
    ensures { (name : ℕ → List ℕ) → end_term name result ≡ holder_term name holder.now }
{
    match *holder {
        Holder::Node(number) => End::Node(number),
        Holder::Named(iri) => End::Named(Name::Given(iri)),
    }
}

/// The term of a tree whose nodes have the numbers from this one on.
pub fn tree_end<'a>(arena: &'a Arena, id: ExprId, number: u64) -> End<'a>
    requires { id < length arena.now.trees }
    ensures { (name : ℕ → List ℕ) → end_term name result
        ≡ term_of name (form_of (tree_at arena.now.trees id)) number }
{
    match arena.atom(id) {
        Some(atom) => End::Leaf(atom),
        None => End::Node(number),
    }
}

/// The term of a list of such trees.
fn list_end<'a>(ids: &'a [ExprId], number: u64) -> End<'a>
    ensures { (name : ℕ → List ℕ) → end_term name result ≡ list_term name ids.now number }
{
    match ids {
        [] => End::Nil,
        [_, ..] => End::Node(number),
    }
}

/// The term that a cell leads to: that of the next one, or of the end.
pub fn rest_end<'a>(goes_on: bool, number: u64) -> End<'a>
    ensures { (name : ℕ → List ℕ) → end_term name result ≡ rest_term name goes_on number }
{
    if goes_on { End::Node(number) } else { End::Nil }
}

/// The term of what stands at a part, whose nodes have the numbers from this one on.
pub fn drawn_end<'a>(arena: &'a Arena, drawn: &Drawn<'a>, number: u64) -> End<'a>
    requires { IsDrawnBelow (length arena.now.trees) drawn.now }
    ensures { (name : ℕ → List ℕ) → end_term name result
        ≡ term_of name (drawn_form arena.now.trees drawn.now) number }
{
    match *drawn {
        Drawn::Kid(id) => tree_end(arena, id, number),
        Drawn::Trees(_, ids) => list_end(ids, number),
        Drawn::Keys(objects, others) => match objects {
            [] => list_end(others, number),
            [_, ..] => list_end(objects, number),
        },
        Drawn::Class(word) => End::Named(Name::Word(word)),
        Drawn::True => End::True,
    }
}

/// Whether what stands there is an end of a triple.
pub fn is_end(place: Place) -> bool
    ensures { result ≡ is_end place }
{
    match place {
        Place::Subject | Place::Object => true,
        Place::Predicate | Place::At(_) => false,
    }
}

/// The triple whose end at this place is near, and whose other end is far.
pub fn link_at<'a>(place: Place, near: &End<'a>, predicate: &Name<'a>, far: &End<'a>) -> Link<'a>
    ensures { result ≡ link_at place near.now predicate.now far.now }
{
    match place {
        Place::Object => Link {
            subject: *far,
            predicate: *predicate,
            object: *near,
        },
        Place::Subject | Place::Predicate | Place::At(_) => Link {
            subject: *near,
            predicate: *predicate,
            object: *far,
        },
    }
}
