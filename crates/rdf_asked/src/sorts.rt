//! Which terms stand where a tree of a sort stands.

ghost use Rattle.std.specs.Prelude.{◌≡◌, List};
ghost use Rattle.std.specs.Option.{is_some};
ghost use Rattle.rdf_graph.specs.declared.term.Term.TheVariants as held;
ghost use Rattle.rdf_graph.specs.declared.triple.Triple.{Triple};
ghost use Rattle.rdf_meaning.specs.Denotation.{declared_entity, kind_of_entity, number_leaf};
ghost use Rattle.rdf_meaning.specs.Kinds.{has_kind, may_be_declared};
ghost use Rattle.rdf_meaning.specs.Nodes.{role_of};
ghost use Rattle.rdf_faults.specs.Asked.{is_key, is_of_sort};
ghost use Rattle.rdf_rows.specs.Roles.{is_the_role};
ghost use Rattle.rdf_asked.specs.Sorts.{is_declared_as, is_literal_for, kind_for, role_for, takes_all_iris};
ghost use Rattle.rdf_roles.specs.Tables.{IsTableOf};

use owl_kind::{Kind, Kinds, built_in};
use owl_tree::{Sort, Tag};
use rdf_graph::Term;
use rdf_meaning::Role;
use rdf_roles::Roles;
use rdf_rows::cardinality_of;
use rdf_terms::{Iri, reserved};

/// What the term is in the graph whose roles these are.
pub fn role_of_term(roles: &Roles, term: &Term) -> Role
    ensures { (g : List Triple) → IsTableOf g roles.now → result ≡ role_of g term.now }
{
    match term {
        Term::Blank(label) => roles.role(label),
        Term::Iri(_) | Term::Literal(_) => Role::Individual,
    }
}

/// Whether the term stands for a tree of the sort by its own, or is a node that
/// may (Mapping to RDF Graphs, section 3.2).
pub fn is_of_sort(roles: &Roles, kinds: &Kinds, sort: Sort, term: &Term) -> bool
    ensures { (g : List Triple) → IsTableOf g roles.now
        → result ≡ is_of_sort g kinds.now sort term.now }
{
    match term {
        Term::Iri(iri) => names_tree(kinds, sort, iri),
        Term::Blank(label) => is_node_for(sort, roles.role(label)),
        Term::Literal(_) => is_literal_for(sort, term),
    }
}

/// Whether the term is a property that may be in a key.
pub fn is_key(roles: &Roles, kinds: &Kinds, term: &Term) -> bool
    ensures { (g : List Triple) → IsTableOf g roles.now → result ≡ is_key g kinds.now term.now }
{
    is_of_sort(roles, kinds, Sort::ObjectPropertyExpression, term)
        || is_of_sort(roles, kinds, Sort::DataPropertyExpression, term)
}

/// Whether the IRI stands for a tree of the sort.
pub fn names_tree(kinds: &Kinds, sort: Sort, iri: &Iri) -> bool
    ensures { (g : List Triple) → result ≡ is_of_sort g kinds.now sort (held.Iri iri.now) }
{
    match kind_for(sort) {
        Some(kind) => has_kind(kinds, kind, iri),
        None => takes_all_iris(sort),
    }
}

/// Whether the IRI is declared as this kind, or built in as it.
pub fn has_kind(kinds: &Kinds, kind: Kind, iri: &Iri) -> bool
    ensures { result ≡ has_kind kinds.now kind iri.now }
{
    kinds.has(kind, iri)
}

/// The kind of the IRIs that stand for trees of the sort.
fn kind_for(sort: Sort) -> Option<Kind>
    ensures { result ≡ kind_for sort }
{
    match sort {
        Sort::ClassExpression | Sort::Class => Some(Kind::Class),
        Sort::DataRange | Sort::Datatype => Some(Kind::Datatype),
        Sort::ObjectPropertyExpression | Sort::ObjectProperty => Some(Kind::ObjectProperty),
        Sort::DataPropertyExpression => Some(Kind::DataProperty),
        Sort::AnnotationProperty => Some(Kind::AnnotationProperty),
        _ => None,
    }
}

/// Whether each IRI stands for a tree of the sort.
fn takes_all_iris(sort: Sort) -> bool
    ensures { result ≡ takes_all_iris sort }
{
    match sort {
        Sort::Individual | Sort::Iri | Sort::AnnotationSubject | Sort::AnnotationValue => true,
        _ => false,
    }
}

/// Whether a blank node of the role may stand for a tree of the sort.
fn is_node_for(sort: Sort, role: Role) -> bool
    ensures { result ≡ is_the_role (role_for sort) role }
{
    match role_for(sort) {
        Some(other) => other == role,
        None => false,
    }
}

/// The role of the blank nodes that may stand for trees of the sort.
fn role_for(sort: Sort) -> Option<Role>
    ensures { result ≡ role_for sort }
{
    match sort {
        Sort::ObjectPropertyExpression => Some(Role::Property),
        Sort::ClassExpression => Some(Role::Class),
        Sort::DataRange => Some(Role::Range),
        Sort::FacetPair => Some(Role::Facet),
        Sort::Individual | Sort::AnnotationSubject | Sort::AnnotationValue => {
            Some(Role::Individual)
        }
        _ => None,
    }
}

/// Whether the term, a literal, stands for a tree of the sort.
fn is_literal_for(sort: Sort, term: &Term) -> bool
    ensures { result ≡ is_literal_for sort term.now }
{
    match sort {
        Sort::AnnotationValue | Sort::Literal => true,
        Sort::Number => is_number(term),
        _ => false,
    }
}

/// Whether the term is a cardinality.
fn is_number(term: &Term) -> bool
    ensures { result ≡ is_some (number_leaf term.now) }
{
    cardinality_of(term).is_some()
}

/// Whether the term is declared as the entity that has the tag.
#[tactic(auto, unfolding(rdf_meaning::specs::Denotation::declared_entity))]
pub fn is_declared(kinds: &Kinds, tag: Tag, term: &Term) -> bool
    ensures { result ≡ is_some (declared_entity kinds.now tag term.now) }
{
    match term {
        Term::Iri(iri) => is_entity(kinds, tag, iri),
        Term::Blank(_) | Term::Literal(_) => false,
    }
}

/// Whether the IRI is declared as the entity that has the tag.
pub fn is_entity(kinds: &Kinds, tag: Tag, iri: &Iri) -> bool
    ensures { result ≡ is_some (declared_entity kinds.now tag (held.Iri iri.now)) }
{
    is_declared_as(kinds, kind_of_entity(tag), iri)
}

/// Whether the IRI is declared as this kind: as an individual where it may be.
fn is_declared_as(kinds: &Kinds, kind: Option<Kind>, iri: &Iri) -> bool
    ensures { result ≡ is_declared_as kinds.now kind iri.now }
{
    match kind {
        Some(Kind::Individual) => may_be_declared(Kind::Individual, iri),
        Some(kind) => has_kind(kinds, kind, iri) && may_be_declared(kind, iri),
        None => false,
    }
}

/// Whether the IRI may be declared as this kind: one that is reserved, as what it
/// is built in as (Structural Specification, section 2.4).
#[tactic(auto, unfolding(rdf_meaning::specs::Kinds::may_be_declared))]
pub fn may_be_declared(kind: Kind, iri: &Iri) -> bool
    ensures { result ≡ may_be_declared kind iri.now }
{
    !reserved(iri) || built_in(kind, iri)
}

/// The kind of the entities that have the tag.
fn kind_of_entity(tag: Tag) -> Option<Kind>
    ensures { result ≡ kind_of_entity tag }
{
    match tag {
        Tag::Class => Some(Kind::Class),
        Tag::Datatype => Some(Kind::Datatype),
        Tag::ObjectProperty => Some(Kind::ObjectProperty),
        Tag::DataProperty => Some(Kind::DataProperty),
        Tag::AnnotationProperty => Some(Kind::AnnotationProperty),
        Tag::NamedIndividual => Some(Kind::Individual),
        _ => None,
    }
}
