//! What a term stands for.

ghost use Rattle.std.specs.Prelude.{◌≡◌, ◌↔◌, ◌∷◌, [], IfOk, IfSome, IsNone, IsTrue, None, Some, cond, true};
ghost use Rattle.owl_tree.specs.declared.row.Sort.TheVariants.{Number};
ghost use Rattle.rdf_faults.specs.Asked.{is_of_sort};
ghost use Rattle.rdf_meaning.specs.declared.role.Role.TheVariants as role;
ghost use Rattle.rdf_meaning.specs.declared.row.Want.TheVariants.{One};
ghost use Rattle.rdf_meaning.specs.Denotation.{anonymous, facet_pair, facets_of, literal_leaf, named, named_individual, number_leaf, or_else, plain_iri, simple, sort_of};
ghost use Rattle.rdf_meaning.specs.Nodes.{is_role, role_of};
ghost use Rattle.rdf_roles.specs.Tables.{IsTableOf};
ghost use Rattle.rdf_nodes.specs.Operands.{DenotesNone, IsFound, IsNodeOf, IsOperand, IsOwn, IsSmall, IsTree, IsWantedOfNode, is_told_by_kind};

use crate::form::Operand;
use crate::source::Source;
use owl_characters::NoMemory;
use owl_kind::Kind;
use owl_tree::{Atom, Sort, Tag};
use rdf_graph::{Term, Triple};
use rdf_meaning::Role;
use rdf_rows::{Cardinality, cardinality_of, only_facet};

impl<'a> Source<'a> {
    /// What the term stands for where a tree of the sort stands.
    pub fn operand(&self, sort: Sort, term: &Term) -> Result<Option<Operand>, NoMemory>
        requires { IsTableOf self.now.graph.now self.now.roles.now }
        ensures operand { IfOk result (λ found. IfSome found (
            IsOperand self.now.graph.now self.now.kinds.now self.now.roles.now sort term.now)) }
        ensures none { IfOk result (λ found. IsNone found → is_told_by_kind sort ≡ true →
            IsTrue (is_of_sort self.now.graph.now self.now.kinds.now sort term.now) → ⊥) }
        ensures no_tree { IfOk result (λ found. IsNone found →
            IsWantedOfNode (One sort) term.now →
            DenotesNone self.now.graph.now self.now.kinds.now (One sort) term.now) }
    {
        match self.number_of(sort, term) {
            Some(number) => Ok(Some(Operand::Node(number))),
            None => self.itself(sort, term),
        }
    }

    /// The number of the node, where it is one of which a tree of the sort is
    /// denoted.
    fn number_of(&self, sort: Sort, term: &Term) -> Option<usize>
        requires { IsTableOf self.now.graph.now self.now.roles.now }
        ensures node { IfSome result (
            IsNodeOf self.now.graph.now self.now.roles.now sort term.now) }
        ensures none { IsNone result →
            sort_of (role_of self.now.graph.now term.now) ≡ Some sort → ⊥ }
    {
        let Term::Blank(label) = term else {
            return None;
        };
        if gives(self.roles.role(label), sort) {
            self.roles.number(label)
        } else {
            None
        }
    }

    /// The tree that the term stands for by itself where one of the sort stands.
    #[tactic(auto, unfolding(rdf_meaning::specs::Denotation::simple))]
    fn itself(&self, sort: Sort, term: &Term) -> Result<Option<Operand>, NoMemory>
        requires { IsTableOf self.now.graph.now self.now.roles.now }
        ensures own { IfOk result (λ found. IfSome found (
            IsOwn self.now.graph.now self.now.kinds.now sort term.now)) }
        ensures none { IfOk result (λ found. IsNone found → IsSmall sort term.now →
            simple self.now.graph.now self.now.kinds.now sort term.now ≡ None) }
    {
        match sort {
            Sort::ClassExpression | Sort::Class => self.named(Kind::Class, Tag::Class, term),
            Sort::DataRange | Sort::Datatype => self.named(Kind::Datatype, Tag::Datatype, term),
            Sort::ObjectPropertyExpression | Sort::ObjectProperty => {
                self.named(Kind::ObjectProperty, Tag::ObjectProperty, term)
            }
            Sort::DataPropertyExpression => {
                self.named(Kind::DataProperty, Tag::DataProperty, term)
            }
            Sort::AnnotationProperty => {
                self.named(Kind::AnnotationProperty, Tag::AnnotationProperty, term)
            }
            Sort::Individual => self.individual(term),
            Sort::Iri => self.plain_iri(term),
            Sort::AnnotationSubject => self.subject(term),
            Sort::AnnotationValue => self.value(term),
            Sort::Literal => self.literal(term),
            Sort::Number => Ok(number(term)),
            Sort::FacetPair => self.facet(term),
            _ => Ok(None),
        }
    }

    /// The entity of the kind that the term names.
    fn named(&self, kind: Kind, tag: Tag, term: &Term) -> Result<Option<Operand>, NoMemory>
        ensures { IfOk result (IsFound (named self.now.kinds.now kind tag term.now)) }
    {
        match term {
            Term::Iri(iri) => {
                if !self.kinds.has(kind, iri) {
                    return Ok(None);
                }
                let atom = Atom::Iri(iri.copy(self.alloc)?);
                Ok(Some(Operand::Leaf(tag, atom)))
            }
            Term::Blank(_) | Term::Literal(_) => Ok(None),
        }
    }

    /// The individual that the term is.
    fn individual(&self, term: &Term) -> Result<Option<Operand>, NoMemory>
        requires { IsTableOf self.now.graph.now self.now.roles.now }
        ensures { IfOk result (IsFound (
            or_else (named_individual term.now) (anonymous self.now.graph.now term.now))) }
    {
        match term {
            Term::Iri(iri) => {
                let atom = Atom::Iri(iri.copy(self.alloc)?);
                Ok(Some(Operand::Leaf(Tag::NamedIndividual, atom)))
            }
            Term::Blank(_) | Term::Literal(_) => self.anonymous(term),
        }
    }

    /// The anonymous individual that the term is.
    fn anonymous(&self, term: &Term) -> Result<Option<Operand>, NoMemory>
        requires { IsTableOf self.now.graph.now self.now.roles.now }
        ensures { IfOk result (IsFound (anonymous self.now.graph.now term.now)) }
    {
        match term {
            Term::Blank(label) if self.roles.role(label) == Role::Individual => {
                let atom = Atom::Label(label.copy(self.alloc)?);
                Ok(Some(Operand::Leaf(Tag::Anonymous, atom)))
            }
            Term::Iri(_) | Term::Blank(_) | Term::Literal(_) => Ok(None),
        }
    }

    /// The IRI that the term is.
    fn plain_iri(&self, term: &Term) -> Result<Option<Operand>, NoMemory>
        ensures { IfOk result (IsFound (plain_iri term.now)) }
    {
        match term {
            Term::Iri(iri) => {
                let atom = Atom::Iri(iri.copy(self.alloc)?);
                Ok(Some(Operand::Leaf(Tag::PlainIri, atom)))
            }
            Term::Blank(_) | Term::Literal(_) => Ok(None),
        }
    }

    /// The subject of annotations that the term is.
    fn subject(&self, term: &Term) -> Result<Option<Operand>, NoMemory>
        requires { IsTableOf self.now.graph.now self.now.roles.now }
        ensures { IfOk result (IsFound (
            or_else (plain_iri term.now) (anonymous self.now.graph.now term.now))) }
    {
        match term {
            Term::Iri(_) => self.plain_iri(term),
            Term::Blank(_) | Term::Literal(_) => self.anonymous(term),
        }
    }

    /// The value of an annotation that the term is.
    fn value(&self, term: &Term) -> Result<Option<Operand>, NoMemory>
        requires { IsTableOf self.now.graph.now self.now.roles.now }
        ensures { IfOk result (IsFound (or_else (plain_iri term.now)
            (or_else (anonymous self.now.graph.now term.now) (literal_leaf term.now)))) }
    {
        match term {
            Term::Iri(_) => self.plain_iri(term),
            Term::Blank(_) => self.anonymous(term),
            Term::Literal(_) => self.literal(term),
        }
    }

    /// The literal that the term is.
    fn literal(&self, term: &Term) -> Result<Option<Operand>, NoMemory>
        ensures { IfOk result (IsFound (literal_leaf term.now)) }
    {
        match term {
            Term::Literal(literal) => {
                let atom = Atom::Literal(literal.copy(self.alloc)?);
                Ok(Some(Operand::Leaf(Tag::Literal, atom)))
            }
            Term::Iri(_) | Term::Blank(_) => Ok(None),
        }
    }

    /// The facet and its value that the node is.
    fn facet(&self, term: &Term) -> Result<Option<Operand>, NoMemory>
        requires { IsTableOf self.now.graph.now self.now.roles.now }
        ensures { IfOk result (
            IsFound (cond (is_role role.Facet (role_of self.now.graph.now term.now))
            (facet_pair (facets_of self.now.graph.now term.now)) None)) }
    {
        let Term::Blank(label) = term else {
            return Ok(None);
        };
        if self.roles.role(label) != Role::Facet {
            return Ok(None);
        }
        match only_facet(self.graph.about(term)) {
            Some(triple) => self.facet_of(triple),
            None => Ok(None),
        }
    }

    /// The facet and its value that the triple names.
    fn facet_of(&self, triple: &Triple) -> Result<Option<Operand>, NoMemory>
        ensures { IfOk result (IsFound (facet_pair (triple.now ∷ []))) }
    {
        match &triple.object {
            Term::Literal(literal) => {
                let facet = triple.predicate.copy(self.alloc)?;
                Ok(Some(Operand::Facet(facet, literal.copy(self.alloc)?)))
            }
            Term::Iri(_) | Term::Blank(_) => Ok(None),
        }
    }
}

/// The number that the term is, where it fits 64 bits.
fn number(term: &Term) -> Option<Operand>
    ensures number { IfSome result (IsTree (number_leaf term.now)) }
    ensures none { IsNone result → IsSmall Number term.now → number_leaf term.now ≡ None }
{
    match cardinality_of(term)? {
        Cardinality::Number(number) => Some(Operand::Leaf(Tag::Number, Atom::Number(number))),
        Cardinality::TooLarge => None,
    }
}

/// Whether a node of the role stands for a tree of the sort.
fn gives(role: Role, sort: Sort) -> bool
    ensures { IsTrue result ↔ (sort_of role ≡ Some sort) }
{
    match (role, sort) {
        (Role::Property, Sort::ObjectPropertyExpression)
        | (Role::Class, Sort::ClassExpression)
        | (Role::Range, Sort::DataRange) => true,
        _ => false,
    }
}
