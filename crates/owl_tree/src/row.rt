//! What each tag has below it: one table, by which shape is tested here and
//! Functional-Style Syntax is read and written above.

ghost use Rattle.std.specs.Prelude.{◌≡◌};
ghost use Rattle.owl_tree.specs.Places.{admits_at, counts, counts_rest, rest_admits};
ghost use Rattle.owl_tree.specs.Rows.{admits, fits, is_from_to, is_of_sort, row_of, row_seen, set_start, takes};

use crate::atom::Atom;
use crate::tag::Tag;

/// A sort of atoms.
#[derive(Clone, Copy, Debug, PartialEq, Eq, PartialOrd, Ord)]
pub enum AtomSort {
    Iri,
    Label,
    Literal,
    Number,
}

/// A sort of trees, by the tags that it takes.
#[derive(Clone, Copy, Debug)]
pub enum Sort {
    Notes,
    Annotation,
    AnnotationProperty,
    AnnotationSubject,
    AnnotationValue,
    Iri,
    ClassExpression,
    Class,
    DataRange,
    Datatype,
    ObjectPropertyExpression,
    ObjectProperty,
    SubObjectPropertyExpression,
    DataPropertyExpression,
    Individual,
    Literal,
    Number,
    Facet,
    FacetPair,
    ObjectKeys,
    DataKeys,
    Entity,
}

use Sort::{
    Annotation, AnnotationProperty, AnnotationSubject, AnnotationValue, Class, ClassExpression,
    DataKeys, DataPropertyExpression, DataRange, Datatype, Entity, Facet, FacetPair, Individual,
    Iri, Literal, Notes, Number, ObjectKeys, ObjectProperty, ObjectPropertyExpression,
    SubObjectPropertyExpression,
};

/// What stands behind the front of a node.
#[derive(Clone, Copy, Debug)]
pub enum Rest {
    /// No more.
    Nothing,
    /// One tree of the sort, or none.
    Optional(Sort),
    /// At least so many trees of the sort, in order.
    AtLeast(Sort, usize),
    /// One or more trees of the first sort, in order, and one of the second.
    SomeThen(Sort, Sort),
    /// A set of trees of the sort, of which at least so many are written.
    Set(Sort, usize),
}

/// What a tag has below it.
#[derive(Clone, Copy, Debug)]
pub enum Row {
    /// The tag is of leaves, and this is the sort of their atoms.
    Leaf(AtomSort),
    /// The tag is of nodes, which have a tree of each of these sorts in front,
    /// in order, and then the rest.
    Node(&'static [Sort], Rest),
}

impl Tag {
    /// What the tag has below it (Structural Specification, sections 5 to 10).
    // Most callers ask for a part of the row, which then is one look at a table.
    #[inline(always)]
    #[tactic(auto, unfolding(crate::specs::Rows::row_of))]
    pub fn row(self) -> Row
        ensures { row_seen result ≡ row_of self }
    {
        match self {
            Tag::Class
            | Tag::Datatype
            | Tag::ObjectProperty
            | Tag::DataProperty
            | Tag::AnnotationProperty
            | Tag::NamedIndividual => Row::Leaf(AtomSort::Iri),
            Tag::Anonymous => Row::Leaf(AtomSort::Label),
            Tag::PlainIri => Row::Leaf(AtomSort::Iri),
            Tag::Literal => Row::Leaf(AtomSort::Literal),
            Tag::Number => Row::Leaf(AtomSort::Number),
            Tag::Facet => Row::Leaf(AtomSort::Iri),
            Tag::ObjectInverseOf => Row::Node(&[ObjectProperty], Rest::Nothing),
            Tag::ObjectPropertyChain => Row::Node(&[], Rest::AtLeast(ObjectPropertyExpression, 2)),
            Tag::ObjectIntersectionOf | Tag::ObjectUnionOf => Row::Node(
                &[],
                Rest::Set(ClassExpression, 2),
            ),
            Tag::ObjectComplementOf => Row::Node(&[ClassExpression], Rest::Nothing),
            Tag::ObjectOneOf => Row::Node(&[], Rest::Set(Individual, 1)),
            Tag::ObjectSomeValuesFrom | Tag::ObjectAllValuesFrom => Row::Node(
                &[ObjectPropertyExpression, ClassExpression],
                Rest::Nothing,
            ),
            Tag::ObjectHasValue => Row::Node(
                &[ObjectPropertyExpression, Individual],
                Rest::Nothing,
            ),
            Tag::ObjectHasSelf => Row::Node(&[ObjectPropertyExpression], Rest::Nothing),
            Tag::ObjectMinCardinality | Tag::ObjectMaxCardinality | Tag::ObjectExactCardinality =>
                Row::Node(
                    &[Number, ObjectPropertyExpression],
                    Rest::Optional(ClassExpression),
                ),
            Tag::DataSomeValuesFrom | Tag::DataAllValuesFrom => Row::Node(
                &[],
                Rest::SomeThen(DataPropertyExpression, DataRange),
            ),
            Tag::DataHasValue => Row::Node(&[DataPropertyExpression, Literal], Rest::Nothing),
            Tag::DataMinCardinality | Tag::DataMaxCardinality | Tag::DataExactCardinality =>
                Row::Node(&[Number, DataPropertyExpression], Rest::Optional(DataRange)),
            Tag::DataIntersectionOf | Tag::DataUnionOf => Row::Node(&[], Rest::Set(DataRange, 2)),
            Tag::DataComplementOf => Row::Node(&[DataRange], Rest::Nothing),
            Tag::DataOneOf => Row::Node(&[], Rest::Set(Literal, 1)),
            Tag::DatatypeRestriction => Row::Node(&[Datatype], Rest::Set(FacetPair, 1)),
            Tag::FacetPair => Row::Node(&[Facet, Literal], Rest::Nothing),
            Tag::ObjectKeys => Row::Node(&[], Rest::Set(ObjectPropertyExpression, 0)),
            Tag::DataKeys => Row::Node(&[], Rest::Set(DataPropertyExpression, 0)),
            Tag::Annotation => Row::Node(
                &[Notes, AnnotationProperty, AnnotationValue],
                Rest::Nothing,
            ),
            Tag::Notes => Row::Node(&[], Rest::Set(Annotation, 0)),
            Tag::Declaration => Row::Node(&[Notes, Entity], Rest::Nothing),
            Tag::SubClassOf => Row::Node(&[Notes, ClassExpression, ClassExpression], Rest::Nothing),
            Tag::EquivalentClasses | Tag::DisjointClasses => Row::Node(
                &[Notes],
                Rest::Set(ClassExpression, 2),
            ),
            Tag::DisjointUnion => Row::Node(&[Notes, Class], Rest::Set(ClassExpression, 2)),
            Tag::SubObjectPropertyOf => Row::Node(
                &[Notes, SubObjectPropertyExpression, ObjectPropertyExpression],
                Rest::Nothing,
            ),
            Tag::EquivalentObjectProperties
            | Tag::DisjointObjectProperties
            | Tag::InverseObjectProperties => Row::Node(
                &[Notes],
                Rest::Set(ObjectPropertyExpression, 2),
            ),
            Tag::ObjectPropertyDomain | Tag::ObjectPropertyRange => Row::Node(
                &[Notes, ObjectPropertyExpression, ClassExpression],
                Rest::Nothing,
            ),
            Tag::FunctionalObjectProperty
            | Tag::InverseFunctionalObjectProperty
            | Tag::ReflexiveObjectProperty
            | Tag::IrreflexiveObjectProperty
            | Tag::SymmetricObjectProperty
            | Tag::AsymmetricObjectProperty
            | Tag::TransitiveObjectProperty => Row::Node(
                &[Notes, ObjectPropertyExpression],
                Rest::Nothing,
            ),
            Tag::SubDataPropertyOf => Row::Node(
                &[Notes, DataPropertyExpression, DataPropertyExpression],
                Rest::Nothing,
            ),
            Tag::EquivalentDataProperties | Tag::DisjointDataProperties => Row::Node(
                &[Notes],
                Rest::Set(DataPropertyExpression, 2),
            ),
            Tag::DataPropertyDomain => Row::Node(
                &[Notes, DataPropertyExpression, ClassExpression],
                Rest::Nothing,
            ),
            Tag::DataPropertyRange => Row::Node(
                &[Notes, DataPropertyExpression, DataRange],
                Rest::Nothing,
            ),
            Tag::FunctionalDataProperty => Row::Node(
                &[Notes, DataPropertyExpression],
                Rest::Nothing,
            ),
            Tag::DatatypeDefinition => Row::Node(&[Notes, Datatype, DataRange], Rest::Nothing),
            Tag::HasKey => Row::Node(
                &[Notes, ClassExpression, ObjectKeys, DataKeys],
                Rest::Nothing,
            ),
            Tag::SameIndividual | Tag::DifferentIndividuals => Row::Node(
                &[Notes],
                Rest::Set(Individual, 2),
            ),
            Tag::ClassAssertion => Row::Node(&[Notes, ClassExpression, Individual], Rest::Nothing),
            Tag::ObjectPropertyAssertion | Tag::NegativeObjectPropertyAssertion => Row::Node(
                &[Notes, ObjectPropertyExpression, Individual, Individual],
                Rest::Nothing,
            ),
            Tag::DataPropertyAssertion | Tag::NegativeDataPropertyAssertion => Row::Node(
                &[Notes, DataPropertyExpression, Individual, Literal],
                Rest::Nothing,
            ),
            Tag::AnnotationAssertion => Row::Node(
                &[
                    Notes,
                    AnnotationProperty,
                    AnnotationSubject,
                    AnnotationValue,
                ],
                Rest::Nothing,
            ),
            Tag::SubAnnotationPropertyOf => Row::Node(
                &[Notes, AnnotationProperty, AnnotationProperty],
                Rest::Nothing,
            ),
            Tag::AnnotationPropertyDomain | Tag::AnnotationPropertyRange => Row::Node(
                &[Notes, AnnotationProperty, Iri],
                Rest::Nothing,
            ),
        }
    }
}

impl AtomSort {
    fn admits(self, atom: &Atom) -> bool
        ensures { result ≡ is_of_sort self atom.now }
    {
        match (self, atom) {
            (AtomSort::Iri, Atom::Iri(_))
            | (AtomSort::Label, Atom::Label(_))
            | (AtomSort::Literal, Atom::Literal(_))
            | (AtomSort::Number, Atom::Number(_)) => true,
            _ => false,
        }
    }
}

impl Tag {
    /// Whether the tag is one of those from the first to the last, in the order
    /// of their numbers.
    fn is_from_to(self, first: Tag, last: Tag) -> bool
        ensures { result ≡ is_from_to first last self }
    {
        first.number() <= self.number() && self.number() <= last.number()
    }
}

impl Sort {
    /// Whether a tree of the sort may have the tag.
    #[tactic(auto, unfolding(crate::specs::Rows::admits))]
    pub fn admits(self, tag: Tag) -> bool
        ensures { result ≡ admits self tag }
    {
        match self {
            Notes => tag == Tag::Notes,
            Annotation => tag == Tag::Annotation,
            AnnotationProperty => tag == Tag::AnnotationProperty,
            AnnotationSubject => tag == Tag::Anonymous || tag == Tag::PlainIri,
            AnnotationValue => tag.is_from_to(Tag::Anonymous, Tag::Literal),
            Iri => tag == Tag::PlainIri,
            ClassExpression => tag == Tag::Class
                || tag.is_from_to(Tag::ObjectIntersectionOf, Tag::DataExactCardinality),
            Class => tag == Tag::Class,
            DataRange => tag == Tag::Datatype
                || tag.is_from_to(Tag::DataIntersectionOf, Tag::DatatypeRestriction),
            Datatype => tag == Tag::Datatype,
            ObjectPropertyExpression => tag == Tag::ObjectProperty || tag == Tag::ObjectInverseOf,
            ObjectProperty => tag == Tag::ObjectProperty,
            SubObjectPropertyExpression => tag == Tag::ObjectProperty
                || tag.is_from_to(Tag::ObjectInverseOf, Tag::ObjectPropertyChain),
            DataPropertyExpression => tag == Tag::DataProperty,
            Individual => tag.is_from_to(Tag::NamedIndividual, Tag::Anonymous),
            Literal => tag == Tag::Literal,
            Number => tag == Tag::Number,
            Facet => tag == Tag::Facet,
            FacetPair => tag == Tag::FacetPair,
            ObjectKeys => tag == Tag::ObjectKeys,
            DataKeys => tag == Tag::DataKeys,
            Entity => tag.is_from_to(Tag::Class, Tag::NamedIndividual),
        }
    }
}

impl Rest {
    fn takes_count(self, count: usize) -> bool
        ensures { result ≡ counts_rest self count }
    {
        match self {
            Rest::Nothing => count == 0,
            Rest::Optional(_) => count <= 1,
            Rest::AtLeast(_, least) => least <= count,
            Rest::SomeThen(_, _) => 2 <= count,
            Rest::Set(_, least) => least.min(1) <= count,
        }
    }

    fn admits(self, later: usize, tag: Tag) -> bool
        ensures { result ≡ rest_admits self later tag }
    {
        match self {
            Rest::Nothing => false,
            Rest::SomeThen(_, last) if later == 0 => last.admits(tag),
            Rest::Optional(sort)
            | Rest::AtLeast(sort, _)
            | Rest::SomeThen(sort, _)
            | Rest::Set(sort, _) => sort.admits(tag),
        }
    }
}

impl Row {
    /// Whether a node of this row may have so many kids. A leaf has none.
    ///
    /// The members of a set count without repeats, so that one is enough where
    /// two or more have to be written.
    pub fn takes_count(self, count: usize) -> bool
        ensures { result ≡ counts (row_seen self) count }
    {
        match self {
            Row::Leaf(_) => false,
            Row::Node(front, rest) => front.len() <= count && rest.takes_count(count - front.len()),
        }
    }

    /// Whether the kid at this place, counted from 0, may have the tag, where so
    /// many kids stand behind it. A leaf has no places.
    pub fn admits(self, place: usize, later: usize, tag: Tag) -> bool
        ensures { result ≡ admits_at (row_seen self) place later tag }
    {
        match self {
            Row::Leaf(_) => false,
            Row::Node(front, rest) => match front.get(place) {
                Some(sort) => sort.admits(tag),
                None => rest.admits(later, tag),
            },
        }
    }
}

impl Tag {
    /// Whether a node with this tag may have kids with these tags, by the tag's
    /// row. No kids fit the tag of a leaf.
    ///
    /// The members of a set count without repeats, so that one is enough where
    /// two or more have to be written. Two counts are no part of a row: at most
    /// two members of InverseObjectProperties (Structural Specification,
    /// section 9.2.4), and at least one property in HasKey (section 9.5).
    #[tactic(auto, using(crate::proofs::PlacesLaws::fits_by_place, crate::proofs::PlacesLaws::from_end))]
    pub fn fits(self, kids: &[Tag]) -> bool
        ensures { result ≡ fits (row_of self) kids.now }
    {
        let row = self.row();
        if !row.takes_count(kids.len()) {
            return false;
        }
        for (place, tag) in kids.iter().enumerate() {
            if !row.admits(place, kids.len() - place - 1, *tag) {
                return false;
            }
        }
        true
    }

    /// Whether a leaf with this tag may hold the atom, by the tag's row. The tag
    /// of a node takes none.
    pub fn takes(self, atom: &Atom) -> bool
        ensures { result ≡ takes (row_of self) atom.now }
    {
        match self.row() {
            Row::Leaf(sort) => sort.admits(atom),
            Row::Node(_, _) => false,
        }
    }

    /// How many kids stand before the set part of a node with this tag, where it
    /// has one.
    pub fn set_start(self) -> Option<usize>
        ensures { result ≡ set_start (row_of self) }
    {
        match self.row() {
            Row::Node(front, Rest::Set(_, _)) => Some(front.len()),
            _ => None,
        }
    }
}
