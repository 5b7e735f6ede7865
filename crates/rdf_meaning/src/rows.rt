//! The rows of the mapping: one table for the expressions, and one for the axioms.

ghost use Rattle.std.specs.Prelude.{◌≡◌, map};
ghost use Rattle.rdf_meaning.specs.Rows.{axiom_rows, node_rows, row_seen};

use crate::role::Role;
use crate::row::Place::{At, Object, Predicate, Subject};
use crate::row::Site::{LinkedBy, Node, OtherLink, OtherType, TypedBy};
use crate::row::Want::{Declared, Keys, Many, Mark, One, True, Whole};
use crate::row::{Part, Row};
use crate::word::Word;
use owl_tree::{Sort, Tag};

/// The row of a tag: its site, and at each place what stands there.
macro_rules! row {
    ($tag:ident, $site:expr; $($place:expr => $want:expr),+) => {
        Row {
            tag: Tag::$tag,
            site: $site,
            parts: &[$(Part { place: $place, want: $want }),+],
        }
    };
}

/// How expressions are written as blank nodes (Mapping to RDF Graphs, section
/// 2.1).
#[rattlefmt::skip]
#[tactic(auto, unfolding(crate::specs::Rows::node_rows, crate::specs::Rows::row_seen))]
pub fn node_rows() -> &'static [Row]
    ensures { map row_seen result.now ≡ node_rows }
{
    &[
        row!(ObjectInverseOf, Node(Role::Property);
            At(Word::InverseOf) => One(Sort::ObjectProperty)),
        row!(ObjectIntersectionOf, Node(Role::Class);
            At(Word::Class) => Mark,
            At(Word::IntersectionOf) => Many(Sort::ClassExpression, 2)),
        row!(ObjectUnionOf, Node(Role::Class);
            At(Word::Class) => Mark,
            At(Word::UnionOf) => Many(Sort::ClassExpression, 2)),
        row!(ObjectComplementOf, Node(Role::Class);
            At(Word::Class) => Mark,
            At(Word::ComplementOf) => One(Sort::ClassExpression)),
        row!(ObjectOneOf, Node(Role::Class);
            At(Word::Class) => Mark,
            At(Word::OneOf) => Many(Sort::Individual, 1)),
        row!(ObjectSomeValuesFrom, Node(Role::Class);
            At(Word::Restriction) => Mark,
            At(Word::OnProperty) => One(Sort::ObjectPropertyExpression),
            At(Word::SomeValuesFrom) => One(Sort::ClassExpression)),
        row!(ObjectAllValuesFrom, Node(Role::Class);
            At(Word::Restriction) => Mark,
            At(Word::OnProperty) => One(Sort::ObjectPropertyExpression),
            At(Word::AllValuesFrom) => One(Sort::ClassExpression)),
        row!(ObjectHasValue, Node(Role::Class);
            At(Word::Restriction) => Mark,
            At(Word::OnProperty) => One(Sort::ObjectPropertyExpression),
            At(Word::HasValue) => One(Sort::Individual)),
        row!(ObjectHasSelf, Node(Role::Class);
            At(Word::Restriction) => Mark,
            At(Word::OnProperty) => One(Sort::ObjectPropertyExpression),
            At(Word::HasSelf) => True),
        row!(ObjectMinCardinality, Node(Role::Class);
            At(Word::Restriction) => Mark,
            At(Word::MinCardinality) => One(Sort::Number),
            At(Word::OnProperty) => One(Sort::ObjectPropertyExpression)),
        row!(ObjectMinCardinality, Node(Role::Class);
            At(Word::Restriction) => Mark,
            At(Word::MinQualifiedCardinality) => One(Sort::Number),
            At(Word::OnProperty) => One(Sort::ObjectPropertyExpression),
            At(Word::OnClass) => One(Sort::ClassExpression)),
        row!(ObjectMaxCardinality, Node(Role::Class);
            At(Word::Restriction) => Mark,
            At(Word::MaxCardinality) => One(Sort::Number),
            At(Word::OnProperty) => One(Sort::ObjectPropertyExpression)),
        row!(ObjectMaxCardinality, Node(Role::Class);
            At(Word::Restriction) => Mark,
            At(Word::MaxQualifiedCardinality) => One(Sort::Number),
            At(Word::OnProperty) => One(Sort::ObjectPropertyExpression),
            At(Word::OnClass) => One(Sort::ClassExpression)),
        row!(ObjectExactCardinality, Node(Role::Class);
            At(Word::Restriction) => Mark,
            At(Word::Cardinality) => One(Sort::Number),
            At(Word::OnProperty) => One(Sort::ObjectPropertyExpression)),
        row!(ObjectExactCardinality, Node(Role::Class);
            At(Word::Restriction) => Mark,
            At(Word::QualifiedCardinality) => One(Sort::Number),
            At(Word::OnProperty) => One(Sort::ObjectPropertyExpression),
            At(Word::OnClass) => One(Sort::ClassExpression)),
        row!(DataSomeValuesFrom, Node(Role::Class);
            At(Word::Restriction) => Mark,
            At(Word::OnProperty) => One(Sort::DataPropertyExpression),
            At(Word::SomeValuesFrom) => One(Sort::DataRange)),
        row!(DataSomeValuesFrom, Node(Role::Class);
            At(Word::Restriction) => Mark,
            At(Word::OnProperties) => Many(Sort::DataPropertyExpression, 1),
            At(Word::SomeValuesFrom) => One(Sort::DataRange)),
        row!(DataAllValuesFrom, Node(Role::Class);
            At(Word::Restriction) => Mark,
            At(Word::OnProperty) => One(Sort::DataPropertyExpression),
            At(Word::AllValuesFrom) => One(Sort::DataRange)),
        row!(DataAllValuesFrom, Node(Role::Class);
            At(Word::Restriction) => Mark,
            At(Word::OnProperties) => Many(Sort::DataPropertyExpression, 1),
            At(Word::AllValuesFrom) => One(Sort::DataRange)),
        row!(DataHasValue, Node(Role::Class);
            At(Word::Restriction) => Mark,
            At(Word::OnProperty) => One(Sort::DataPropertyExpression),
            At(Word::HasValue) => One(Sort::Literal)),
        row!(DataMinCardinality, Node(Role::Class);
            At(Word::Restriction) => Mark,
            At(Word::MinCardinality) => One(Sort::Number),
            At(Word::OnProperty) => One(Sort::DataPropertyExpression)),
        row!(DataMinCardinality, Node(Role::Class);
            At(Word::Restriction) => Mark,
            At(Word::MinQualifiedCardinality) => One(Sort::Number),
            At(Word::OnProperty) => One(Sort::DataPropertyExpression),
            At(Word::OnDataRange) => One(Sort::DataRange)),
        row!(DataMaxCardinality, Node(Role::Class);
            At(Word::Restriction) => Mark,
            At(Word::MaxCardinality) => One(Sort::Number),
            At(Word::OnProperty) => One(Sort::DataPropertyExpression)),
        row!(DataMaxCardinality, Node(Role::Class);
            At(Word::Restriction) => Mark,
            At(Word::MaxQualifiedCardinality) => One(Sort::Number),
            At(Word::OnProperty) => One(Sort::DataPropertyExpression),
            At(Word::OnDataRange) => One(Sort::DataRange)),
        row!(DataExactCardinality, Node(Role::Class);
            At(Word::Restriction) => Mark,
            At(Word::Cardinality) => One(Sort::Number),
            At(Word::OnProperty) => One(Sort::DataPropertyExpression)),
        row!(DataExactCardinality, Node(Role::Class);
            At(Word::Restriction) => Mark,
            At(Word::QualifiedCardinality) => One(Sort::Number),
            At(Word::OnProperty) => One(Sort::DataPropertyExpression),
            At(Word::OnDataRange) => One(Sort::DataRange)),
        row!(DataIntersectionOf, Node(Role::Range);
            At(Word::Datatype) => Mark,
            At(Word::IntersectionOf) => Many(Sort::DataRange, 2)),
        row!(DataUnionOf, Node(Role::Range);
            At(Word::Datatype) => Mark,
            At(Word::UnionOf) => Many(Sort::DataRange, 2)),
        row!(DataComplementOf, Node(Role::Range);
            At(Word::Datatype) => Mark,
            At(Word::DatatypeComplementOf) => One(Sort::DataRange)),
        row!(DataOneOf, Node(Role::Range);
            At(Word::Datatype) => Mark,
            At(Word::OneOf) => Many(Sort::Literal, 1)),
        row!(DatatypeRestriction, Node(Role::Range);
            At(Word::Datatype) => Mark,
            At(Word::OnDatatype) => One(Sort::Datatype),
            At(Word::WithRestrictions) => Many(Sort::FacetPair, 1)),
    ]
}

/// How axioms are written, as triples or as blank nodes (Mapping to RDF Graphs,
/// section 2.1).
#[rattlefmt::skip]
#[tactic(auto, unfolding(crate::specs::Rows::axiom_rows, crate::specs::Rows::row_seen))]
pub fn axiom_rows() -> &'static [Row]
    ensures { map row_seen result.now ≡ axiom_rows }
{
    &[
        row!(Declaration, TypedBy(Word::Class); Subject => Declared(Tag::Class)),
        row!(Declaration, TypedBy(Word::Datatype); Subject => Declared(Tag::Datatype)),
        row!(Declaration, TypedBy(Word::ObjectProperty); Subject => Declared(Tag::ObjectProperty)),
        row!(Declaration, TypedBy(Word::DatatypeProperty); Subject => Declared(Tag::DataProperty)),
        row!(Declaration, TypedBy(Word::AnnotationProperty);
            Subject => Declared(Tag::AnnotationProperty)),
        row!(Declaration, TypedBy(Word::NamedIndividual);
            Subject => Declared(Tag::NamedIndividual)),
        row!(SubClassOf, LinkedBy(Word::SubClassOf);
            Subject => One(Sort::ClassExpression),
            Object => One(Sort::ClassExpression)),
        row!(EquivalentClasses, LinkedBy(Word::EquivalentClass);
            Subject => One(Sort::ClassExpression),
            Object => One(Sort::ClassExpression)),
        row!(DisjointClasses, LinkedBy(Word::DisjointWith);
            Subject => One(Sort::ClassExpression),
            Object => One(Sort::ClassExpression)),
        row!(DisjointClasses, Node(Role::Main);
            At(Word::AllDisjointClasses) => Mark,
            At(Word::Members) => Many(Sort::ClassExpression, 2)),
        row!(DisjointUnion, LinkedBy(Word::DisjointUnionOf);
            Subject => One(Sort::Class),
            Object => Many(Sort::ClassExpression, 2)),
        row!(SubObjectPropertyOf, LinkedBy(Word::SubPropertyOf);
            Subject => One(Sort::ObjectPropertyExpression),
            Object => One(Sort::ObjectPropertyExpression)),
        row!(SubObjectPropertyOf, LinkedBy(Word::PropertyChainAxiom);
            Object => Whole(Tag::ObjectPropertyChain, Sort::ObjectPropertyExpression, 2),
            Subject => One(Sort::ObjectPropertyExpression)),
        row!(EquivalentObjectProperties, LinkedBy(Word::EquivalentProperty);
            Subject => One(Sort::ObjectPropertyExpression),
            Object => One(Sort::ObjectPropertyExpression)),
        row!(DisjointObjectProperties, LinkedBy(Word::PropertyDisjointWith);
            Subject => One(Sort::ObjectPropertyExpression),
            Object => One(Sort::ObjectPropertyExpression)),
        row!(DisjointObjectProperties, Node(Role::Main);
            At(Word::AllDisjointProperties) => Mark,
            At(Word::Members) => Many(Sort::ObjectPropertyExpression, 2)),
        row!(InverseObjectProperties, LinkedBy(Word::InverseOf);
            Subject => One(Sort::ObjectPropertyExpression),
            Object => One(Sort::ObjectPropertyExpression)),
        row!(ObjectPropertyDomain, LinkedBy(Word::Domain);
            Subject => One(Sort::ObjectPropertyExpression),
            Object => One(Sort::ClassExpression)),
        row!(ObjectPropertyRange, LinkedBy(Word::Range);
            Subject => One(Sort::ObjectPropertyExpression),
            Object => One(Sort::ClassExpression)),
        row!(FunctionalObjectProperty, TypedBy(Word::FunctionalProperty);
            Subject => One(Sort::ObjectPropertyExpression)),
        row!(InverseFunctionalObjectProperty, TypedBy(Word::InverseFunctionalProperty);
            Subject => One(Sort::ObjectPropertyExpression)),
        row!(ReflexiveObjectProperty, TypedBy(Word::ReflexiveProperty);
            Subject => One(Sort::ObjectPropertyExpression)),
        row!(IrreflexiveObjectProperty, TypedBy(Word::IrreflexiveProperty);
            Subject => One(Sort::ObjectPropertyExpression)),
        row!(SymmetricObjectProperty, TypedBy(Word::SymmetricProperty);
            Subject => One(Sort::ObjectPropertyExpression)),
        row!(AsymmetricObjectProperty, TypedBy(Word::AsymmetricProperty);
            Subject => One(Sort::ObjectPropertyExpression)),
        row!(TransitiveObjectProperty, TypedBy(Word::TransitiveProperty);
            Subject => One(Sort::ObjectPropertyExpression)),
        row!(SubDataPropertyOf, LinkedBy(Word::SubPropertyOf);
            Subject => One(Sort::DataPropertyExpression),
            Object => One(Sort::DataPropertyExpression)),
        row!(EquivalentDataProperties, LinkedBy(Word::EquivalentProperty);
            Subject => One(Sort::DataPropertyExpression),
            Object => One(Sort::DataPropertyExpression)),
        row!(DisjointDataProperties, LinkedBy(Word::PropertyDisjointWith);
            Subject => One(Sort::DataPropertyExpression),
            Object => One(Sort::DataPropertyExpression)),
        row!(DisjointDataProperties, Node(Role::Main);
            At(Word::AllDisjointProperties) => Mark,
            At(Word::Members) => Many(Sort::DataPropertyExpression, 2)),
        row!(DataPropertyDomain, LinkedBy(Word::Domain);
            Subject => One(Sort::DataPropertyExpression),
            Object => One(Sort::ClassExpression)),
        row!(DataPropertyRange, LinkedBy(Word::Range);
            Subject => One(Sort::DataPropertyExpression),
            Object => One(Sort::DataRange)),
        row!(FunctionalDataProperty, TypedBy(Word::FunctionalProperty);
            Subject => One(Sort::DataPropertyExpression)),
        row!(DatatypeDefinition, LinkedBy(Word::EquivalentClass);
            Subject => One(Sort::Datatype),
            Object => One(Sort::DataRange)),
        row!(HasKey, LinkedBy(Word::HasKey); Subject => One(Sort::ClassExpression), Object => Keys),
        row!(SameIndividual, LinkedBy(Word::SameAs);
            Subject => One(Sort::Individual),
            Object => One(Sort::Individual)),
        row!(DifferentIndividuals, LinkedBy(Word::DifferentFrom);
            Subject => One(Sort::Individual),
            Object => One(Sort::Individual)),
        row!(DifferentIndividuals, Node(Role::Main);
            At(Word::AllDifferent) => Mark,
            At(Word::Members) => Many(Sort::Individual, 2)),
        row!(DifferentIndividuals, Node(Role::Main);
            At(Word::AllDifferent) => Mark,
            At(Word::DistinctMembers) => Many(Sort::Individual, 2)),
        row!(ClassAssertion, OtherType;
            Object => One(Sort::ClassExpression),
            Subject => One(Sort::Individual)),
        row!(ObjectPropertyAssertion, OtherLink;
            Predicate => One(Sort::ObjectProperty),
            Subject => One(Sort::Individual),
            Object => One(Sort::Individual)),
        row!(NegativeObjectPropertyAssertion, Node(Role::Main);
            At(Word::NegativePropertyAssertion) => Mark,
            At(Word::AssertionProperty) => One(Sort::ObjectPropertyExpression),
            At(Word::SourceIndividual) => One(Sort::Individual),
            At(Word::TargetIndividual) => One(Sort::Individual)),
        row!(DataPropertyAssertion, OtherLink;
            Predicate => One(Sort::DataPropertyExpression),
            Subject => One(Sort::Individual),
            Object => One(Sort::Literal)),
        row!(NegativeDataPropertyAssertion, Node(Role::Main);
            At(Word::NegativePropertyAssertion) => Mark,
            At(Word::AssertionProperty) => One(Sort::DataPropertyExpression),
            At(Word::SourceIndividual) => One(Sort::Individual),
            At(Word::TargetValue) => One(Sort::Literal)),
        row!(AnnotationAssertion, OtherLink;
            Predicate => One(Sort::AnnotationProperty),
            Subject => One(Sort::AnnotationSubject),
            Object => One(Sort::AnnotationValue)),
        row!(SubAnnotationPropertyOf, LinkedBy(Word::SubPropertyOf);
            Subject => One(Sort::AnnotationProperty),
            Object => One(Sort::AnnotationProperty)),
        row!(AnnotationPropertyDomain, LinkedBy(Word::Domain);
            Subject => One(Sort::AnnotationProperty),
            Object => One(Sort::Iri)),
        row!(AnnotationPropertyRange, LinkedBy(Word::Range);
            Subject => One(Sort::AnnotationProperty),
            Object => One(Sort::Iri)),
    ]
}
