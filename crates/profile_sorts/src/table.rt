//! The productions of all sorts (OWL 2 Profiles, sections 2.2, 3.2 and 4.2).

ghost use Rattle.std.specs.Prelude.{◌≡◌, map};
ghost use Rattle.profile_sorts.specs.Productions.{alternative_seen, production_of};

use crate::leaf_test::LeafTest;
use crate::production::Alternative::{self, Any, Atom, Kids, Refused, Single};
use crate::production::Others;
use crate::sort::Sort;
use Sort::{
    Anything, Class, ElAxiom, ElClasses, ElProperties, ElRanges, Named, Property, QlAxiom,
    QlClasses, QlSub, QlSuper, Ranges, RlAxiom, RlClasses, RlDatatypes, RlEquivalent, RlFiller,
    RlProperties, RlSub, RlSuper, SharedDatatypes, Thing, ZeroOrOne,
};
use owl_tree::{Sort as Trees, Tag};

impl Sort {
    /// What is asked of trees with these tags.
    #[tactic(auto, unfolding(crate::specs::Productions::production_of))]
    pub(crate) fn alternatives(self) -> &'static [Alternative]
        ensures { map alternative_seen result.now ≡ (production_of self).alternatives }
    {
        match self {
            Anything => &[],
            Thing => &[Atom(Tag::Class, LeafTest::Thing)],
            Class => &[Any(Tag::Class)],
            Property => &[Any(Tag::ObjectProperty), Any(Tag::ObjectInverseOf)],
            ZeroOrOne => &[Atom(Tag::Number, LeafTest::ZeroOrOne)],
            Ranges => &[
                Any(Tag::Datatype),
                Kids(Tag::DataIntersectionOf, &[], Ranges),
            ],
            SharedDatatypes => &[
                Atom(Tag::Datatype, LeafTest::SharedDatatype),
                Atom(Tag::Literal, LeafTest::SharedDatatype),
            ],
            Named => &[Any(Tag::NamedIndividual)],
            ElAxiom => &[
                Any(Tag::Declaration),
                Any(Tag::SubClassOf),
                Any(Tag::EquivalentClasses),
                Any(Tag::DisjointClasses),
                Any(Tag::SubObjectPropertyOf),
                Any(Tag::EquivalentObjectProperties),
                Any(Tag::ObjectPropertyDomain),
                Any(Tag::ObjectPropertyRange),
                Any(Tag::ReflexiveObjectProperty),
                Any(Tag::TransitiveObjectProperty),
                Any(Tag::SubDataPropertyOf),
                Any(Tag::EquivalentDataProperties),
                Any(Tag::DataPropertyDomain),
                Any(Tag::DataPropertyRange),
                Any(Tag::FunctionalDataProperty),
                Any(Tag::DatatypeDefinition),
                Any(Tag::HasKey),
                Any(Tag::SameIndividual),
                Any(Tag::DifferentIndividuals),
                Any(Tag::ClassAssertion),
                Any(Tag::ObjectPropertyAssertion),
                Any(Tag::NegativeObjectPropertyAssertion),
                Any(Tag::DataPropertyAssertion),
                Any(Tag::NegativeDataPropertyAssertion),
                Any(Tag::AnnotationAssertion),
                Any(Tag::SubAnnotationPropertyOf),
                Any(Tag::AnnotationPropertyDomain),
                Any(Tag::AnnotationPropertyRange),
            ],
            ElClasses => &[
                Any(Tag::Class),
                Kids(Tag::ObjectIntersectionOf, &[], ElClasses),
                Single(Tag::ObjectOneOf),
                Kids(Tag::ObjectSomeValuesFrom, &[], ElClasses),
                Any(Tag::ObjectHasValue),
                Any(Tag::ObjectHasSelf),
                Any(Tag::DataSomeValuesFrom),
                Any(Tag::DataHasValue),
            ],
            ElRanges => &[
                Any(Tag::Datatype),
                Kids(Tag::DataIntersectionOf, &[], ElRanges),
                Single(Tag::DataOneOf),
            ],
            ElProperties => &[Any(Tag::ObjectProperty)],
            QlAxiom => &[
                Kids(Tag::SubObjectPropertyOf, &[Anything, Property], Anything),
                Any(Tag::Declaration),
                Any(Tag::SubClassOf),
                Any(Tag::EquivalentClasses),
                Any(Tag::DisjointClasses),
                Any(Tag::EquivalentObjectProperties),
                Any(Tag::DisjointObjectProperties),
                Any(Tag::InverseObjectProperties),
                Any(Tag::ObjectPropertyDomain),
                Any(Tag::ObjectPropertyRange),
                Any(Tag::ReflexiveObjectProperty),
                Any(Tag::IrreflexiveObjectProperty),
                Any(Tag::SymmetricObjectProperty),
                Any(Tag::AsymmetricObjectProperty),
                Any(Tag::SubDataPropertyOf),
                Any(Tag::EquivalentDataProperties),
                Any(Tag::DisjointDataProperties),
                Any(Tag::DataPropertyDomain),
                Any(Tag::DataPropertyRange),
                Any(Tag::DatatypeDefinition),
                Any(Tag::DifferentIndividuals),
                Any(Tag::ClassAssertion),
                Any(Tag::ObjectPropertyAssertion),
                Any(Tag::DataPropertyAssertion),
                Any(Tag::AnnotationAssertion),
                Any(Tag::SubAnnotationPropertyOf),
                Any(Tag::AnnotationPropertyDomain),
                Any(Tag::AnnotationPropertyRange),
            ],
            QlClasses => &[
                Kids(Tag::SubClassOf, &[Anything, QlSub], QlSuper),
                Kids(Tag::EquivalentClasses, &[Anything], QlSub),
                Kids(Tag::DisjointClasses, &[Anything], QlSub),
                Kids(Tag::ObjectPropertyDomain, &[Anything, Anything], QlSuper),
                Kids(Tag::ObjectPropertyRange, &[Anything, Anything], QlSuper),
                Kids(Tag::DataPropertyDomain, &[Anything, Anything], QlSuper),
                Kids(Tag::ClassAssertion, &[Anything, Class], Anything),
            ],
            QlSub => &[
                Any(Tag::Class),
                Kids(Tag::ObjectSomeValuesFrom, &[Anything], Thing),
                Any(Tag::DataSomeValuesFrom),
            ],
            QlSuper => &[
                Any(Tag::Class),
                Kids(Tag::ObjectIntersectionOf, &[], QlSuper),
                Kids(Tag::ObjectComplementOf, &[], QlSub),
                Kids(Tag::ObjectSomeValuesFrom, &[Anything], Class),
                Any(Tag::DataSomeValuesFrom),
            ],
            RlAxiom => &[
                Refused(Tag::DisjointUnion),
                Refused(Tag::ReflexiveObjectProperty),
            ],
            RlClasses => &[
                Kids(Tag::SubClassOf, &[Anything, RlSub], RlSuper),
                Kids(Tag::EquivalentClasses, &[Anything], RlEquivalent),
                Kids(Tag::DisjointClasses, &[Anything], RlSub),
                Kids(Tag::ObjectPropertyDomain, &[Anything, Anything], RlSuper),
                Kids(Tag::ObjectPropertyRange, &[Anything, Anything], RlSuper),
                Kids(Tag::DataPropertyDomain, &[Anything, Anything], RlSuper),
                Kids(Tag::HasKey, &[Anything, RlSub], Anything),
                Kids(Tag::ClassAssertion, &[Anything, RlSuper], Anything),
            ],
            RlSub => &[
                Atom(Tag::Class, LeafTest::NotThing),
                Kids(Tag::ObjectIntersectionOf, &[], RlSub),
                Kids(Tag::ObjectUnionOf, &[], RlSub),
                Any(Tag::ObjectOneOf),
                Kids(Tag::ObjectSomeValuesFrom, &[Anything], RlFiller),
                Any(Tag::ObjectHasValue),
                Any(Tag::DataSomeValuesFrom),
                Any(Tag::DataHasValue),
            ],
            RlFiller => &[
                Any(Tag::Class),
                Kids(Tag::ObjectIntersectionOf, &[], RlSub),
                Kids(Tag::ObjectUnionOf, &[], RlSub),
                Any(Tag::ObjectOneOf),
                Kids(Tag::ObjectSomeValuesFrom, &[Anything], RlFiller),
                Any(Tag::ObjectHasValue),
                Any(Tag::DataSomeValuesFrom),
                Any(Tag::DataHasValue),
            ],
            RlSuper => &[
                Atom(Tag::Class, LeafTest::NotThing),
                Kids(Tag::ObjectIntersectionOf, &[], RlSuper),
                Kids(Tag::ObjectComplementOf, &[], RlSub),
                Kids(Tag::ObjectAllValuesFrom, &[Anything], RlSuper),
                Any(Tag::ObjectHasValue),
                Kids(Tag::ObjectMaxCardinality, &[ZeroOrOne, Anything], RlFiller),
                Any(Tag::DataAllValuesFrom),
                Any(Tag::DataHasValue),
                Kids(Tag::DataMaxCardinality, &[ZeroOrOne], Anything),
            ],
            RlEquivalent => &[
                Atom(Tag::Class, LeafTest::NotThing),
                Kids(Tag::ObjectIntersectionOf, &[], RlEquivalent),
                Any(Tag::ObjectHasValue),
                Any(Tag::DataHasValue),
            ],
            RlDatatypes => &[
                Atom(Tag::Datatype, LeafTest::RlDatatype),
                Atom(Tag::Literal, LeafTest::RlDatatype),
            ],
            RlProperties => &[
                Atom(Tag::ObjectProperty, LeafTest::OrdinaryObjectProperty),
                Atom(Tag::DataProperty, LeafTest::OrdinaryDataProperty),
            ],
        }
    }

    /// What is asked of all other trees.
    #[tactic(auto, unfolding(crate::specs::Productions::production_of))]
    pub(crate) fn others(self) -> Others
        ensures { result ≡ (production_of self).others }
    {
        match self {
            Anything | QlClasses | RlAxiom | RlClasses => Others::Anything,
            Thing
            | Class
            | Property
            | ZeroOrOne
            | ElAxiom
            | QlAxiom
            | QlSub
            | QlSuper
            | RlSub
            | RlFiller
            | RlSuper
            | RlEquivalent => Others::Nothing,
            Ranges | ElRanges => Others::Throughout(Trees::DataRange),
            SharedDatatypes | RlDatatypes => Others::Throughout(Trees::Datatype),
            Named => Others::Throughout(Trees::Individual),
            ElClasses => Others::Throughout(Trees::ClassExpression),
            ElProperties => Others::Throughout(Trees::ObjectPropertyExpression),
            RlProperties => Others::Throughout(Trees::ObjectProperty),
        }
    }
}
