//! The words of RDF, RDF Schema and OWL of which the mapping to RDF graphs is made.

ghost use Rattle.std.specs.Prelude.{◌≡◌, ◌==◌};
ghost use Rattle.std.specs.Cmp.Rules.{comparing};
ghost use Rattle.std.specs.Ordering.{on};
ghost use Rattle.std.proofs.Common.{rules};
ghost use Rattle.rdf_meaning.specs.Words.{is_type, word_iri, word_number};

use rdf_terms::{owl, rdf, rdfs};

/// A word that the rows of the mapping name (Mapping to RDF Graphs, section 2 and
/// 3): a class that stands as the object of rdf:type, or a predicate.
///
/// Words are equal by their numbers. `InverseOf` is both a predicate of nodes and one of axioms.
#[derive(Clone, Copy, Debug)]
pub enum Word {
    Class,
    Datatype,
    ObjectProperty,
    DatatypeProperty,
    AnnotationProperty,
    NamedIndividual,
    FunctionalProperty,
    InverseFunctionalProperty,
    ReflexiveProperty,
    IrreflexiveProperty,
    SymmetricProperty,
    AsymmetricProperty,
    TransitiveProperty,
    Restriction,
    AllDisjointClasses,
    AllDisjointProperties,
    AllDifferent,
    NegativePropertyAssertion,
    Axiom,
    Annotation,
    Ontology,
    InverseOf,
    IntersectionOf,
    UnionOf,
    ComplementOf,
    OneOf,
    OnProperty,
    OnProperties,
    SomeValuesFrom,
    AllValuesFrom,
    HasValue,
    HasSelf,
    MinCardinality,
    MaxCardinality,
    Cardinality,
    MinQualifiedCardinality,
    MaxQualifiedCardinality,
    QualifiedCardinality,
    OnClass,
    OnDataRange,
    DatatypeComplementOf,
    OnDatatype,
    WithRestrictions,
    First,
    Rest,
    Members,
    DistinctMembers,
    SourceIndividual,
    AssertionProperty,
    TargetIndividual,
    TargetValue,
    AnnotatedSource,
    AnnotatedProperty,
    AnnotatedTarget,
    VersionIri,
    Imports,
    SubClassOf,
    EquivalentClass,
    DisjointWith,
    DisjointUnionOf,
    HasKey,
    SubPropertyOf,
    PropertyChainAxiom,
    EquivalentProperty,
    PropertyDisjointWith,
    Domain,
    Range,
    SameAs,
    DifferentFrom,
}

impl Word {
    /// The word is a class that stands as the object of rdf:type; else it is a
    /// predicate.
    #[tactic(auto, unfolding(crate::specs::Words::is_type))]
    pub fn is_type(self) -> bool
        ensures { result ≡ is_type self }
    {
        matches!(
            self,
            Word::Class
                | Word::Datatype
                | Word::ObjectProperty
                | Word::DatatypeProperty
                | Word::AnnotationProperty
                | Word::NamedIndividual
                | Word::FunctionalProperty
                | Word::InverseFunctionalProperty
                | Word::ReflexiveProperty
                | Word::IrreflexiveProperty
                | Word::SymmetricProperty
                | Word::AsymmetricProperty
                | Word::TransitiveProperty
                | Word::Restriction
                | Word::AllDisjointClasses
                | Word::AllDisjointProperties
                | Word::AllDifferent
                | Word::NegativePropertyAssertion
                | Word::Axiom
                | Word::Annotation
                | Word::Ontology
        )
    }

    /// Its IRI.
    #[tactic(auto, unfolding(crate::specs::Words::word_iri))]
    pub fn iri(self) -> &'static str
        ensures { result.now ≡ word_iri self }
    {
        match self {
            Word::Class => owl!("Class"),
            Word::Datatype => rdfs!("Datatype"),
            Word::ObjectProperty => owl!("ObjectProperty"),
            Word::DatatypeProperty => owl!("DatatypeProperty"),
            Word::AnnotationProperty => owl!("AnnotationProperty"),
            Word::NamedIndividual => owl!("NamedIndividual"),
            Word::FunctionalProperty => owl!("FunctionalProperty"),
            Word::InverseFunctionalProperty => owl!("InverseFunctionalProperty"),
            Word::ReflexiveProperty => owl!("ReflexiveProperty"),
            Word::IrreflexiveProperty => owl!("IrreflexiveProperty"),
            Word::SymmetricProperty => owl!("SymmetricProperty"),
            Word::AsymmetricProperty => owl!("AsymmetricProperty"),
            Word::TransitiveProperty => owl!("TransitiveProperty"),
            Word::Restriction => owl!("Restriction"),
            Word::AllDisjointClasses => owl!("AllDisjointClasses"),
            Word::AllDisjointProperties => owl!("AllDisjointProperties"),
            Word::AllDifferent => owl!("AllDifferent"),
            Word::NegativePropertyAssertion => owl!("NegativePropertyAssertion"),
            Word::Axiom => owl!("Axiom"),
            Word::Annotation => owl!("Annotation"),
            Word::Ontology => owl!("Ontology"),
            Word::InverseOf => owl!("inverseOf"),
            Word::IntersectionOf => owl!("intersectionOf"),
            Word::UnionOf => owl!("unionOf"),
            Word::ComplementOf => owl!("complementOf"),
            Word::OneOf => owl!("oneOf"),
            Word::OnProperty => owl!("onProperty"),
            Word::OnProperties => owl!("onProperties"),
            Word::SomeValuesFrom => owl!("someValuesFrom"),
            Word::AllValuesFrom => owl!("allValuesFrom"),
            Word::HasValue => owl!("hasValue"),
            Word::HasSelf => owl!("hasSelf"),
            Word::MinCardinality => owl!("minCardinality"),
            Word::MaxCardinality => owl!("maxCardinality"),
            Word::Cardinality => owl!("cardinality"),
            Word::MinQualifiedCardinality => owl!("minQualifiedCardinality"),
            Word::MaxQualifiedCardinality => owl!("maxQualifiedCardinality"),
            Word::QualifiedCardinality => owl!("qualifiedCardinality"),
            Word::OnClass => owl!("onClass"),
            Word::OnDataRange => owl!("onDataRange"),
            Word::DatatypeComplementOf => owl!("datatypeComplementOf"),
            Word::OnDatatype => owl!("onDatatype"),
            Word::WithRestrictions => owl!("withRestrictions"),
            Word::First => rdf!("first"),
            Word::Rest => rdf!("rest"),
            Word::Members => owl!("members"),
            Word::DistinctMembers => owl!("distinctMembers"),
            Word::SourceIndividual => owl!("sourceIndividual"),
            Word::AssertionProperty => owl!("assertionProperty"),
            Word::TargetIndividual => owl!("targetIndividual"),
            Word::TargetValue => owl!("targetValue"),
            Word::AnnotatedSource => owl!("annotatedSource"),
            Word::AnnotatedProperty => owl!("annotatedProperty"),
            Word::AnnotatedTarget => owl!("annotatedTarget"),
            Word::VersionIri => owl!("versionIRI"),
            Word::Imports => owl!("imports"),
            Word::SubClassOf => rdfs!("subClassOf"),
            Word::EquivalentClass => owl!("equivalentClass"),
            Word::DisjointWith => owl!("disjointWith"),
            Word::DisjointUnionOf => owl!("disjointUnionOf"),
            Word::HasKey => owl!("hasKey"),
            Word::SubPropertyOf => rdfs!("subPropertyOf"),
            Word::PropertyChainAxiom => owl!("propertyChainAxiom"),
            Word::EquivalentProperty => owl!("equivalentProperty"),
            Word::PropertyDisjointWith => owl!("propertyDisjointWith"),
            Word::Domain => rdfs!("domain"),
            Word::Range => rdfs!("range"),
            Word::SameAs => owl!("sameAs"),
            Word::DifferentFrom => owl!("differentFrom"),
        }
    }

    /// The number of the word, from 1 to 69.
    #[tactic(auto, unfolding(crate::specs::Words::word_number))]
    pub fn number(self) -> u8
        ensures { result ≡ word_number self }
    {
        self as u8 + 1
    }
}

impl PartialEq for Word {
    ghost eq = { on word_number ◌==◌ };

    ghost laws = { Prim.search (comparing, rules) };

    fn eq(&self, other: &Word) -> bool {
        self.number() == other.number()
    }
}

impl Eq for Word {
    ghost laws = { Prim.search (comparing, rules) };
}
