//! The tags of trees.

ghost use Rattle.std.specs.Prelude.{◌≡◌, ◌≤◌, nat_le, ◌==◌, ◌&&◌, IfSome, IsNone};
ghost use Rattle.std.specs.Str.{chars};
ghost use Rattle.std.specs.Cmp.Rules.{comparing, hashing};
ghost use Rattle.std.specs.Cmp.{partial_order_from_own_ties, unsigned_tied};
ghost use Rattle.std.specs.Hash as fed;
ghost use Rattle.std.specs.Ordering.{as_partial_cmp, nat_cmp, on};
ghost use Rattle.std.proofs.Common.{rules, sym};
ghost use Rattle.owl_tree.specs.Rows.{is_bare, is_group};
ghost use Rattle.owl_tree.specs.Tags.{is_axiom, keyword_of, number_of, with_length};

use std::cmp::Ordering;
use std::hash::{Hash, Hasher};

/// What a tree is: a leaf, an expression, an annotation or an axiom, by its
/// name in the Structural Specification (sections 5 to 10).
///
/// Tags are equal, ordered and hashed by their numbers.
#[derive(Clone, Copy, Debug)]
pub enum Tag {
    Class,
    Datatype,
    ObjectProperty,
    DataProperty,
    AnnotationProperty,
    NamedIndividual,
    Anonymous,
    PlainIri,
    Literal,
    Number,
    Facet,
    ObjectInverseOf,
    ObjectPropertyChain,
    ObjectIntersectionOf,
    ObjectUnionOf,
    ObjectComplementOf,
    ObjectOneOf,
    ObjectSomeValuesFrom,
    ObjectAllValuesFrom,
    ObjectHasValue,
    ObjectHasSelf,
    ObjectMinCardinality,
    ObjectMaxCardinality,
    ObjectExactCardinality,
    DataSomeValuesFrom,
    DataAllValuesFrom,
    DataHasValue,
    DataMinCardinality,
    DataMaxCardinality,
    DataExactCardinality,
    DataIntersectionOf,
    DataUnionOf,
    DataComplementOf,
    DataOneOf,
    DatatypeRestriction,
    FacetPair,
    ObjectKeys,
    DataKeys,
    Annotation,
    Notes,
    Declaration,
    SubClassOf,
    EquivalentClasses,
    DisjointClasses,
    DisjointUnion,
    SubObjectPropertyOf,
    EquivalentObjectProperties,
    DisjointObjectProperties,
    InverseObjectProperties,
    ObjectPropertyDomain,
    ObjectPropertyRange,
    FunctionalObjectProperty,
    InverseFunctionalObjectProperty,
    ReflexiveObjectProperty,
    IrreflexiveObjectProperty,
    SymmetricObjectProperty,
    AsymmetricObjectProperty,
    TransitiveObjectProperty,
    SubDataPropertyOf,
    EquivalentDataProperties,
    DisjointDataProperties,
    DataPropertyDomain,
    DataPropertyRange,
    FunctionalDataProperty,
    DatatypeDefinition,
    HasKey,
    SameIndividual,
    DifferentIndividuals,
    ClassAssertion,
    ObjectPropertyAssertion,
    NegativeObjectPropertyAssertion,
    DataPropertyAssertion,
    NegativeDataPropertyAssertion,
    AnnotationAssertion,
    SubAnnotationPropertyOf,
    AnnotationPropertyDomain,
    AnnotationPropertyRange,
}

/// The tags in the order of their numbers.
const TAGS: [Tag; 77] = [
    Tag::Class,
    Tag::Datatype,
    Tag::ObjectProperty,
    Tag::DataProperty,
    Tag::AnnotationProperty,
    Tag::NamedIndividual,
    Tag::Anonymous,
    Tag::PlainIri,
    Tag::Literal,
    Tag::Number,
    Tag::Facet,
    Tag::ObjectInverseOf,
    Tag::ObjectPropertyChain,
    Tag::ObjectIntersectionOf,
    Tag::ObjectUnionOf,
    Tag::ObjectComplementOf,
    Tag::ObjectOneOf,
    Tag::ObjectSomeValuesFrom,
    Tag::ObjectAllValuesFrom,
    Tag::ObjectHasValue,
    Tag::ObjectHasSelf,
    Tag::ObjectMinCardinality,
    Tag::ObjectMaxCardinality,
    Tag::ObjectExactCardinality,
    Tag::DataSomeValuesFrom,
    Tag::DataAllValuesFrom,
    Tag::DataHasValue,
    Tag::DataMinCardinality,
    Tag::DataMaxCardinality,
    Tag::DataExactCardinality,
    Tag::DataIntersectionOf,
    Tag::DataUnionOf,
    Tag::DataComplementOf,
    Tag::DataOneOf,
    Tag::DatatypeRestriction,
    Tag::FacetPair,
    Tag::ObjectKeys,
    Tag::DataKeys,
    Tag::Annotation,
    Tag::Notes,
    Tag::Declaration,
    Tag::SubClassOf,
    Tag::EquivalentClasses,
    Tag::DisjointClasses,
    Tag::DisjointUnion,
    Tag::SubObjectPropertyOf,
    Tag::EquivalentObjectProperties,
    Tag::DisjointObjectProperties,
    Tag::InverseObjectProperties,
    Tag::ObjectPropertyDomain,
    Tag::ObjectPropertyRange,
    Tag::FunctionalObjectProperty,
    Tag::InverseFunctionalObjectProperty,
    Tag::ReflexiveObjectProperty,
    Tag::IrreflexiveObjectProperty,
    Tag::SymmetricObjectProperty,
    Tag::AsymmetricObjectProperty,
    Tag::TransitiveObjectProperty,
    Tag::SubDataPropertyOf,
    Tag::EquivalentDataProperties,
    Tag::DisjointDataProperties,
    Tag::DataPropertyDomain,
    Tag::DataPropertyRange,
    Tag::FunctionalDataProperty,
    Tag::DatatypeDefinition,
    Tag::HasKey,
    Tag::SameIndividual,
    Tag::DifferentIndividuals,
    Tag::ClassAssertion,
    Tag::ObjectPropertyAssertion,
    Tag::NegativeObjectPropertyAssertion,
    Tag::DataPropertyAssertion,
    Tag::NegativeDataPropertyAssertion,
    Tag::AnnotationAssertion,
    Tag::SubAnnotationPropertyOf,
    Tag::AnnotationPropertyDomain,
    Tag::AnnotationPropertyRange,
];

impl Tag {
    /// The number of the tag, from 1 to 77.
    #[tactic(auto, unfolding(crate::specs::Tags::number_of))]
    pub fn number(self) -> u8
        ensures { result ≡ number_of self }
    {
        self as u8 + 1
    }

    /// The tag with this number, if there is one.
    pub fn numbered(number: u8) -> Option<Tag>
        ensures some { IfSome result (λ tag. number_of tag ≡ number) }
        ensures none { IsNone result → (tag : Tag) → number_of tag ≡ number → ⊥ }
    {
        Some(*TAGS.get(number.checked_sub(1)? as usize)?)
    }

    /// The name of the tag, and its keyword in Functional-Style Syntax.
    #[tactic(auto, using(crate::proofs::Keywords::own_characters), unfolding(crate::specs::Tags::keyword_of))]
    pub fn keyword(self) -> &'static str
        ensures bytes { result.now ≡ keyword_of self }
        ensures chars { chars result.now ≡ keyword_of self }
    {
        match self {
            Tag::Class => "Class",
            Tag::Datatype => "Datatype",
            Tag::ObjectProperty => "ObjectProperty",
            Tag::DataProperty => "DataProperty",
            Tag::AnnotationProperty => "AnnotationProperty",
            Tag::NamedIndividual => "NamedIndividual",
            Tag::Anonymous => "Anonymous",
            Tag::PlainIri => "PlainIri",
            Tag::Literal => "Literal",
            Tag::Number => "Number",
            Tag::Facet => "Facet",
            Tag::ObjectInverseOf => "ObjectInverseOf",
            Tag::ObjectPropertyChain => "ObjectPropertyChain",
            Tag::ObjectIntersectionOf => "ObjectIntersectionOf",
            Tag::ObjectUnionOf => "ObjectUnionOf",
            Tag::ObjectComplementOf => "ObjectComplementOf",
            Tag::ObjectOneOf => "ObjectOneOf",
            Tag::ObjectSomeValuesFrom => "ObjectSomeValuesFrom",
            Tag::ObjectAllValuesFrom => "ObjectAllValuesFrom",
            Tag::ObjectHasValue => "ObjectHasValue",
            Tag::ObjectHasSelf => "ObjectHasSelf",
            Tag::ObjectMinCardinality => "ObjectMinCardinality",
            Tag::ObjectMaxCardinality => "ObjectMaxCardinality",
            Tag::ObjectExactCardinality => "ObjectExactCardinality",
            Tag::DataSomeValuesFrom => "DataSomeValuesFrom",
            Tag::DataAllValuesFrom => "DataAllValuesFrom",
            Tag::DataHasValue => "DataHasValue",
            Tag::DataMinCardinality => "DataMinCardinality",
            Tag::DataMaxCardinality => "DataMaxCardinality",
            Tag::DataExactCardinality => "DataExactCardinality",
            Tag::DataIntersectionOf => "DataIntersectionOf",
            Tag::DataUnionOf => "DataUnionOf",
            Tag::DataComplementOf => "DataComplementOf",
            Tag::DataOneOf => "DataOneOf",
            Tag::DatatypeRestriction => "DatatypeRestriction",
            Tag::FacetPair => "FacetPair",
            Tag::ObjectKeys => "ObjectKeys",
            Tag::DataKeys => "DataKeys",
            Tag::Annotation => "Annotation",
            Tag::Notes => "Notes",
            Tag::Declaration => "Declaration",
            Tag::SubClassOf => "SubClassOf",
            Tag::EquivalentClasses => "EquivalentClasses",
            Tag::DisjointClasses => "DisjointClasses",
            Tag::DisjointUnion => "DisjointUnion",
            Tag::SubObjectPropertyOf => "SubObjectPropertyOf",
            Tag::EquivalentObjectProperties => "EquivalentObjectProperties",
            Tag::DisjointObjectProperties => "DisjointObjectProperties",
            Tag::InverseObjectProperties => "InverseObjectProperties",
            Tag::ObjectPropertyDomain => "ObjectPropertyDomain",
            Tag::ObjectPropertyRange => "ObjectPropertyRange",
            Tag::FunctionalObjectProperty => "FunctionalObjectProperty",
            Tag::InverseFunctionalObjectProperty => "InverseFunctionalObjectProperty",
            Tag::ReflexiveObjectProperty => "ReflexiveObjectProperty",
            Tag::IrreflexiveObjectProperty => "IrreflexiveObjectProperty",
            Tag::SymmetricObjectProperty => "SymmetricObjectProperty",
            Tag::AsymmetricObjectProperty => "AsymmetricObjectProperty",
            Tag::TransitiveObjectProperty => "TransitiveObjectProperty",
            Tag::SubDataPropertyOf => "SubDataPropertyOf",
            Tag::EquivalentDataProperties => "EquivalentDataProperties",
            Tag::DisjointDataProperties => "DisjointDataProperties",
            Tag::DataPropertyDomain => "DataPropertyDomain",
            Tag::DataPropertyRange => "DataPropertyRange",
            Tag::FunctionalDataProperty => "FunctionalDataProperty",
            Tag::DatatypeDefinition => "DatatypeDefinition",
            Tag::HasKey => "HasKey",
            Tag::SameIndividual => "SameIndividual",
            Tag::DifferentIndividuals => "DifferentIndividuals",
            Tag::ClassAssertion => "ClassAssertion",
            Tag::ObjectPropertyAssertion => "ObjectPropertyAssertion",
            Tag::NegativeObjectPropertyAssertion => "NegativeObjectPropertyAssertion",
            Tag::DataPropertyAssertion => "DataPropertyAssertion",
            Tag::NegativeDataPropertyAssertion => "NegativeDataPropertyAssertion",
            Tag::AnnotationAssertion => "AnnotationAssertion",
            Tag::SubAnnotationPropertyOf => "SubAnnotationPropertyOf",
            Tag::AnnotationPropertyDomain => "AnnotationPropertyDomain",
            Tag::AnnotationPropertyRange => "AnnotationPropertyRange",
        }
    }

    /// The tags whose names have this length, the commonest first.
    #[tactic(auto, unfolding(crate::specs::Tags::tags_by_length))]
    fn with_length(length: usize) -> &'static [Tag]
        ensures { result.now ≡ with_length length }
    {
        match length {
            5 => &[Tag::Class, Tag::Facet, Tag::Notes],
            6 => &[Tag::HasKey, Tag::Number],
            7 => &[Tag::Literal],
            8 => &[Tag::Datatype, Tag::PlainIri, Tag::DataKeys],
            9 => &[Tag::Anonymous, Tag::DataOneOf, Tag::FacetPair],
            10 => &[Tag::SubClassOf, Tag::Annotation, Tag::ObjectKeys],
            11 => &[Tag::Declaration, Tag::ObjectOneOf, Tag::DataUnionOf],
            12 => &[Tag::DataProperty, Tag::DataHasValue],
            13 => &[Tag::ObjectUnionOf, Tag::ObjectHasSelf, Tag::DisjointUnion],
            14 => &[
                Tag::ObjectProperty,
                Tag::ClassAssertion,
                Tag::ObjectHasValue,
                Tag::SameIndividual,
            ],
            15 => &[
                Tag::NamedIndividual,
                Tag::DisjointClasses,
                Tag::ObjectInverseOf,
            ],
            16 => &[Tag::DataComplementOf],
            17 => &[
                Tag::EquivalentClasses,
                Tag::SubDataPropertyOf,
                Tag::DataPropertyRange,
                Tag::DataAllValuesFrom,
            ],
            18 => &[
                Tag::AnnotationProperty,
                Tag::DataSomeValuesFrom,
                Tag::ObjectComplementOf,
                Tag::DataMinCardinality,
                Tag::DataMaxCardinality,
                Tag::DataIntersectionOf,
                Tag::DataPropertyDomain,
                Tag::DatatypeDefinition,
            ],
            19 => &[
                Tag::AnnotationAssertion,
                Tag::SubObjectPropertyOf,
                Tag::DatatypeRestriction,
                Tag::ObjectAllValuesFrom,
                Tag::ObjectPropertyChain,
                Tag::ObjectPropertyRange,
            ],
            20 => &[
                Tag::ObjectSomeValuesFrom,
                Tag::ObjectIntersectionOf,
                Tag::ObjectMinCardinality,
                Tag::ObjectMaxCardinality,
                Tag::DifferentIndividuals,
                Tag::ObjectPropertyDomain,
                Tag::DataExactCardinality,
            ],
            21 => &[Tag::DataPropertyAssertion],
            22 => &[
                Tag::FunctionalDataProperty,
                Tag::ObjectExactCardinality,
                Tag::DisjointDataProperties,
            ],
            23 => &[
                Tag::ObjectPropertyAssertion,
                Tag::InverseObjectProperties,
                Tag::SubAnnotationPropertyOf,
                Tag::ReflexiveObjectProperty,
                Tag::SymmetricObjectProperty,
                Tag::AnnotationPropertyRange,
            ],
            24 => &[
                Tag::TransitiveObjectProperty,
                Tag::FunctionalObjectProperty,
                Tag::DisjointObjectProperties,
                Tag::AsymmetricObjectProperty,
                Tag::EquivalentDataProperties,
                Tag::AnnotationPropertyDomain,
            ],
            25 => &[Tag::IrreflexiveObjectProperty],
            26 => &[Tag::EquivalentObjectProperties],
            29 => &[Tag::NegativeDataPropertyAssertion],
            31 => &[
                Tag::InverseFunctionalObjectProperty,
                Tag::NegativeObjectPropertyAssertion,
            ],
            _ => &[],
        }
    }

    /// The tag with this name, if there is one.
    pub fn named(word: &str) -> Option<Tag>
        ensures some { IfSome result (λ tag. keyword_of tag ≡ chars word.now) }
        ensures none { IsNone result → (tag : Tag) → keyword_of tag ≡ chars word.now → ⊥ }
    {
        Tag::with_length(word.len())
            .iter()
            .copied()
            .find(|tag| tag.keyword() == word)
    }

    /// Whether the parts of trees with this tag stand without a keyword and
    /// without brackets in Functional-Style Syntax: annotations of an axiom,
    /// and a facet with its value.
    pub fn is_bare(self) -> bool
        ensures { result ≡ is_bare self }
    {
        self == Tag::Notes || self == Tag::FacetPair
    }

    /// Whether the parts of trees with this tag stand in brackets without a
    /// keyword in Functional-Style Syntax: the two groups of a HasKey.
    pub fn is_group(self) -> bool
        ensures { result ≡ is_group self }
    {
        self == Tag::ObjectKeys || self == Tag::DataKeys
    }

    /// Whether trees with this tag are axioms (Structural Specification,
    /// sections 9 and 10.2).
    pub fn is_axiom(self) -> bool
        ensures { result ≡ is_axiom self }
    {
        Tag::Declaration.number() <= self.number()
    }
}

/// A law: no two tags have one number, no two have one keyword, and the tags of
/// axioms are those with the numbers 41 to 77.
pub fn tags_are_told_apart()
    ensures numbers { (t u : Tag) → number_of t ≡ number_of u → t ≡ u }
    ensures keywords { (t u : Tag) → keyword_of t ≡ keyword_of u → t ≡ u }
    ensures axioms { (t : Tag) → is_axiom t ≡ (nat_le 41 (number_of t) && nat_le (number_of t) 77) }
{}

impl PartialEq for Tag {
    ghost eq = { on number_of ◌==◌ };

    ghost laws = { Prim.search (comparing, rules) };

    fn eq(&self, other: &Tag) -> bool {
        self.number() == other.number()
    }
}

impl Eq for Tag {
    ghost laws = { Prim.search (comparing, rules) };
}

impl PartialOrd for Tag {
    ghost partial_cmp = { as_partial_cmp (on number_of nat_cmp) };

    ghost laws = { partial_order_from_own_ties (Prim.search (comparing, rules)) (λ x y. sym (unsigned_tied (number_of x) (number_of y))) };

    fn partial_cmp(&self, other: &Tag) -> Option<Ordering> {
        Some(self.cmp(other))
    }
}

impl Ord for Tag {
    ghost cmp = { on number_of nat_cmp };

    ghost total = { Prim.search (comparing, rules) };

    ghost matches_partial_cmp = { Prim.search (comparing, rules) };

    ghost matches_eq = { λ x y. sym (unsigned_tied (number_of x) (number_of y)) };

    fn cmp(&self, other: &Tag) -> Ordering {
        self.number().cmp(&other.number())
    }
}

impl Hash for Tag {
    ghost hash_input = { λ tag. fed.u8 (number_of tag) };

    ghost respects_eq = { Prim.search (hashing, rules) };

    fn hash<H: Hasher>(&self, state: &mut H) {
        self.number().hash(state);
    }
}
