//! The classes of tokens, made by `tools/make_page.py`.

ghost use Rattle.std.specs.Prelude.{◌≡◌};
ghost use Rattle.std.specs.Str.{chars};
ghost use Rattle.man_grammar.specs.ClassNumbers.{class_number, colon_keywords, word_keywords, word_of};

/// What the grammar tells of a token (Manchester Syntax, section 2.1).
#[derive(Clone, Copy, Debug, PartialEq, Eq)]
pub enum Class {
    /// `Prefix:`
    Prefix,
    /// `Ontology:`
    Ontology,
    /// `Import:`
    Import,
    /// `Annotations:`
    Annotations,
    /// `Class:`
    Class,
    /// `Datatype:`
    Datatype,
    /// `ObjectProperty:`
    ObjectProperty,
    /// `DataProperty:`
    DataProperty,
    /// `AnnotationProperty:`
    AnnotationProperty,
    /// `Individual:`
    Individual,
    /// `EquivalentClasses:`
    EquivalentClasses,
    /// `DisjointClasses:`
    DisjointClasses,
    /// `EquivalentProperties:`
    EquivalentProperties,
    /// `DisjointProperties:`
    DisjointProperties,
    /// `SameIndividual:`
    SameIndividual,
    /// `DifferentIndividuals:`
    DifferentIndividuals,
    /// `SubClassOf:`
    SubClassOf,
    /// `EquivalentTo:`
    EquivalentTo,
    /// `DisjointWith:`
    DisjointWith,
    /// `DisjointUnionOf:`
    DisjointUnionOf,
    /// `HasKey:`
    HasKey,
    /// `Domain:`
    Domain,
    /// `Range:`
    Range,
    /// `Characteristics:`
    Characteristics,
    /// `SubPropertyOf:`
    SubPropertyOf,
    /// `InverseOf:`
    InverseOf,
    /// `SubPropertyChain:`
    SubPropertyChain,
    /// `Types:`
    Types,
    /// `Facts:`
    Facts,
    /// `SameAs:`
    SameAs,
    /// `DifferentFrom:`
    DifferentFrom,
    /// `and`
    And,
    /// `or`
    Or,
    /// `not`
    Not,
    /// `that`
    That,
    /// `some`
    Some,
    /// `only`
    Only,
    /// `value`
    Value,
    /// `Self`
    SelfWord,
    /// `min`
    Min,
    /// `max`
    Max,
    /// `exactly`
    Exactly,
    /// `inverse`
    Inverse,
    /// `o`
    Composed,
    /// `length`
    Length,
    /// `minLength`
    MinLength,
    /// `maxLength`
    MaxLength,
    /// `pattern`
    Pattern,
    /// `langRange`
    LangRange,
    /// `integer`
    IntegerWord,
    /// `decimal`
    DecimalWord,
    /// `float`
    FloatWord,
    /// `string`
    StringWord,
    /// `true`
    TrueWord,
    /// `false`
    FalseWord,
    /// `Functional`
    Functional,
    /// `InverseFunctional`
    InverseFunctional,
    /// `Reflexive`
    Reflexive,
    /// `Irreflexive`
    Irreflexive,
    /// `Symmetric`
    Symmetric,
    /// `Asymmetric`
    Asymmetric,
    /// `Transitive`
    Transitive,
    /// A word that is no keyword.
    PlainWord,
    /// An IRI between `<` and `>`.
    IriRef,
    /// A prefixed name with a local part.
    Prefixed,
    /// A prefixed name without a local part that is no keyword, or the name of a prefix.
    Namespace,
    /// The label of an anonymous individual.
    Blank,
    /// A string.
    Text,
    /// A language tag.
    Language,
    /// Digits without a sign.
    Digits,
    /// Digits behind a sign.
    Signed,
    /// A decimal.
    Decimal,
    /// `(`
    OpenParenthesis,
    /// `)`
    CloseParenthesis,
    /// `{`
    OpenBrace,
    /// `}`
    CloseBrace,
    /// `[`
    OpenBracket,
    /// `]`
    CloseBracket,
    /// `,`
    Comma,
    /// `^^`
    Carets,
    /// `<=`
    AtMost,
    /// `<`
    LessThan,
    /// `>=`
    AtLeast,
    /// `>`
    MoreThan,
    /// `=`
    Equals,
}

/// The keywords that stand in front of a colon.
#[rattlefmt::skip]
const COLON_KEYWORDS: [Class; 31] = [
    Class::Prefix, Class::Ontology, Class::Import, Class::Annotations, Class::Class, Class::Datatype,
    Class::ObjectProperty, Class::DataProperty, Class::AnnotationProperty, Class::Individual,
    Class::EquivalentClasses, Class::DisjointClasses, Class::EquivalentProperties, Class::DisjointProperties,
    Class::SameIndividual, Class::DifferentIndividuals, Class::SubClassOf, Class::EquivalentTo, Class::DisjointWith,
    Class::DisjointUnionOf, Class::HasKey, Class::Domain, Class::Range, Class::Characteristics, Class::SubPropertyOf,
    Class::InverseOf, Class::SubPropertyChain, Class::Types, Class::Facts, Class::SameAs, Class::DifferentFrom,
];

/// The keywords that are words.
#[rattlefmt::skip]
const WORD_KEYWORDS: [Class; 31] = [
    Class::And, Class::Or, Class::Not, Class::That, Class::Some, Class::Only, Class::Value, Class::SelfWord,
    Class::Min, Class::Max, Class::Exactly, Class::Inverse, Class::Composed, Class::Length, Class::MinLength,
    Class::MaxLength, Class::Pattern, Class::LangRange, Class::IntegerWord, Class::DecimalWord, Class::FloatWord,
    Class::StringWord, Class::TrueWord, Class::FalseWord, Class::Functional, Class::InverseFunctional,
    Class::Reflexive, Class::Irreflexive, Class::Symmetric, Class::Asymmetric, Class::Transitive,
];

/// The keywords that stand in front of a colon.
pub fn colon_keywords() -> &'static [Class]
    ensures { result.now ≡ colon_keywords }
{
    &COLON_KEYWORDS
}

/// The keywords that are words.
pub fn word_keywords() -> &'static [Class]
    ensures { result.now ≡ word_keywords }
{
    &WORD_KEYWORDS
}

impl Class {
    /// The number of the class, by which tables have it.
    pub fn number(self) -> u8
        ensures { result ≡ class_number self }
    {
        match self {
            Class::Prefix => 0,
            Class::Ontology => 1,
            Class::Import => 2,
            Class::Annotations => 3,
            Class::Class => 4,
            Class::Datatype => 5,
            Class::ObjectProperty => 6,
            Class::DataProperty => 7,
            Class::AnnotationProperty => 8,
            Class::Individual => 9,
            Class::EquivalentClasses => 10,
            Class::DisjointClasses => 11,
            Class::EquivalentProperties => 12,
            Class::DisjointProperties => 13,
            Class::SameIndividual => 14,
            Class::DifferentIndividuals => 15,
            Class::SubClassOf => 16,
            Class::EquivalentTo => 17,
            Class::DisjointWith => 18,
            Class::DisjointUnionOf => 19,
            Class::HasKey => 20,
            Class::Domain => 21,
            Class::Range => 22,
            Class::Characteristics => 23,
            Class::SubPropertyOf => 24,
            Class::InverseOf => 25,
            Class::SubPropertyChain => 26,
            Class::Types => 27,
            Class::Facts => 28,
            Class::SameAs => 29,
            Class::DifferentFrom => 30,
            Class::And => 31,
            Class::Or => 32,
            Class::Not => 33,
            Class::That => 34,
            Class::Some => 35,
            Class::Only => 36,
            Class::Value => 37,
            Class::SelfWord => 38,
            Class::Min => 39,
            Class::Max => 40,
            Class::Exactly => 41,
            Class::Inverse => 42,
            Class::Composed => 43,
            Class::Length => 44,
            Class::MinLength => 45,
            Class::MaxLength => 46,
            Class::Pattern => 47,
            Class::LangRange => 48,
            Class::IntegerWord => 49,
            Class::DecimalWord => 50,
            Class::FloatWord => 51,
            Class::StringWord => 52,
            Class::TrueWord => 53,
            Class::FalseWord => 54,
            Class::Functional => 55,
            Class::InverseFunctional => 56,
            Class::Reflexive => 57,
            Class::Irreflexive => 58,
            Class::Symmetric => 59,
            Class::Asymmetric => 60,
            Class::Transitive => 61,
            Class::PlainWord => 62,
            Class::IriRef => 63,
            Class::Prefixed => 64,
            Class::Namespace => 65,
            Class::Blank => 66,
            Class::Text => 67,
            Class::Language => 68,
            Class::Digits => 69,
            Class::Signed => 70,
            Class::Decimal => 71,
            Class::OpenParenthesis => 72,
            Class::CloseParenthesis => 73,
            Class::OpenBrace => 74,
            Class::CloseBrace => 75,
            Class::OpenBracket => 76,
            Class::CloseBracket => 77,
            Class::Comma => 78,
            Class::Carets => 79,
            Class::AtMost => 80,
            Class::LessThan => 81,
            Class::AtLeast => 82,
            Class::MoreThan => 83,
            Class::Equals => 84,
        }
    }

    /// The word of a keyword. Other classes have none.
    #[tactic(auto, using(crate::proofs::Words::own_characters), unfolding(crate::specs::ClassNumbers::word_of))]
    pub fn word(self) -> &'static str
        ensures { chars result.now ≡ word_of self }
    {
        match self {
            Class::Prefix => "Prefix",
            Class::Ontology => "Ontology",
            Class::Import => "Import",
            Class::Annotations => "Annotations",
            Class::Class => "Class",
            Class::Datatype => "Datatype",
            Class::ObjectProperty => "ObjectProperty",
            Class::DataProperty => "DataProperty",
            Class::AnnotationProperty => "AnnotationProperty",
            Class::Individual => "Individual",
            Class::EquivalentClasses => "EquivalentClasses",
            Class::DisjointClasses => "DisjointClasses",
            Class::EquivalentProperties => "EquivalentProperties",
            Class::DisjointProperties => "DisjointProperties",
            Class::SameIndividual => "SameIndividual",
            Class::DifferentIndividuals => "DifferentIndividuals",
            Class::SubClassOf => "SubClassOf",
            Class::EquivalentTo => "EquivalentTo",
            Class::DisjointWith => "DisjointWith",
            Class::DisjointUnionOf => "DisjointUnionOf",
            Class::HasKey => "HasKey",
            Class::Domain => "Domain",
            Class::Range => "Range",
            Class::Characteristics => "Characteristics",
            Class::SubPropertyOf => "SubPropertyOf",
            Class::InverseOf => "InverseOf",
            Class::SubPropertyChain => "SubPropertyChain",
            Class::Types => "Types",
            Class::Facts => "Facts",
            Class::SameAs => "SameAs",
            Class::DifferentFrom => "DifferentFrom",
            Class::And => "and",
            Class::Or => "or",
            Class::Not => "not",
            Class::That => "that",
            Class::Some => "some",
            Class::Only => "only",
            Class::Value => "value",
            Class::SelfWord => "Self",
            Class::Min => "min",
            Class::Max => "max",
            Class::Exactly => "exactly",
            Class::Inverse => "inverse",
            Class::Composed => "o",
            Class::Length => "length",
            Class::MinLength => "minLength",
            Class::MaxLength => "maxLength",
            Class::Pattern => "pattern",
            Class::LangRange => "langRange",
            Class::IntegerWord => "integer",
            Class::DecimalWord => "decimal",
            Class::FloatWord => "float",
            Class::StringWord => "string",
            Class::TrueWord => "true",
            Class::FalseWord => "false",
            Class::Functional => "Functional",
            Class::InverseFunctional => "InverseFunctional",
            Class::Reflexive => "Reflexive",
            Class::Irreflexive => "Irreflexive",
            Class::Symmetric => "Symmetric",
            Class::Asymmetric => "Asymmetric",
            Class::Transitive => "Transitive",
            _ => "",
        }
    }
}
