//! What the sections of items say.

ghost use Rattle.std.specs.Prelude.{◌≡◌};
ghost use Rattle.man_resolve.specs.Places.{annotation_property_sentence, by_kind, class_sentence, data_property_sentence, data_word, datatype_sentence, declared_kind, fact_tags, individual_sentence, members_sentence, name_place, negative_tags, object_property_sentence, object_word, other_sentence, sentence_of, word_tag};

use crate::place::Place;
use crate::shape::ByKind;
use man_raw::{Characteristic, Heading, Section};
use owl_kind::Kind;
use owl_tree::Tag;

/// What an element of a section says behind its annotations.
#[derive(Clone, Copy)]
pub enum Sentence {
    /// An axiom of the subject and the element.
    Beside(Tag, Place),
    /// An axiom of the element and the subject.
    Ahead(Tag, Place),
    /// An axiom of the subject, if there is one, and the members of a list.
    Members(Tag, Place),
    /// An axiom of the members of a list, of the kind of the first.
    Properties(ByKind),
    /// A key of the subject, of the properties in a list.
    Key,
    /// An assertion of a property, the subject and a value.
    Fact,
    /// An assertion of an annotation property, what the subject is called, and a value.
    Note,
    /// What a word says of the subject.
    Word,
    /// Nothing.
    Wrong,
}

/// What an element of the section says (Manchester Syntax, sections 2.5 and 2.6).
#[tactic(auto, unfolding(crate::specs::Places::sentence_of))]
pub fn sentence_of(heading: Heading, section: Section) -> Sentence
    ensures { result ≡ sentence_of heading section }
{
    match heading {
        Heading::Class => class_sentence(section),
        Heading::Datatype => datatype_sentence(section),
        Heading::ObjectProperty => object_property_sentence(section),
        Heading::DataProperty => data_property_sentence(section),
        Heading::AnnotationProperty => annotation_property_sentence(section),
        Heading::Individual => individual_sentence(section),
        _ => other_sentence(heading, section),
    }
}

/// Of an item that is no frame.
fn other_sentence(heading: Heading, section: Section) -> Sentence
    ensures { result ≡ other_sentence heading section }
{
    match section {
        Section::Members => members_sentence(heading),
        _ => Sentence::Wrong,
    }
}

fn class_sentence(section: Section) -> Sentence
    ensures { result ≡ class_sentence section }
{
    match section {
        Section::Annotations => Sentence::Note,
        Section::SubClassOf => Sentence::Beside(Tag::SubClassOf, Place::Class),
        Section::EquivalentTo => Sentence::Beside(Tag::EquivalentClasses, Place::Class),
        Section::DisjointWith => Sentence::Beside(Tag::DisjointClasses, Place::Class),
        Section::DisjointUnionOf => Sentence::Members(Tag::DisjointUnion, Place::Class),
        Section::HasKey => Sentence::Key,
        _ => Sentence::Wrong,
    }
}

fn datatype_sentence(section: Section) -> Sentence
    ensures { result ≡ datatype_sentence section }
{
    match section {
        Section::Annotations => Sentence::Note,
        Section::EquivalentTo => Sentence::Beside(Tag::DatatypeDefinition, Place::Range),
        _ => Sentence::Wrong,
    }
}

fn object_property_sentence(section: Section) -> Sentence
    ensures { result ≡ object_property_sentence section }
{
    match section {
        Section::Annotations => Sentence::Note,
        Section::Domain => Sentence::Beside(Tag::ObjectPropertyDomain, Place::Class),
        Section::Range => Sentence::Beside(Tag::ObjectPropertyRange, Place::Class),
        Section::Characteristics => Sentence::Word,
        Section::SubPropertyOf => Sentence::Beside(Tag::SubObjectPropertyOf, Place::Object),
        Section::EquivalentTo => Sentence::Beside(Tag::EquivalentObjectProperties, Place::Object),
        Section::DisjointWith => Sentence::Beside(Tag::DisjointObjectProperties, Place::Object),
        Section::InverseOf => Sentence::Beside(Tag::InverseObjectProperties, Place::Object),
        Section::SubPropertyChain => Sentence::Ahead(Tag::SubObjectPropertyOf, Place::Chain),
        _ => Sentence::Wrong,
    }
}

fn data_property_sentence(section: Section) -> Sentence
    ensures { result ≡ data_property_sentence section }
{
    match section {
        Section::Annotations => Sentence::Note,
        Section::Domain => Sentence::Beside(Tag::DataPropertyDomain, Place::Class),
        Section::Range => Sentence::Beside(Tag::DataPropertyRange, Place::Range),
        Section::Characteristics => Sentence::Word,
        Section::SubPropertyOf => Sentence::Beside(Tag::SubDataPropertyOf, Place::Data),
        Section::EquivalentTo => Sentence::Beside(Tag::EquivalentDataProperties, Place::Data),
        Section::DisjointWith => Sentence::Beside(Tag::DisjointDataProperties, Place::Data),
        _ => Sentence::Wrong,
    }
}

fn annotation_property_sentence(section: Section) -> Sentence
    ensures { result ≡ annotation_property_sentence section }
{
    match section {
        Section::Annotations => Sentence::Note,
        Section::Domain => Sentence::Beside(Tag::AnnotationPropertyDomain, Place::Iri),
        Section::Range => Sentence::Beside(Tag::AnnotationPropertyRange, Place::Iri),
        Section::SubPropertyOf => {
            Sentence::Beside(Tag::SubAnnotationPropertyOf, Place::AnnotationProperty)
        }
        _ => Sentence::Wrong,
    }
}

fn individual_sentence(section: Section) -> Sentence
    ensures { result ≡ individual_sentence section }
{
    match section {
        Section::Annotations => Sentence::Note,
        Section::Types => Sentence::Ahead(Tag::ClassAssertion, Place::Class),
        Section::Facts => Sentence::Fact,
        Section::SameAs => Sentence::Beside(Tag::SameIndividual, Place::Individual),
        Section::DifferentFrom => Sentence::Beside(Tag::DifferentIndividuals, Place::Individual),
        _ => Sentence::Wrong,
    }
}

/// What an item says that is no frame.
fn members_sentence(heading: Heading) -> Sentence
    ensures { result ≡ members_sentence heading }
{
    match heading {
        Heading::EquivalentClasses => Sentence::Members(Tag::EquivalentClasses, Place::Class),
        Heading::DisjointClasses => Sentence::Members(Tag::DisjointClasses, Place::Class),
        Heading::EquivalentProperties => properties(
            Tag::EquivalentObjectProperties,
            Tag::EquivalentDataProperties,
        ),
        Heading::DisjointProperties => properties(
            Tag::DisjointObjectProperties,
            Tag::DisjointDataProperties,
        ),
        Heading::SameIndividual => Sentence::Members(Tag::SameIndividual, Place::Individual),
        Heading::DifferentIndividuals => {
            Sentence::Members(Tag::DifferentIndividuals, Place::Individual)
        }
        _ => Sentence::Wrong,
    }
}

/// An axiom of object properties, or of data properties.
fn properties(object_tag: Tag, data_tag: Tag) -> Sentence
    ensures { result ≡ Sentence.Properties (by_kind object_tag Place.Object data_tag Place.Data) }
{
    Sentence::Properties(ByKind::new(object_tag, Place::Object, data_tag, Place::Data))
}

/// Where the name of a frame stands.
pub fn name_place(heading: Heading) -> Option<Place>
    ensures { result ≡ name_place heading }
{
    match heading {
        Heading::Class => Some(Place::ClassName),
        Heading::Datatype => Some(Place::Datatype),
        Heading::ObjectProperty => Some(Place::ObjectName),
        Heading::DataProperty => Some(Place::Data),
        Heading::AnnotationProperty => Some(Place::AnnotationProperty),
        Heading::Individual => Some(Place::Individual),
        _ => None,
    }
}

/// As what a frame declares its name (Manchester Syntax, section 2.5).
pub fn declared_kind(heading: Heading) -> Option<Kind>
    ensures { result ≡ declared_kind heading }
{
    match heading {
        Heading::Class => Some(Kind::Class),
        Heading::Datatype => Some(Kind::Datatype),
        Heading::ObjectProperty => Some(Kind::ObjectProperty),
        Heading::DataProperty => Some(Kind::DataProperty),
        Heading::AnnotationProperty => Some(Kind::AnnotationProperty),
        Heading::Individual => Some(Kind::Individual),
        _ => None,
    }
}

/// What the word says of an object property, or of a data property.
pub fn word_tag(heading: Heading, word: Characteristic) -> Option<Tag>
    ensures { result ≡ word_tag heading word }
{
    match heading {
        Heading::ObjectProperty => Some(object_word(word)),
        Heading::DataProperty => data_word(word),
        _ => None,
    }
}

fn object_word(word: Characteristic) -> Tag
    ensures { result ≡ object_word word }
{
    match word {
        Characteristic::Functional => Tag::FunctionalObjectProperty,
        Characteristic::InverseFunctional => Tag::InverseFunctionalObjectProperty,
        Characteristic::Reflexive => Tag::ReflexiveObjectProperty,
        Characteristic::Irreflexive => Tag::IrreflexiveObjectProperty,
        Characteristic::Symmetric => Tag::SymmetricObjectProperty,
        Characteristic::Asymmetric => Tag::AsymmetricObjectProperty,
        Characteristic::Transitive => Tag::TransitiveObjectProperty,
    }
}

fn data_word(word: Characteristic) -> Option<Tag>
    ensures { result ≡ data_word word }
{
    match word {
        Characteristic::Functional => Some(Tag::FunctionalDataProperty),
        _ => None,
    }
}

/// What a fact says.
pub fn fact_tags() -> ByKind
    ensures { result ≡ fact_tags }
{
    ByKind::new(
        Tag::ObjectPropertyAssertion,
        Place::Individual,
        Tag::DataPropertyAssertion,
        Place::Literal,
    )
}

/// What a fact says behind `not`.
pub fn negative_tags() -> ByKind
    ensures { result ≡ negative_tags }
{
    ByKind::new(
        Tag::NegativeObjectPropertyAssertion,
        Place::Individual,
        Tag::NegativeDataPropertyAssertion,
        Place::Literal,
    )
}
