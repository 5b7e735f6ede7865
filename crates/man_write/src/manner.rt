//! Where axioms are written, and how their kids stand there.

ghost use Rattle.std.specs.Prelude.{◌≡◌, ℕ, List};
ghost use Rattle.owl_tree.specs.Trees.{tag_of};
ghost use Rattle.man_resolve.specs.declared.place.Place.{Place};
ghost use Rattle.man_text.specs.Blocks.{characteristic_of, entity_heading, fact_form, in_section, subject_as, where_of};
ghost use Rattle.man_write.specs.Plans.{manner_of};

use man_raw::{Characteristic, Form, Heading, Section};
use man_resolve::Sentence;
use owl_kind::Kind;
use owl_tree::Tag;

/// How a sentence takes the kids of an axiom behind its annotations.
#[derive(Clone, Copy, Debug, PartialEq, Eq)]
pub enum Manner {
    /// A subject, and what is said of it.
    Beside,
    /// What is said of a subject, and the subject.
    Ahead,
    /// A subject, and the members of a list.
    Union,
    /// The members of a list.
    Members,
    /// A subject, and two groups.
    Key,
    /// A property, a subject and a value.
    Fact,
    /// A subject.
    Word,
    /// Nothing.
    Bare,
}

/// Where an axiom with the tag is written: under which keyword, and in which section.
#[tactic(auto, unfolding(man_text::specs::Blocks::where_of))]
pub fn where_of(tag: Tag, chain: bool) -> (Heading, Section)
    ensures { in_section result.0 result.1 ≡ where_of tag chain }
{
    match tag {
        Tag::SubClassOf => (Heading::Class, Section::SubClassOf),
        Tag::EquivalentClasses => (Heading::EquivalentClasses, Section::Members),
        Tag::DisjointClasses => (Heading::DisjointClasses, Section::Members),
        Tag::DisjointUnion => (Heading::Class, Section::DisjointUnionOf),
        Tag::SubObjectPropertyOf if chain => (Heading::ObjectProperty, Section::SubPropertyChain),
        Tag::SubObjectPropertyOf => (Heading::ObjectProperty, Section::SubPropertyOf),
        Tag::EquivalentObjectProperties | Tag::EquivalentDataProperties => {
            (Heading::EquivalentProperties, Section::Members)
        }
        Tag::DisjointObjectProperties | Tag::DisjointDataProperties => {
            (Heading::DisjointProperties, Section::Members)
        }
        Tag::InverseObjectProperties => (Heading::ObjectProperty, Section::InverseOf),
        Tag::ObjectPropertyDomain => (Heading::ObjectProperty, Section::Domain),
        Tag::ObjectPropertyRange => (Heading::ObjectProperty, Section::Range),
        Tag::FunctionalObjectProperty
        | Tag::InverseFunctionalObjectProperty
        | Tag::ReflexiveObjectProperty
        | Tag::IrreflexiveObjectProperty
        | Tag::SymmetricObjectProperty
        | Tag::AsymmetricObjectProperty
        | Tag::TransitiveObjectProperty => (Heading::ObjectProperty, Section::Characteristics),
        Tag::SubDataPropertyOf => (Heading::DataProperty, Section::SubPropertyOf),
        Tag::DataPropertyDomain => (Heading::DataProperty, Section::Domain),
        Tag::DataPropertyRange => (Heading::DataProperty, Section::Range),
        Tag::FunctionalDataProperty => (Heading::DataProperty, Section::Characteristics),
        Tag::DatatypeDefinition => (Heading::Datatype, Section::EquivalentTo),
        Tag::HasKey => (Heading::Class, Section::HasKey),
        Tag::SameIndividual => (Heading::SameIndividual, Section::Members),
        Tag::DifferentIndividuals => (Heading::DifferentIndividuals, Section::Members),
        Tag::ClassAssertion => (Heading::Individual, Section::Types),
        Tag::ObjectPropertyAssertion
        | Tag::NegativeObjectPropertyAssertion
        | Tag::DataPropertyAssertion
        | Tag::NegativeDataPropertyAssertion => (Heading::Individual, Section::Facts),
        Tag::SubAnnotationPropertyOf => (Heading::AnnotationProperty, Section::SubPropertyOf),
        Tag::AnnotationPropertyDomain => (Heading::AnnotationProperty, Section::Domain),
        Tag::AnnotationPropertyRange => (Heading::AnnotationProperty, Section::Range),
        _ => (Heading::Individual, Section::Annotations),
    }
}

/// How the sentence takes the kids of an axiom.
pub fn manner_of(sentence: Sentence) -> Manner
    ensures { result ≡ manner_of sentence }
{
    match sentence {
        Sentence::Beside(_, _) => Manner::Beside,
        Sentence::Ahead(_, _) => Manner::Ahead,
        Sentence::Members(tag, _) => members_manner(tag),
        Sentence::Properties(_) => Manner::Members,
        Sentence::Key => Manner::Key,
        Sentence::Fact => Manner::Fact,
        Sentence::Word => Manner::Word,
        Sentence::Note | Sentence::Wrong => Manner::Bare,
    }
}

/// How the members of a list stand in an axiom with the tag.
fn members_manner(tag: Tag) -> Manner
    ensures { (place : Place) → result ≡ manner_of (Sentence.Members tag place) }
{
    match tag {
        Tag::DisjointUnion => Manner::Union,
        _ => Manner::Members,
    }
}

/// The word of a characteristic.
#[tactic(auto, unfolding(man_text::specs::Blocks::characteristic_of))]
pub fn characteristic_of(tag: Tag) -> Characteristic
    ensures { result ≡ characteristic_of tag }
{
    match tag {
        Tag::FunctionalObjectProperty | Tag::FunctionalDataProperty => Characteristic::Functional,
        Tag::InverseFunctionalObjectProperty => Characteristic::InverseFunctional,
        Tag::ReflexiveObjectProperty => Characteristic::Reflexive,
        Tag::IrreflexiveObjectProperty => Characteristic::Irreflexive,
        Tag::SymmetricObjectProperty => Characteristic::Symmetric,
        Tag::AsymmetricObjectProperty => Characteristic::Asymmetric,
        _ => Characteristic::Transitive,
    }
}

/// The form of a fact, or of one behind `not`.
#[tactic(auto, unfolding(man_text::specs::Blocks::fact_form))]
pub fn fact_form(tag: Tag) -> Form
    ensures { result ≡ fact_form tag }
{
    match tag {
        Tag::NegativeObjectPropertyAssertion | Tag::NegativeDataPropertyAssertion => {
            Form::NegativeFact
        }
        _ => Form::Fact,
    }
}

/// The keyword of the frame of an entity.
#[tactic(auto, unfolding(man_text::specs::Blocks::entity_heading))]
pub fn entity_heading(tag: Tag) -> Heading
    ensures { result ≡ entity_heading tag }
{
    match tag {
        Tag::Class => Heading::Class,
        Tag::Datatype => Heading::Datatype,
        Tag::ObjectProperty => Heading::ObjectProperty,
        Tag::DataProperty => Heading::DataProperty,
        Tag::AnnotationProperty => Heading::AnnotationProperty,
        _ => Heading::Individual,
    }
}

/// The keyword of the frame of a name that was found to have a kind, or none.
#[tactic(auto, unfolding(man_text::specs::Blocks::entity_heading, man_text::specs::Blocks::kind_tag))]
pub fn subject_heading(kind: Option<Kind>) -> Heading
    ensures { (iri : List ℕ) → result ≡ entity_heading (tag_of (subject_as kind iri)) }
{
    match kind {
        Some(Kind::Class) => Heading::Class,
        Some(Kind::Datatype) => Heading::Datatype,
        Some(Kind::ObjectProperty) => Heading::ObjectProperty,
        Some(Kind::DataProperty) => Heading::DataProperty,
        Some(Kind::AnnotationProperty) => Heading::AnnotationProperty,
        Some(Kind::Individual) | None => Heading::Individual,
    }
}
