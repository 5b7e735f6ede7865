//! The words around the parts of what is written.

ghost use Rattle.std.specs.Prelude.{◌≡◌, ◌++◌, IsTrue, IsErrOf, OnOk};
ghost use Rattle.std.specs.List.{list_all};
ghost use Rattle.man_text.specs.Undecided.{form_of, is_bracketed, is_counted};
ghost use Rattle.std.specs.Str.{chars};
ghost use Rattle.man_text.specs.Words.{between, characteristic_class, facet_text, heading_class, list_gap, section_class, words_of};
ghost use Rattle.owl_characters.specs.Iri.{is_ascii};
ghost use Rattle.owl_writing.specs.Limits.{IsTooLong};
ghost use Rattle.owl_writing.specs.declared.fault.WriteFault.{WriteFault};
ghost use Rattle.man_write.specs.Parts.{gap, words_seen};
ghost use Rattle.man_write.specs.Plans.{body_words};

use man_grammar::Class;
use man_raw::{Characteristic, Facet, Form, Heading, Section};
use owl_tree::Tag;
use owl_writing::{Draft, WriteFault};

/// What stands in front of all parts, between the first two, between the others, and
/// behind all.
#[derive(Clone, Copy, Debug)]
pub struct Around {
    pub front: &'static str,
    pub first: &'static str,
    pub others: &'static str,
    pub last: &'static str,
}

/// These words.
fn these(
    front: &'static str,
    first: &'static str,
    others: &'static str,
    last: &'static str,
) -> Around
    requires front { IsTrue (list_all is_ascii front.now) }
    requires first { IsTrue (list_all is_ascii first.now) }
    requires others { IsTrue (list_all is_ascii others.now) }
    requires last { IsTrue (list_all is_ascii last.now) }
    ensures { words_seen result
        ≡ record { front = front.now; first = first.now; others = others.now; last = last.now } }
{
    Around {
        front,
        first,
        others,
        last,
    }
}

/// The words around the parts of a form (Manchester Syntax, sections 2.3 to 2.6).
#[tactic(auto, unfolding(man_text::specs::Words::words_of, man_grammar::specs::ClassNumbers::word_of))]
pub fn words_of(form: Form) -> Around
    ensures { words_seen result ≡ words_of form }
{
    match form {
        Form::Notes => these("Annotations: ", ", ", ", ", " "),
        Form::Note => these("", "", " ", ""),
        Form::Inverse => these("inverse ", " ", " ", ""),
        Form::Or => these("", " or ", " or ", ""),
        Form::And => these("", " and ", " and ", ""),
        Form::That => these("", " that ", " that ", ""),
        Form::Not | Form::NegativeFact => these("not ", " ", " ", ""),
        Form::SomeOf => these("", " some ", " ", ""),
        Form::OnlyOf => these("", " only ", " ", ""),
        Form::HasValue => these("", " value ", " ", ""),
        Form::HasSelf => these("", "", "", " Self"),
        Form::Min => these("", " min ", " ", ""),
        Form::Max => these("", " max ", " ", ""),
        Form::Exactly => these("", " exactly ", " ", ""),
        Form::Restricted => these("", "[", ", ", "]"),
        Form::FacetPair | Form::Assertion | Form::Fact => these("", " ", " ", ""),
        Form::Individuals | Form::Literals => these("{", ", ", ", ", "}"),
        Form::Bracket => these("(", ", ", ", ", ")"),
        Form::List => these("", ", ", ", ", ""),
    }
}

/// The form of nodes with the tag.
#[tactic(auto, unfolding(man_text::specs::Undecided::form_of))]
pub fn form_of(tag: Tag) -> Form
    ensures { result ≡ form_of tag }
{
    match tag {
        Tag::ObjectInverseOf => Form::Inverse,
        Tag::ObjectIntersectionOf | Tag::DataIntersectionOf => Form::And,
        Tag::ObjectUnionOf | Tag::DataUnionOf => Form::Or,
        Tag::ObjectComplementOf | Tag::DataComplementOf => Form::Not,
        Tag::ObjectOneOf => Form::Individuals,
        Tag::ObjectSomeValuesFrom | Tag::DataSomeValuesFrom => Form::SomeOf,
        Tag::ObjectAllValuesFrom | Tag::DataAllValuesFrom => Form::OnlyOf,
        Tag::ObjectHasValue | Tag::DataHasValue => Form::HasValue,
        Tag::ObjectHasSelf => Form::HasSelf,
        Tag::ObjectMinCardinality | Tag::DataMinCardinality => Form::Min,
        Tag::ObjectMaxCardinality | Tag::DataMaxCardinality => Form::Max,
        Tag::ObjectExactCardinality | Tag::DataExactCardinality => Form::Exactly,
        Tag::DataOneOf => Form::Literals,
        Tag::DatatypeRestriction => Form::Restricted,
        Tag::FacetPair => Form::FacetPair,
        Tag::Annotation => Form::Note,
        Tag::Notes => Form::Notes,
        _ => Form::List,
    }
}

/// Whether an expression of the form stands in brackets where it is an operand.
#[tactic(auto, unfolding(man_text::specs::Undecided::is_bracketed))]
pub fn is_bracketed(form: Form) -> bool
    ensures { result ≡ is_bracketed form }
{
    match form {
        Form::Or | Form::And | Form::Not => true,
        Form::SomeOf | Form::OnlyOf | Form::HasValue | Form::HasSelf => true,
        Form::Min | Form::Max | Form::Exactly => true,
        _ => false,
    }
}

/// Whether the number of a form is written behind its property.
#[tactic(auto, unfolding(man_text::specs::Undecided::is_counted))]
pub fn is_counted(form: Form) -> bool
    ensures { result ≡ is_counted form }
{
    matches!(form, Form::Min | Form::Max | Form::Exactly)
}

/// Adds what stands in front of the part at this place.
pub fn add_gap(draft: &mut Draft, words: Around, place: usize) -> Result<(), WriteFault>
    ensures ok { OnOk result (draft.new ≡ draft.old ++ gap (words_seen words) place) }
    ensures too_long { IsErrOf result WriteFault.TooLong → IsTooLong (draft.old ++ gap
        (words_seen words) place) }
{
    match place {
        0 => Ok(()),
        1 => draft.add(words.first),
        _ => draft.add(words.others),
    }
}

/// The word or sign of a facet (Manchester Syntax, section 2.3).
#[tactic(auto, using(owl_characters::proofs::AsciiLaws::ascii_chars), unfolding(man_text::specs::Words::facet_text, man_grammar::specs::ClassNumbers::word_of))]
pub fn facet_word(facet: Facet) -> &'static str
    ensures { chars result.now ≡ facet_text facet }
{
    match facet {
        Facet::AtMost => "<=",
        Facet::LessThan => "<",
        Facet::AtLeast => ">=",
        Facet::MoreThan => ">",
        Facet::Length => Class::Length.word(),
        Facet::MinLength => Class::MinLength.word(),
        Facet::MaxLength => Class::MaxLength.word(),
        Facet::Pattern => Class::Pattern.word(),
        Facet::LangRange => Class::LangRange.word(),
    }
}

/// The words around the parts of a form in this section.
pub fn body_words(section: Section, form: Form) -> Around
    ensures { words_seen result ≡ body_words section form }
{
    match form {
        Form::List => gap_words(section),
        _ => words_of(form),
    }
}

/// What stands between the members of a list in this section.
#[tactic(auto, unfolding(man_text::specs::Words::list_gap, man_grammar::specs::ClassNumbers::word_of))]
fn gap_words(section: Section) -> Around
    ensures { words_seen result ≡ between (list_gap section) }
{
    match section {
        Section::HasKey => these("", " ", " ", ""),
        Section::SubPropertyChain => these("", " o ", " o ", ""),
        _ => these("", ", ", ", ", ""),
    }
}

/// The keyword of an item.
#[tactic(auto, unfolding(man_text::specs::Words::heading_class))]
pub fn heading_class(heading: Heading) -> Class
    ensures { result ≡ heading_class heading }
{
    match heading {
        Heading::Class => Class::Class,
        Heading::Datatype => Class::Datatype,
        Heading::ObjectProperty => Class::ObjectProperty,
        Heading::DataProperty => Class::DataProperty,
        Heading::AnnotationProperty => Class::AnnotationProperty,
        Heading::Individual => Class::Individual,
        Heading::EquivalentClasses => Class::EquivalentClasses,
        Heading::DisjointClasses => Class::DisjointClasses,
        Heading::EquivalentProperties => Class::EquivalentProperties,
        Heading::DisjointProperties => Class::DisjointProperties,
        Heading::SameIndividual => Class::SameIndividual,
        Heading::DifferentIndividuals => Class::DifferentIndividuals,
    }
}

/// The keyword of a section.
#[tactic(auto, unfolding(man_text::specs::Words::section_class))]
pub fn section_class(section: Section) -> Class
    ensures { result ≡ section_class section }
{
    match section {
        Section::Annotations => Class::Annotations,
        Section::SubClassOf => Class::SubClassOf,
        Section::EquivalentTo => Class::EquivalentTo,
        Section::DisjointWith => Class::DisjointWith,
        Section::DisjointUnionOf => Class::DisjointUnionOf,
        Section::HasKey => Class::HasKey,
        Section::Domain => Class::Domain,
        Section::Range => Class::Range,
        Section::Characteristics => Class::Characteristics,
        Section::SubPropertyOf => Class::SubPropertyOf,
        Section::InverseOf => Class::InverseOf,
        Section::SubPropertyChain => Class::SubPropertyChain,
        Section::Types => Class::Types,
        Section::Facts => Class::Facts,
        Section::SameAs => Class::SameAs,
        Section::DifferentFrom => Class::DifferentFrom,
        Section::Members => Class::Comma,
    }
}

/// The class of the word of a characteristic.
#[tactic(auto, unfolding(man_text::specs::Words::characteristic_class))]
pub fn characteristic_class(word: Characteristic) -> Class
    ensures { result ≡ characteristic_class word }
{
    match word {
        Characteristic::Functional => Class::Functional,
        Characteristic::InverseFunctional => Class::InverseFunctional,
        Characteristic::Reflexive => Class::Reflexive,
        Characteristic::Irreflexive => Class::Irreflexive,
        Characteristic::Symmetric => Class::Symmetric,
        Characteristic::Asymmetric => Class::Asymmetric,
        Characteristic::Transitive => Class::Transitive,
    }
}
