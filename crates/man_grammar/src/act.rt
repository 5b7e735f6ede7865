//! What is done on the way along a derivation, made by `tools/make_page.py`.

ghost use Rattle.std.specs.Prelude.{◌≡◌};
ghost use Rattle.man_grammar.specs.Acts.{act_numbered};

use man_raw::{Characteristic, Facet, Form, Heading, Section};

/// What a reader does in front of a token (Manchester Syntax, sections 2.1 to
/// 2.6). An act carries what the keyword behind it means.
#[derive(Clone, Copy, Debug, PartialEq, Eq)]
pub enum Act {
    /// The name of a prefix comes.
    NamePrefix,
    /// The IRI of the prefix comes.
    DeclarePrefix,
    /// The IRI of the ontology comes.
    OntologyIri,
    /// The IRI of its version comes.
    VersionIri,
    /// The IRI of what is imported comes.
    ImportIri,
    /// The piece that was read is annotations of the ontology.
    HeadNotes,
    /// A piece begins.
    Open,
    /// The piece that was read is what the frame is of.
    Subject,
    /// The piece that was read is a part of the section, behind its annotations.
    Part,
    /// A nest begins.
    Nest,
    /// A nest ends.
    Unnest,
    /// There are no annotations.
    NoNotes,
    /// The piece that was read last is the first part of a piece.
    Wrap,
    /// A number comes.
    Number,
    /// A name comes.
    Name,
    /// The name of a datatype comes, as a word.
    TypeName,
    /// The label of an anonymous individual comes.
    Label,
    /// The string that comes is the form of a literal.
    Text,
    /// The literal has the form alone.
    Plain,
    /// The language tag of the literal comes.
    Tagged,
    /// The datatype of the literal comes.
    Typed,
    /// What is short for a literal comes.
    Shorthand,
    /// An item begins.
    Item(Heading),
    /// A section begins.
    Section(Section),
    /// A characteristic comes.
    Word(Characteristic),
    /// A facet comes.
    Facet(Facet),
    /// The piece ends.
    Shut(Form),
}

impl Act {
    /// The act with this number, if there is one.
    pub fn numbered(number: u8) -> Option<Act>
        ensures { result ≡ act_numbered number }
    {
        match number {
            0 => Some(Act::NamePrefix),
            1 => Some(Act::DeclarePrefix),
            2 => Some(Act::OntologyIri),
            3 => Some(Act::VersionIri),
            4 => Some(Act::ImportIri),
            5 => Some(Act::HeadNotes),
            6 => Some(Act::Open),
            7 => Some(Act::Subject),
            8 => Some(Act::Part),
            9 => Some(Act::Nest),
            10 => Some(Act::Unnest),
            11 => Some(Act::NoNotes),
            12 => Some(Act::Wrap),
            13 => Some(Act::Number),
            14 => Some(Act::Name),
            15 => Some(Act::TypeName),
            16 => Some(Act::Label),
            17 => Some(Act::Text),
            18 => Some(Act::Plain),
            19 => Some(Act::Tagged),
            20 => Some(Act::Typed),
            21 => Some(Act::Shorthand),
            22 => Some(Act::Item(Heading::Class)),
            23 => Some(Act::Item(Heading::Datatype)),
            24 => Some(Act::Item(Heading::ObjectProperty)),
            25 => Some(Act::Item(Heading::DataProperty)),
            26 => Some(Act::Item(Heading::AnnotationProperty)),
            27 => Some(Act::Item(Heading::Individual)),
            28 => Some(Act::Item(Heading::EquivalentClasses)),
            29 => Some(Act::Item(Heading::DisjointClasses)),
            30 => Some(Act::Item(Heading::EquivalentProperties)),
            31 => Some(Act::Item(Heading::DisjointProperties)),
            32 => Some(Act::Item(Heading::SameIndividual)),
            33 => Some(Act::Item(Heading::DifferentIndividuals)),
            34 => Some(Act::Section(Section::Annotations)),
            35 => Some(Act::Section(Section::SubClassOf)),
            36 => Some(Act::Section(Section::EquivalentTo)),
            37 => Some(Act::Section(Section::DisjointWith)),
            38 => Some(Act::Section(Section::DisjointUnionOf)),
            39 => Some(Act::Section(Section::HasKey)),
            40 => Some(Act::Section(Section::Domain)),
            41 => Some(Act::Section(Section::Range)),
            42 => Some(Act::Section(Section::Characteristics)),
            43 => Some(Act::Section(Section::SubPropertyOf)),
            44 => Some(Act::Section(Section::InverseOf)),
            45 => Some(Act::Section(Section::SubPropertyChain)),
            46 => Some(Act::Section(Section::Types)),
            47 => Some(Act::Section(Section::Facts)),
            48 => Some(Act::Section(Section::SameAs)),
            49 => Some(Act::Section(Section::DifferentFrom)),
            50 => Some(Act::Section(Section::Members)),
            51 => Some(Act::Word(Characteristic::Functional)),
            52 => Some(Act::Word(Characteristic::InverseFunctional)),
            53 => Some(Act::Word(Characteristic::Reflexive)),
            54 => Some(Act::Word(Characteristic::Irreflexive)),
            55 => Some(Act::Word(Characteristic::Symmetric)),
            56 => Some(Act::Word(Characteristic::Asymmetric)),
            57 => Some(Act::Word(Characteristic::Transitive)),
            58 => Some(Act::Facet(Facet::AtMost)),
            59 => Some(Act::Facet(Facet::LessThan)),
            60 => Some(Act::Facet(Facet::AtLeast)),
            61 => Some(Act::Facet(Facet::MoreThan)),
            62 => Some(Act::Facet(Facet::Length)),
            63 => Some(Act::Facet(Facet::MinLength)),
            64 => Some(Act::Facet(Facet::MaxLength)),
            65 => Some(Act::Facet(Facet::Pattern)),
            66 => Some(Act::Facet(Facet::LangRange)),
            67 => Some(Act::Shut(Form::Notes)),
            68 => Some(Act::Shut(Form::Note)),
            69 => Some(Act::Shut(Form::Inverse)),
            70 => Some(Act::Shut(Form::Or)),
            71 => Some(Act::Shut(Form::And)),
            72 => Some(Act::Shut(Form::That)),
            73 => Some(Act::Shut(Form::Not)),
            74 => Some(Act::Shut(Form::SomeOf)),
            75 => Some(Act::Shut(Form::OnlyOf)),
            76 => Some(Act::Shut(Form::HasValue)),
            77 => Some(Act::Shut(Form::HasSelf)),
            78 => Some(Act::Shut(Form::Min)),
            79 => Some(Act::Shut(Form::Max)),
            80 => Some(Act::Shut(Form::Exactly)),
            81 => Some(Act::Shut(Form::Restricted)),
            82 => Some(Act::Shut(Form::FacetPair)),
            83 => Some(Act::Shut(Form::Individuals)),
            84 => Some(Act::Shut(Form::Literals)),
            85 => Some(Act::Shut(Form::Bracket)),
            86 => Some(Act::Shut(Form::Assertion)),
            87 => Some(Act::Shut(Form::Fact)),
            88 => Some(Act::Shut(Form::NegativeFact)),
            89 => Some(Act::Shut(Form::List)),
            _ => None,
        }
    }
}
