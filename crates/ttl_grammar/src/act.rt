//! What is done on the way along a derivation.

ghost use Rattle.std.specs.Prelude.{◌≡◌};
ghost use Rattle.ttl_grammar.specs.Acts.{act_number, act_numbered};

/// What a reader does in front of a token (RDF 1.1 Turtle, sections 7.2 and
/// 7.3).
#[derive(Clone, Copy, Debug, PartialEq, Eq)]
pub enum Act {
    /// The term is the IRI that comes.
    Iri,
    /// The term is the blank node whose label comes.
    Label,
    /// The term is rdf:type.
    RdfType,
    /// The term is the current subject.
    Subject,
    /// The term is the current predicate.
    Predicate,
    /// The term is an object: a triple is stated.
    Object,
    /// A blank node without a label appears and is the current subject, inside
    /// of what stood around it.
    OpenBracket,
    /// The term is the blank node in brackets.
    CloseBracket,
    /// A list begins.
    OpenCollection,
    /// A cell of the list appears.
    Item,
    /// The term is the element of the cell: a triple is stated.
    Element,
    /// The term is the first cell of the list, or rdf:nil.
    CloseCollection,
    /// The string that comes is the form of a literal.
    Text,
    /// The term is the literal of the form alone.
    Plain,
    /// The term is the literal of the form with the language tag that comes.
    Tagged,
    /// The term is the literal of the form with the datatype that comes.
    Typed,
    /// The term is the literal that the number or the word that comes is short for.
    Shorthand,
    /// The name of a prefix comes.
    NamePrefix,
    /// The IRI of the prefix comes.
    DeclarePrefix,
    /// The base IRI comes.
    DeclareBase,
    /// The token that comes is the last one of a statement.
    EndStatement,
}

impl Act {
    /// The number of the act, by which tables have it.
    pub fn number(self) -> u8
        ensures { result ≡ act_number self }
    {
        match self {
            Act::Iri => 0,
            Act::Label => 1,
            Act::RdfType => 2,
            Act::Subject => 3,
            Act::Predicate => 4,
            Act::Object => 5,
            Act::OpenBracket => 6,
            Act::CloseBracket => 7,
            Act::OpenCollection => 8,
            Act::Item => 9,
            Act::Element => 10,
            Act::CloseCollection => 11,
            Act::Text => 12,
            Act::Plain => 13,
            Act::Tagged => 14,
            Act::Typed => 15,
            Act::Shorthand => 16,
            Act::NamePrefix => 17,
            Act::DeclarePrefix => 18,
            Act::DeclareBase => 19,
            Act::EndStatement => 20,
        }
    }

    /// The act with this number, if there is one.
    pub fn numbered(number: u8) -> Option<Act>
        ensures { result ≡ act_numbered number }
    {
        match number {
            0 => Some(Act::Iri),
            1 => Some(Act::Label),
            2 => Some(Act::RdfType),
            3 => Some(Act::Subject),
            4 => Some(Act::Predicate),
            5 => Some(Act::Object),
            6 => Some(Act::OpenBracket),
            7 => Some(Act::CloseBracket),
            8 => Some(Act::OpenCollection),
            9 => Some(Act::Item),
            10 => Some(Act::Element),
            11 => Some(Act::CloseCollection),
            12 => Some(Act::Text),
            13 => Some(Act::Plain),
            14 => Some(Act::Tagged),
            15 => Some(Act::Typed),
            16 => Some(Act::Shorthand),
            17 => Some(Act::NamePrefix),
            18 => Some(Act::DeclarePrefix),
            19 => Some(Act::DeclareBase),
            20 => Some(Act::EndStatement),
            _ => None,
        }
    }
}
