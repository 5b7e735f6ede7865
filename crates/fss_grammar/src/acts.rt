//! What is done on the way along a derivation.

ghost use Rattle.std.specs.Prelude.{◌≡◌, IfSome, IsNone};
ghost use Rattle.fss_grammar.specs.Acts.{act_number};

use owl_tree::Tag;

/// What the maker of an ontology does in front of a token.
#[derive(Clone, Copy, Debug)]
pub enum Act {
    /// The atom that comes becomes a leaf with this tag, or a construct with
    /// this tag is opened.
    Begin(Tag),
    /// The innermost construct ends.
    Shut,
    /// The string that was kept is a literal alone.
    Plain,
    /// The string that was kept is a literal with the language tag that comes.
    Tagged,
    /// The string that was kept is a literal with the datatype that comes.
    Typed,
    /// The IRI that comes is kept.
    Hold,
    /// The IRI that was kept is a data property.
    HeldProperty,
    /// The IRI that was kept is a datatype.
    HeldDatatype,
    /// The name of a prefix comes.
    DeclareName,
    /// The IRI of the prefix comes.
    DeclareIri,
    /// The IRI of the ontology comes.
    OntologyIri,
    /// The version IRI of the ontology comes.
    VersionIri,
    /// The IRI of an import comes.
    ImportIri,
    /// The construct that ended last is an annotation of the ontology.
    AddAnnotation,
    /// The construct that ended last is an axiom.
    AddAxiom,
    /// The token that comes is the last one of an item of the document.
    EndItem,
}

impl Act {
    /// The number of the act, by which tables have it.
    pub fn number(self) -> u8
        ensures { result ≡ act_number self }
    {
        match self {
            Act::Begin(tag) => tag.number(),
            Act::Shut => 78,
            Act::Plain => 79,
            Act::Tagged => 80,
            Act::Typed => 81,
            Act::Hold => 82,
            Act::HeldProperty => 83,
            Act::HeldDatatype => 84,
            Act::DeclareName => 85,
            Act::DeclareIri => 86,
            Act::OntologyIri => 87,
            Act::VersionIri => 88,
            Act::ImportIri => 89,
            Act::AddAnnotation => 90,
            Act::AddAxiom => 91,
            Act::EndItem => 92,
        }
    }

    /// The act with this number: of a tag that begins the number of the tag.
    pub fn numbered(number: u8) -> Option<Act>
        ensures some { IfSome result (λ act. act_number act ≡ number) }
        ensures none { IsNone result → (act : Act) → act_number act ≡ number → ⊥ }
    {
        match number {
            78 => Some(Act::Shut),
            79 => Some(Act::Plain),
            80 => Some(Act::Tagged),
            81 => Some(Act::Typed),
            82 => Some(Act::Hold),
            83 => Some(Act::HeldProperty),
            84 => Some(Act::HeldDatatype),
            85 => Some(Act::DeclareName),
            86 => Some(Act::DeclareIri),
            87 => Some(Act::OntologyIri),
            88 => Some(Act::VersionIri),
            89 => Some(Act::ImportIri),
            90 => Some(Act::AddAnnotation),
            91 => Some(Act::AddAxiom),
            92 => Some(Act::EndItem),
            _ => Some(Act::Begin(Tag::numbered(number)?)),
        }
    }
}
