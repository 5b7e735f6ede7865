//! What may stand at each place of a document.

ghost use Rattle.std.specs.Prelude.{◌≡◌};
ghost use Rattle.man_resolve.specs.Places.{labels_at, literals_at, names_at, numbers_at, tags_at};

use owl_tree::{Atom, Tag};

/// Where a piece of a document stands, by what may stand there (Manchester Syntax,
/// sections 2.1 to 2.5).
#[derive(Clone, Copy)]
pub enum Place {
    /// A class expression.
    Class,
    /// The name of a class.
    ClassName,
    /// A data range.
    Range,
    /// The name of a datatype.
    Datatype,
    /// An object property expression.
    Object,
    /// The name of an object property.
    ObjectName,
    /// The name of a data property.
    Data,
    /// An object property expression, or the name of a data property.
    Property,
    /// The name of an annotation property.
    AnnotationProperty,
    /// An individual.
    Individual,
    /// The value of an annotation.
    Value,
    /// An IRI, whatever it names.
    Iri,
    Literal,
    /// A cardinality.
    Number,
    Facet,
    /// A facet and its value.
    FacetPair,
    /// Annotations.
    Notes,
    /// One annotation.
    Note,
    /// A chain of object properties.
    Chain,
}

impl Place {
    /// The tags of the leaves that the atom may be there, in order.
    #[tactic(auto, unfolding(crate::specs::Places::tags_at))]
    pub fn tags(self, atom: &Atom) -> &'static [Tag]
        ensures { result.now ≡ tags_at self atom.now }
    {
        match atom {
            Atom::Iri(_) => self.names(),
            Atom::Label(_) => self.labels(),
            Atom::Literal(_) => self.literals(),
            Atom::Number(_) => self.numbers(),
        }
    }

    fn names(self) -> &'static [Tag]
        ensures { result.now ≡ names_at self }
    {
        match self {
            Place::Class | Place::ClassName => &[Tag::Class],
            Place::Range | Place::Datatype => &[Tag::Datatype],
            Place::Object | Place::ObjectName => &[Tag::ObjectProperty],
            Place::Data => &[Tag::DataProperty],
            Place::Property => &[Tag::ObjectProperty, Tag::DataProperty],
            Place::AnnotationProperty => &[Tag::AnnotationProperty],
            Place::Individual => &[Tag::NamedIndividual],
            Place::Value | Place::Iri => &[Tag::PlainIri],
            Place::Literal
            | Place::Number
            | Place::Facet
            | Place::FacetPair
            | Place::Notes
            | Place::Note
            | Place::Chain => &[],
        }
    }

    fn labels(self) -> &'static [Tag]
        ensures { result.now ≡ labels_at self }
    {
        match self {
            Place::Individual | Place::Value => &[Tag::Anonymous],
            _ => &[],
        }
    }

    fn literals(self) -> &'static [Tag]
        ensures { result.now ≡ literals_at self }
    {
        match self {
            Place::Literal | Place::Value => &[Tag::Literal],
            _ => &[],
        }
    }

    fn numbers(self) -> &'static [Tag]
        ensures { result.now ≡ numbers_at self }
    {
        match self {
            Place::Number => &[Tag::Number],
            _ => &[],
        }
    }
}
