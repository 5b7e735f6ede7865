//! The kinds as which an IRI is declared.

ghost use Rattle.std.specs.Prelude.{◌≡◌};
ghost use Rattle.owl_kind.specs.Marks.{is_marked, is_of, is_of_both, clashes, marked};

use crate::kind::{Kind, built_in};
use rdf_terms::Iri;

/// A mark for each kind as which an IRI is declared.
#[derive(Clone, Copy, Debug)]
pub struct Marks {
    pub class: bool,
    pub datatype: bool,
    pub object_property: bool,
    pub data_property: bool,
    pub annotation_property: bool,
    pub individual: bool,
}

impl Marks {
    /// No marks.
    pub const NONE: Marks = Marks {
        class: false,
        datatype: false,
        object_property: false,
        data_property: false,
        annotation_property: false,
        individual: false,
    };

    /// Whether this kind is marked.
    pub fn has(self, kind: Kind) -> bool
        ensures { result ≡ is_marked self kind }
    {
        match kind {
            Kind::Class => self.class,
            Kind::Datatype => self.datatype,
            Kind::ObjectProperty => self.object_property,
            Kind::DataProperty => self.data_property,
            Kind::AnnotationProperty => self.annotation_property,
            Kind::Individual => self.individual,
        }
    }

    /// These marks, and one for this kind.
    pub fn with(self, kind: Kind) -> Marks
        ensures { result ≡ marked self kind }
    {
        let mut marks = self;
        match kind {
            Kind::Class => marks.class = true,
            Kind::Datatype => marks.datatype = true,
            Kind::ObjectProperty => marks.object_property = true,
            Kind::DataProperty => marks.data_property = true,
            Kind::AnnotationProperty => marks.annotation_property = true,
            Kind::Individual => marks.individual = true,
        }
        marks
    }

    /// Whether an IRI with these marks has two kinds that no IRI may share: two
    /// kinds of properties, or class and datatype.
    #[tactic(auto, unfolding(crate::specs::Marks::clashes))]
    pub fn clash(self, iri: &Iri) -> bool
        ensures { result ≡ clashes (iri.now, self) }
    {
        self.are_of_both(iri, Kind::Class, Kind::Datatype)
            || self.are_of_both(iri, Kind::ObjectProperty, Kind::DataProperty)
            || self.are_of_both(iri, Kind::ObjectProperty, Kind::AnnotationProperty)
            || self.are_of_both(iri, Kind::DataProperty, Kind::AnnotationProperty)
    }

    /// Whether an IRI with these marks is of both kinds.
    fn are_of_both(self, iri: &Iri, a: Kind, b: Kind) -> bool
        ensures { result ≡ is_of_both (iri.now, self) a b }
    {
        self.are_of(iri, a) && self.are_of(iri, b)
    }

    /// Whether an IRI with these marks is of this kind, declared or built in.
    pub fn are_of(self, iri: &Iri, kind: Kind) -> bool
        ensures { result ≡ is_of (iri.now, self) kind }
    {
        self.has(kind) || built_in(kind, iri)
    }
}
