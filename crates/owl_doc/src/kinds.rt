//! The entities that leaves name.

ghost use Rattle.std.specs.Prelude.{◌≡◌};
ghost use Rattle.std.specs.Option.{option_map};
ghost use Rattle.owl_doc.specs.Entities.{declared_kind, entity_of, entity_seen, is_misused, kind_of};

use owl_atom::Iri;
use owl_kind::{Kind, built_in};
use owl_tree::{Atom, Tag};
use rdf_terms::reserved;

/// As what a leaf with this tag names an IRI, where an IRI has to be declared so
/// (Structural Specification, section 5.8.1).
#[tactic(auto, unfolding(crate::specs::Entities::kind_of), using(crate::proofs::Declaring::no_kind))]
pub fn kind_of(tag: Tag) -> Option<Kind>
    ensures { result ≡ kind_of tag }
{
    match tag {
        Tag::Class => Some(Kind::Class),
        Tag::Datatype => Some(Kind::Datatype),
        Tag::ObjectProperty => Some(Kind::ObjectProperty),
        Tag::DataProperty => Some(Kind::DataProperty),
        Tag::AnnotationProperty => Some(Kind::AnnotationProperty),
        _ => None,
    }
}

/// As what a declaration of a leaf with this tag declares an IRI (Structural
/// Specification, section 5.8).
#[tactic(auto, unfolding(crate::specs::Entities::declared_kind), using(crate::proofs::Declaring::no_individual))]
pub fn declared_kind(tag: Tag) -> Option<Kind>
    ensures { result ≡ declared_kind tag }
{
    match tag {
        Tag::NamedIndividual => Some(Kind::Individual),
        other => kind_of(other),
    }
}

/// The IRI of a leaf, as this kind.
pub fn entity_of(kind: Option<Kind>, atom: &Atom) -> Option<(Kind, &Iri)>
    ensures { option_map entity_seen result ≡ entity_of kind atom.now }
{
    match (kind, atom) {
        (Some(kind), Atom::Iri(iri)) => Some((kind, iri)),
        _ => None,
    }
}

/// Whether the IRI is reserved, and not built in as this kind (Structural
/// Specification, section 2.4).
pub fn is_misused(kind: Kind, iri: &Iri) -> bool
    ensures { result ≡ is_misused kind iri.now }
{
    reserved(iri) && !built_in(kind, iri)
}
