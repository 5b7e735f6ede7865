//! What is to be said against a leaf.

ghost use Rattle.std.specs.Prelude.{◌≡◌, true, nat_eq};
ghost use Rattle.std.specs.List.{list_all, starts_with};
ghost use Rattle.std.specs.Option.{option_map};
ghost use Rattle.owl_characters.specs.Iri.{is_ascii};
ghost use Rattle.owl_characters.specs.Order.{text_eq};
ghost use Rattle.sayable_parts.specs.Reasons.{why_seen};
ghost use Rattle.owl_doc.specs.Entities.{is_misused};
ghost use Rattle.rdf_sayable.specs.Sayable.{atom_objection, entity_objection, facet_objection, iri_objection, is_facet_name};

use owl_doc::{Why, is_misused};
use owl_kind::Kind;
use owl_tree::{Atom, Tag};
use rdf_terms::{Iri, XSD, rdf};

/// The facet of the ranges of languages (Structural Specification, section 4.3).
const LANG_RANGE: &str = rdf!("langRange");

/// What is to be said against a leaf.
pub fn atom_objection<'a>(tag: Tag, atom: &'a Atom) -> Option<Why<'a>>
    ensures { option_map why_seen result ≡ atom_objection tag atom.now }
{
    match atom {
        Atom::Iri(iri) => iri_objection(tag, iri),
        _ => None,
    }
}

/// What is to be said against the IRI of a leaf.
#[tactic(auto, unfolding(crate::specs::Sayable::iri_objection), using(crate::proofs::Objections::no_objection_to))]
fn iri_objection<'a>(tag: Tag, iri: &'a Iri) -> Option<Why<'a>>
    ensures { option_map why_seen result ≡ iri_objection tag iri.now }
{
    match tag {
        Tag::Class => entity_objection(Kind::Class, iri),
        Tag::Datatype => entity_objection(Kind::Datatype, iri),
        Tag::ObjectProperty => entity_objection(Kind::ObjectProperty, iri),
        Tag::DataProperty => entity_objection(Kind::DataProperty, iri),
        Tag::AnnotationProperty => entity_objection(Kind::AnnotationProperty, iri),
        Tag::NamedIndividual => entity_objection(Kind::Individual, iri),
        Tag::Facet => facet_objection(iri),
        _ => None,
    }
}

/// What is to be said against the IRI of an entity: that it is reserved and not
/// built in as this kind.
#[tactic(auto, using(crate::proofs::Objections::chosen, crate::proofs::Objections::other))]
fn entity_objection<'a>(kind: Kind, iri: &'a Iri) -> Option<Why<'a>>
    ensures { option_map why_seen result ≡ entity_objection kind iri.now }
{
    if is_misused(kind, iri) {
        Some(Why::Reserved(iri))
    } else {
        None
    }
}

/// What is to be said against the IRI of a facet: that no facet of RDF has it.
#[tactic(auto, using(crate::proofs::Objections::chosen, crate::proofs::Objections::other))]
fn facet_objection<'a>(iri: &'a Iri) -> Option<Why<'a>>
    ensures { option_map why_seen result ≡ facet_objection iri.now }
{
    if is_facet_name(iri) {
        None
    } else {
        Some(Why::FacetName(iri))
    }
}

/// Whether the IRI is one of XML Schema, or `rdf:langRange`.
fn is_facet_name(iri: &Iri) -> bool
    ensures { result ≡ is_facet_name iri.now }
{
    begins_with(iri, XSD) || is_name(iri, LANG_RANGE)
}

/// Whether the IRI begins with the text, which is ASCII.
fn begins_with(iri: &Iri, front: &str) -> bool
    requires { list_all is_ascii front.now ≡ true }
    ensures { result ≡ starts_with nat_eq iri.now front.now }
{
    iri.text().starts_with(front)
}

/// Whether the IRI is the text, which is ASCII.
fn is_name(iri: &Iri, name: &str) -> bool
    requires { list_all is_ascii name.now ≡ true }
    ensures { result ≡ text_eq name.now iri.now }
{
    name == iri.text()
}
