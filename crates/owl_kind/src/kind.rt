//! The kinds of IRIs.

ghost use Rattle.std.specs.Prelude.{◌≡◌, true, nat_eq};
ghost use Rattle.std.specs.List.{list_all, starts_with};
ghost use Rattle.rdf_terms.specs.Datatypes.{has};
ghost use Rattle.rdf_terms.specs.Tables.{are_ascii, shown};
ghost use Rattle.owl_characters.specs.Iri.{is_ascii};
ghost use Rattle.owl_kind.specs.Kinds.{is_built_in};

use rdf_terms::{Iri, XSD, in_map, owl, rdf, rdfs};

/// What an IRI may name (Structural Specification, sections 5.1 to 5.6).
#[derive(Clone, Copy, Debug, PartialEq, Eq)]
pub enum Kind {
    Class,
    Datatype,
    ObjectProperty,
    DataProperty,
    AnnotationProperty,
    Individual,
}

/// Section 5.1.
const CLASSES: [&str; 2] = [owl!("Thing"), owl!("Nothing")];

/// Section 5.2, and the datatype that RDF gives texts with a language.
const DATATYPES: [&str; 2] = [rdfs!("Literal"), rdf!("langString")];

/// Section 5.3.
const OBJECT_PROPERTIES: [&str; 2] = [owl!("topObjectProperty"), owl!("bottomObjectProperty")];

/// Section 5.4.
const DATA_PROPERTIES: [&str; 2] = [owl!("topDataProperty"), owl!("bottomDataProperty")];

/// Section 5.5.
const ANNOTATION_PROPERTIES: [&str; 9] = [
    rdfs!("label"),
    rdfs!("comment"),
    rdfs!("seeAlso"),
    rdfs!("isDefinedBy"),
    owl!("deprecated"),
    owl!("versionInfo"),
    owl!("priorVersion"),
    owl!("backwardCompatibleWith"),
    owl!("incompatibleWith"),
];

/// Whether the IRI is of this kind without a declaration (Structural
/// Specification, sections 5.1 to 5.6). Besides those of the datatype map,
/// every IRI of XML Schema is a datatype, and so is `rdf:langString`. Takes no
/// memory.
pub fn built_in(kind: Kind, iri: &Iri) -> bool
    ensures { result ≡ is_built_in kind iri.now }
{
    match kind {
        Kind::Class => is_one_of(iri, &CLASSES),
        Kind::Datatype => is_one_of(iri, &DATATYPES) || in_map(iri) || begins_with(iri, XSD),
        Kind::ObjectProperty => is_one_of(iri, &OBJECT_PROPERTIES),
        Kind::DataProperty => is_one_of(iri, &DATA_PROPERTIES),
        Kind::AnnotationProperty => is_one_of(iri, &ANNOTATION_PROPERTIES),
        Kind::Individual => false,
    }
}

/// Whether the IRI is one of the names, which are ASCII.
fn is_one_of(iri: &Iri, names: &[&str]) -> bool
    requires { are_ascii names.now ≡ true }
    ensures { result ≡ has (shown names.now) iri.now }
{
    let text = iri.text();
    names.iter().any(|name| *name == text)
}

/// Whether the IRI begins with the text, which is ASCII.
fn begins_with(iri: &Iri, front: &str) -> bool
    requires { list_all is_ascii front.now ≡ true }
    ensures { result ≡ starts_with nat_eq iri.now front.now }
{
    iri.text().starts_with(front)
}
