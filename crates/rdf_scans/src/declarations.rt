//! What the triples of a graph declare.

ghost use Rattle.std.specs.Prelude.{◌≡◌, ◌∷◌, [], OnErr, OnOk};
ghost use Rattle.std.specs.Option.{option_map};
ghost use Rattle.owl_doc.specs.Entities.{AddsAll, AddsSome, entity_seen};
ghost use Rattle.rdf_faults.specs.Faults.{kind_declared};
ghost use Rattle.rdf_scans.specs.Outlines.{declaration, declarations, kind_at};

use owl_characters::NoMemory;
use owl_kind::{Kind, Kinds};
use rdf_graph::{Graph, Term, Triple};
use rdf_meaning::{Site, Word};
use rdf_rows::site_of;
use rdf_terms::Iri;

/// Declares what each triple of the graph declares, besides what was declared
/// before. At want of memory some may have been declared.
pub fn declare_graph(graph: &Graph, kinds: &mut Kinds) -> Result<(), NoMemory>
    ensures ok { OnOk result (AddsAll kinds.old (declarations graph.now) kinds.new) }
    ensures err { OnErr result (AddsSome kinds.old (declarations graph.now) kinds.new) }
{
    'triples: for triple in graph.triples() {
        declare(triple, kinds)?;
    }
    Ok(())
}

/// Declares what the triple declares. At want of memory nothing changes.
fn declare(triple: &Triple, kinds: &mut Kinds) -> Result<(), NoMemory>
    ensures ok { OnOk result (AddsAll kinds.old (declarations (triple.now ∷ [])) kinds.new) }
    ensures err { OnErr result (kinds.new ≡ kinds.old) }
{
    if let Some((kind, iri)) = declaration(triple) {
        let copy = iri.copy(kinds.allocator())?;
        kinds.declare(kind, copy)?;
    }
    Ok(())
}

/// The entity that the triple declares.
fn declaration(triple: &Triple) -> Option<(Kind, &Iri)>
    ensures { option_map entity_seen result ≡ declaration triple.now }
{
    let kind = kind_at(site_of(triple))?;
    match &triple.subject {
        Term::Iri(iri) => Some((kind, iri)),
        Term::Blank(_) | Term::Literal(_) => None,
    }
}

/// As what a triple of this site declares its subject.
fn kind_at(site: Site) -> Option<Kind>
    ensures { result ≡ kind_at site }
{
    match site {
        Site::TypedBy(word) => kind_declared(word),
        Site::Node(_) | Site::OtherType | Site::LinkedBy(_) | Site::OtherLink => None,
    }
}

/// As what a triple of rdf:type with this class declares its subject.
pub(crate) fn kind_declared(word: Word) -> Option<Kind>
    ensures { result ≡ kind_declared word }
{
    match word {
        Word::Class => Some(Kind::Class),
        Word::Datatype => Some(Kind::Datatype),
        Word::ObjectProperty => Some(Kind::ObjectProperty),
        Word::DatatypeProperty => Some(Kind::DataProperty),
        Word::AnnotationProperty => Some(Kind::AnnotationProperty),
        Word::NamedIndividual => Some(Kind::Individual),
        _ => None,
    }
}
