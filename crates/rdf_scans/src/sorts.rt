//! What the triples of a graph are for.

ghost use Rattle.std.specs.Prelude.{◌≡◌, List};
ghost use Rattle.rdf_graph.specs.declared.triple.Triple.{Triple};
ghost use Rattle.rdf_meaning.specs.Nodes.{carries_some, is_same};
ghost use Rattle.rdf_meaning.specs.Statements.{header_words, is_axiom_predicate, is_header_triple};
ghost use Rattle.rdf_scans.specs.Sorts.{IsReading, annotates, is_axiom_site, is_header_note, is_main, is_node_note, may_be_noted, sort_in};
ghost use Rattle.rdf_roles.specs.Tables.{IsTableOf};

use crate::reading::Reading;
use owl_kind::{Kind, Kinds};
use rdf_asked::{has_kind, is_structural, role_of_term};
use rdf_graph::{Term, Triple};
use rdf_meaning::{Role, Site, Word};
use rdf_roles::Roles;
use rdf_rows::{carries, site_of};

/// What names the ontology, and what it imports.
const HEADER_WORDS: [Word; 3] = [Word::Ontology, Word::VersionIri, Word::Imports];

/// What a triple is for (Mapping to RDF Graphs, section 3).
#[derive(Clone, Copy, Debug, PartialEq, Eq)]
pub enum TripleSort {
    /// It makes its subject, a blank node, what it is.
    Structural,
    /// It says how the ontology is called, or what it imports.
    Header,
    /// It is an annotation of the ontology, of a reification, or of a node that
    /// stands for an axiom.
    Annotation,
    /// It is an axiom.
    Main,
}

/// What the triple of the graph is for. Takes no memory.
pub fn sort_of(reading: &Reading, triple: &Triple) -> TripleSort
    requires { IsReading reading.now }
    ensures { result ≡ sort_in reading.now triple.now }
{
    if is_structural(reading.roles, triple) {
        TripleSort::Structural
    } else if is_header_triple(reading.header, triple) {
        TripleSort::Header
    } else if is_annotation(reading, triple) {
        TripleSort::Annotation
    } else {
        TripleSort::Main
    }
}

/// Whether a triple of the sort is an axiom.
pub fn is_main(sort: TripleSort) -> bool
    ensures { result ≡ is_main sort }
{
    match sort {
        TripleSort::Main => true,
        TripleSort::Structural | TripleSort::Header | TripleSort::Annotation => false,
    }
}

/// Whether the triple says how the ontology is called, or what it imports.
#[tactic(auto, unfolding(rdf_meaning::specs::Statements::is_header_triple))]
fn is_header_triple(header: &Term, triple: &Triple) -> bool
    ensures { result ≡ is_header_triple header.now triple.now }
{
    is_same(&triple.subject, header) && has_header_word(triple)
}

/// Whether the terms are the same.
pub(crate) fn is_same(term: &Term, other: &Term) -> bool
    ensures { result ≡ is_same term.now other.now }
{
    *term == *other
}

/// Whether the triple is of the words of headers.
fn has_header_word(triple: &Triple) -> bool
    ensures { result ≡ carries_some header_words triple.now }
{
    HEADER_WORDS.iter().any(|word| carries(triple, *word))
}

/// Whether the triple is an annotation of the ontology, of a reification, or of a
/// node that stands for an axiom.
pub fn is_annotation(reading: &Reading, triple: &Triple) -> bool
    requires { IsReading reading.now }
    ensures { result ≡ annotates reading.now triple.now }
{
    is_header_note(reading.kinds, reading.header, triple) || is_node_note(reading.roles, triple)
}

/// Whether the triple is an annotation of the ontology.
fn is_header_note(kinds: &Kinds, header: &Term, triple: &Triple) -> bool
    ensures { result ≡ is_header_note kinds.now header.now triple.now }
{
    is_same(&triple.subject, header)
        && !has_header_word(triple)
        && has_kind(kinds, Kind::AnnotationProperty, &triple.predicate)
        && !has_axiom_predicate(triple)
}

/// Whether the predicate is named by a row of an axiom.
fn has_axiom_predicate(triple: &Triple) -> bool
    ensures { result ≡ is_axiom_predicate triple.now.predicate }
{
    is_axiom_site(site_of(triple))
}

/// Whether the site is that of a predicate that a row of an axiom names.
fn is_axiom_site(site: Site) -> bool
    ensures { result ≡ is_axiom_site site }
{
    match site {
        Site::OtherLink => false,
        Site::Node(_) | Site::TypedBy(_) | Site::OtherType | Site::LinkedBy(_) => true,
    }
}

/// Whether the triple is an annotation of a reification, or of a node that stands
/// for an axiom.
fn is_node_note(roles: &Roles, triple: &Triple) -> bool
    ensures { (g : List Triple) → IsTableOf g roles.now → result ≡ is_node_note g triple.now }
{
    may_be_noted(role_of_term(roles, &triple.subject)) && !is_structural(roles, triple)
}

/// Whether a node of the role has annotations.
fn may_be_noted(role: Role) -> bool
    ensures { result ≡ may_be_noted role }
{
    match role {
        Role::Main | Role::Note => true,
        _ => false,
    }
}
