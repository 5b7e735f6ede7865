//! Statements that are not the axioms or annotations that they would be.

ghost use Rattle.std.specs.Prelude.{◌≡◌, ◌↔◌, IsTrue, List};
ghost use Rattle.rdf_faults.specs.Asked.{IsMet, IsTypedAxiom};
ghost use Rattle.rdf_graph.specs.declared.term.Term.TheVariants as held;
ghost use Rattle.rdf_graph.specs.declared.triple.Triple.{Triple};
ghost use Rattle.rdf_meaning.specs.Denotation.{site_of};
ghost use Rattle.rdf_meaning.specs.Rows.{row_seen};
ghost use Rattle.rdf_scans.specs.Sorts.{IsReading};
ghost use Rattle.rdf_scans.specs.Statements.{IsAxiomBy, IsMetBy, IsMetIn};

use crate::reading::Reading;
use owl_kind::Kinds;
use rdf_asked::{Source, is_entity, meets, names_tree};
use rdf_graph::{Term, Triple};
use rdf_meaning::{Part, Place, Row, Site, Want, axiom_rows};
use rdf_rows::{is_nil_iri, site_of};
use rdf_terms::Iri;

/// Whether the triple is an axiom by its terms: what a row for it wants is what
/// these stand for (Mapping to RDF Graphs, tables 16 and 17). Takes no memory.
pub fn is_typed_axiom(reading: &Reading, triple: &Triple) -> bool
    requires { IsReading reading.now }
    ensures { IsTrue result
        ↔ IsTypedAxiom reading.now.graph.now reading.now.kinds.now triple.now }
{
    let site = site_of(triple);
    'rows: for row in axiom_rows() {
        if is_axiom_by(reading, site, row, triple) {
            return true;
        }
    }
    false
}

/// Whether the triple, which has this site, is an axiom by this row.
fn is_axiom_by(reading: &Reading, site: Site, row: &Row, triple: &Triple) -> bool
    requires reading { IsReading reading.now }
    requires site { site ≡ site_of triple.now }
    ensures { IsTrue result ↔ IsAxiomBy reading.now triple.now (row_seen row.now) }
{
    is_same_site(row.site, site) && are_met(reading, row.parts, triple)
}

/// Whether the sites are the same.
pub fn is_same_site(site: Site, other: Site) -> bool
    ensures { IsTrue result ↔ (site ≡ other) }
{
    match (site, other) {
        (Site::Node(role), Site::Node(same)) => role == same,
        (Site::TypedBy(word), Site::TypedBy(same)) => word == same,
        (Site::OtherType, Site::OtherType) => true,
        (Site::LinkedBy(word), Site::LinkedBy(same)) => word == same,
        (Site::OtherLink, Site::OtherLink) => true,
        _ => false,
    }
}

/// Whether the terms of the triple are what all of the parts want.
fn are_met(reading: &Reading, parts: &[Part], triple: &Triple) -> bool
    requires { IsReading reading.now }
    ensures { IsTrue result ↔ IsMetBy reading.now triple.now parts.now }
{
    'parts: for part in parts {
        if !is_met_at(reading, *part, triple) {
            return false;
        }
    }
    true
}

/// Whether the term of the triple at the part's place is what the part wants.
fn is_met_at(reading: &Reading, part: Part, triple: &Triple) -> bool
    requires { IsReading reading.now }
    ensures { IsTrue result ↔ IsMetIn reading.now triple.now part }
{
    match part.place {
        Place::At(_) => true,
        Place::Subject => is_met(reading, part.want, &triple.subject),
        Place::Predicate => is_met_by_iri(reading.kinds, part.want, &triple.predicate),
        Place::Object => is_met(reading, part.want, &triple.object),
    }
}

/// Whether the term is what is wanted.
fn is_met(reading: &Reading, want: Want, term: &Term) -> bool
    requires { IsReading reading.now }
    ensures { IsTrue result ↔ IsMet reading.now.graph.now reading.now.kinds.now want term.now }
{
    let source = Source {
        graph: reading.graph,
        roles: reading.roles,
        kinds: reading.kinds,
        lists: reading.lists,
    };
    meets(&source, want, term)
}

/// Whether the IRI is what is wanted.
fn is_met_by_iri(kinds: &Kinds, want: Want, iri: &Iri) -> bool
    ensures { (g : List Triple) → IsTrue result ↔ IsMet g kinds.now want (held.Iri iri.now) }
{
    match want {
        Want::One(sort) => names_tree(kinds, sort, iri),
        Want::Many(_, least) => is_nil_iri(iri) && least == 0,
        Want::Whole(_, _, least) => is_nil_iri(iri) && least == 0,
        Want::Keys => false,
        Want::Declared(tag) => is_entity(kinds, tag, iri),
        Want::Mark => true,
        Want::True => false,
    }
}
