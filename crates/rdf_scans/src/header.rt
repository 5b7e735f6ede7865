//! The header of a graph.

ghost use Rattle.std.specs.Prelude.{◌≡◌, ◌≤◌, ◌∷◌, [], IfErr, IfOk, length, option_map};
ghost use Rattle.rdf_graph.specs.Graphs.{IsGraph};
ghost use Rattle.rdf_meaning.specs.Statements.{headers, only};
ghost use Rattle.rdf_scans.specs.Headers.{FindsHead, FindsIris, iri_in, may_have};
ghost use Rattle.rdf_scans.specs.Outlines.{IsHeadAt, IsOutlineFault};
ghost use Rattle.rdf_rows.specs.Chosen.{objects_with};

use crate::fault::OutlineFault;
use owl_characters::NoMemory;
use owl_doc::Head;
use rdf_graph::{Graph, Term, Triple};
use rdf_meaning::Word;
use rdf_rows::carries;
use rdf_terms::Iri;
use std::alloc::{AllocError, Global};

/// The one node that is an ontology. Takes no memory.
pub fn only_header(triples: &[Triple]) -> Result<&Term, OutlineFault>
    requires { IsGraph triples.now }
    ensures ok { IfOk result (λ header. headers triples.now ≡ header.now ∷ []) }
    ensures fault { IfErr result (IsOutlineFault triples.now) }
{
    let mut found = None;
    'triples: for triple in triples {
        if carries(triple, Word::Ontology) {
            if found.is_some() {
                return Err(OutlineFault::TwoHeaders);
            }
            found = Some(&triple.subject);
        }
    }
    found.ok_or(OutlineFault::NoHeader)
}

/// The head that the header gives.
pub fn head_of(alloc: Global, graph: &Graph, header: &Term) -> Result<Head, OutlineFault>
    requires graph { IsGraph graph.now }
    requires header { headers graph.now ≡ header.now ∷ [] }
    ensures ok { IfOk result (IsHeadAt graph.now header.now) }
    ensures fault { IfErr result (IsOutlineFault graph.now) }
{
    match head_at(alloc, graph, header)? {
        Some(head) => Ok(head),
        None => Err(OutlineFault::BadHeader {
            node: header.copy(alloc)?,
        }),
    }
}

/// The head that the node gives by its triples, none where it gives none.
fn head_at(alloc: Global, graph: &Graph, node: &Term) -> Result<Option<Head>, NoMemory>
    requires { IsGraph graph.now }
    ensures { IfOk result (FindsHead graph.now node.now) }
{
    let triples = graph.about(node);
    let Some(imports) = iris_at(alloc, triples, Word::Imports)? else {
        return Ok(None);
    };
    let Some(versions) = iris_at(alloc, triples, Word::VersionIri)? else {
        return Ok(None);
    };
    if !may_have(node, versions.len()) {
        return Ok(None);
    }
    Ok(Some(Head {
        iri: iri_of(alloc, node)?,
        version: only(versions),
        imports,
    }))
}

/// Whether the node may have so many versions: one at most where it is an IRI, and
/// none where it is blank.
fn may_have(node: &Term, versions: usize) -> bool
    ensures { result ≡ may_have node.now versions }
{
    match node {
        Term::Iri(_) => versions <= 1,
        Term::Blank(_) => versions == 0,
        Term::Literal(_) => false,
    }
}

/// The one IRI, where there is one.
fn only(mut iris: Vec<Iri>) -> Option<Iri>
    requires { length iris.items ≤ 1 }
    ensures { only iris.items result }
{
    iris.pop()
}

/// A copy of the IRI that the term is.
fn iri_of(alloc: Global, term: &Term) -> Result<Option<Iri>, NoMemory>
    ensures { IfOk result (λ iri. iri ≡ iri_in term.now) }
{
    match iri_in(term) {
        Some(iri) => Ok(Some(iri.copy(alloc)?)),
        None => Ok(None),
    }
}

/// The IRIs that are the objects of the triples that carry the word, none where
/// some object is no IRI.
fn iris_at(alloc: Global, triples: &[Triple], word: Word) -> Result<Option<Vec<Iri>>, NoMemory>
    ensures { IfOk result (λ found.
        FindsIris (objects_with word triples.now) (option_map (λ iris. iris.items) found)) }
{
    let mut iris = Vec::new(alloc);
    'triples: for triple in triples {
        if carries(triple, word) {
            match iri_in(&triple.object) {
                Some(iri) => iris.push(iri.copy(alloc)?).map_err(AllocError::from)?,
                None => return Ok(None),
            }
        }
    }
    Ok(Some(iris))
}

/// The IRI that the term is.
fn iri_in(term: &Term) -> Option<&Iri>
    ensures { option_map (λ iri. iri.now) result ≡ iri_in term.now }
{
    match term {
        Term::Iri(iri) => Some(iri),
        Term::Blank(_) | Term::Literal(_) => None,
    }
}
