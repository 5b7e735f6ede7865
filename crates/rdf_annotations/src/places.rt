//! The triple that a reification reifies.

ghost use Rattle.std.specs.Prelude.{◌≡◌, ◌↔◌, ◌<◌, IfOk, IsTrue, length};
ghost use Rattle.rdf_annotations.specs.Noters.{AnnotatesAt, IsPlaceNoted, IsPlaceOf, IsPlaceReified, has_annotation};
ghost use Rattle.rdf_graph.specs.declared.term.Term.TheVariants.{Blank};
ghost use Rattle.rdf_graph.specs.Terms.{triple_cmp};
ghost use Rattle.rdf_meaning.specs.declared.role.Role.TheVariants as held;
ghost use Rattle.rdf_meaning.specs.Nodes.{of_subject};
ghost use Rattle.rdf_rows.specs.Chosen.{IsReificationOf};
ghost use Rattle.rdf_scans.specs.Sorts.{IsReading};

use owl_characters::NoMemory;
use rdf_graph::{Graph, Term, Triple};
use rdf_meaning::{Role, Word};
use rdf_rows::{is_own, only_object};
use rdf_scans::Reading;
use rdf_terms::{Iri, Label};
use std::alloc::Global;
use std::cmp::Ordering;

/// The place of the triple that the node with this number annotates: a
/// reification of it, with annotations. None where it is no such node, or the
/// graph has no such triple.
pub fn annotated_place(
    alloc: Global,
    reading: &Reading,
    number: usize,
) -> Result<Option<usize>, NoMemory>
    requires reading { IsReading reading.now }
    requires number { number < length reading.now.roles.now.nodes }
    ensures { IfOk result (AnnotatesAt reading.now.graph.now number) }
{
    let Some(label) = reading.roles.node(number) else {
        unreachable!();
    };
    if !is_note(reading.roles.role(label)) {
        return Ok(None);
    }
    let note = about(alloc, reading.graph, label)?;
    Ok(noted_place(reading.graph, note))
}

/// Whether the role is that of a reification.
pub(crate) fn is_note(role: Role) -> bool
    ensures { IsTrue result ↔ (role ≡ held.Note) }
{
    role == Role::Note
}

/// The triples of the node.
fn about<'a>(alloc: Global, graph: &'a Graph, label: &Label) -> Result<&'a [Triple], NoMemory>
    ensures { IfOk result (λ triples. triples.now ≡ of_subject graph.now (Blank label.now)) }
{
    let node = Term::Blank(label.copy(alloc)?);
    Ok(graph.about(&node))
}

/// The place of the triple that the reification with these triples reifies, where
/// it has annotations.
fn noted_place(graph: &Graph, note: &[Triple]) -> Option<usize>
    requires { IsReificationOf note.now }
    ensures { IsPlaceNoted graph.now note.now result }
{
    if has_annotation(note) {
        reified_place(graph, note)
    } else {
        None
    }
}

/// Whether some of the triples of a reification is an annotation.
fn has_annotation(note: &[Triple]) -> bool
    ensures { result ≡ has_annotation note.now }
{
    note.iter().any(|triple| !is_own(Role::Note, triple))
}

/// The place of the triple that the reification with these triples reifies.
fn reified_place(graph: &Graph, note: &[Triple]) -> Option<usize>
    requires { IsReificationOf note.now }
    ensures { IsPlaceReified graph.now note.now result }
{
    let source = only_object(note, Word::AnnotatedSource)?;
    let target = only_object(note, Word::AnnotatedTarget)?;
    match only_object(note, Word::AnnotatedProperty)? {
        Term::Iri(property) => place_of(graph, source, property, target),
        Term::Blank(_) | Term::Literal(_) => None,
    }
}

/// The place of the triple with this subject, predicate and object.
fn place_of(graph: &Graph, subject: &Term, predicate: &Iri, object: &Term) -> Option<usize>
    ensures { IsPlaceOf graph.now
        (record { subject = subject.now; predicate = predicate.now; object = object.now }) result }
{
    graph
        .triples()
        .binary_search_by(|triple| compare(triple, subject, predicate, object))
        .ok()
}

/// How the triple compares to that with this subject, predicate and object.
fn compare(triple: &Triple, subject: &Term, predicate: &Iri, object: &Term) -> Ordering
    ensures { result ≡ triple_cmp triple.now
        (record { subject = subject.now; predicate = predicate.now; object = object.now }) }
{
    let behind = triple
        .predicate
        .cmp(predicate)
        .then(triple.object.cmp(object));
    triple.subject.cmp(subject).then(behind)
}
