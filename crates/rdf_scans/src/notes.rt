//! Reifications of nothing.

ghost use Rattle.std.specs.Prelude.{◌≡◌, IfSome, IsNone, option_map};
ghost use Rattle.rdf_faults.specs.Firsts.{HoldsForNone};
ghost use Rattle.rdf_graph.specs.declared.term.Term.TheVariants as held;
ghost use Rattle.rdf_meaning.specs.declared.role.Role.TheVariants as role;
ghost use Rattle.rdf_meaning.specs.declared.word.Word.TheVariants as word;
ghost use Rattle.rdf_meaning.specs.Nodes.{is_same, marks_role};
ghost use Rattle.rdf_scans.specs.Notes.{FindsNothing, IsOfNothingIn, is_note, is_of_nothing, is_stated, marks_nothing, names, reified_by, reifies_at, reifies_some, states_reified};
ghost use Rattle.rdf_scans.specs.Sorts.{IsReading};
ghost use Rattle.rdf_roles.specs.Refusals.{IsFirstNode};
ghost use Rattle.rdf_roles.specs.Tables.{blank_nodes};

use crate::reading::Reading;
use crate::sorts::{is_annotation, is_main, is_same, sort_of};
use rdf_asked::role_of_term;
use rdf_graph::{Term, Triple};
use rdf_meaning::{Role, Word};
use rdf_rows::carries;
use rdf_terms::{Iri, Label};

/// The first node, by its label, that is a reification of no axiom and no
/// annotation of the graph (Mapping to RDF Graphs, section 2.3). Takes no memory.
pub fn first_of_nothing<'a>(reading: &Reading<'a>) -> Option<&'a Label>
    requires { IsReading reading.now }
    ensures some { IfSome result (λ node.
        IsFirstNode reading.now.graph.now (IsOfNothingIn reading.now) node.now) }
    ensures none { IsNone result →
        HoldsForNone (IsOfNothingIn reading.now) (blank_nodes reading.now.graph.now) }
{
    'triples: for triple in reading.graph.triples() {
        if let Some(node) = node_of_nothing(reading, triple) {
            return Some(node);
        }
    }
    None
}

/// The blank node that the triple makes a reification, where this reifies
/// nothing.
fn node_of_nothing<'a>(reading: &Reading, triple: &'a Triple) -> Option<&'a Label>
    requires { IsReading reading.now }
    ensures { FindsNothing reading.now triple.now (option_map (λ node. node.now) result) }
{
    match &triple.subject {
        Term::Blank(label) => {
            if marks_nothing(reading, triple) {
                Some(label)
            } else {
                None
            }
        }
        Term::Iri(_) | Term::Literal(_) => None,
    }
}

/// Whether the triple makes its subject a reification, which is one of nothing.
fn marks_nothing(reading: &Reading, triple: &Triple) -> bool
    requires { IsReading reading.now }
    ensures { result ≡ marks_nothing reading.now triple.now }
{
    marks_note(triple) && is_of_nothing(reading, &triple.subject)
}

/// Whether the triple makes its subject a reification.
#[tactic(auto, unfolding(rdf_meaning::specs::Nodes::marks_role))]
fn marks_note(triple: &Triple) -> bool
    ensures { result ≡ marks_role role.Note triple.now }
{
    carries(triple, Word::Axiom) || carries(triple, Word::Annotation)
}

/// Whether the node is a reification of nothing.
fn is_of_nothing(reading: &Reading, node: &Term) -> bool
    requires { IsReading reading.now }
    ensures { result ≡ is_of_nothing reading.now node.now }
{
    is_note(role_of_term(reading.roles, node)) && !reifies_some(reading, reading.graph.about(node))
}

fn is_note(role: Role) -> bool
    ensures { result ≡ is_note role }
{
    match role {
        Role::Note => true,
        _ => false,
    }
}

/// Whether the node with these triples reifies an axiom or an annotation.
fn reifies_some(reading: &Reading, note: &[Triple]) -> bool
    requires { IsReading reading.now }
    ensures { result ≡ reifies_some reading.now note.now }
{
    note.iter().any(|triple| {
        carries(triple, Word::AnnotatedSource) && reifies_at(reading, note, &triple.object)
    })
}

/// Whether it reifies one of the axioms and annotations with this subject.
fn reifies_at(reading: &Reading, note: &[Triple], subject: &Term) -> bool
    requires { IsReading reading.now }
    ensures { result ≡ reifies_at reading.now note.now subject.now }
{
    reading
        .graph
        .about(subject)
        .iter()
        .any(|triple| states_reified(reading, note, triple))
}

/// Whether the triple is an axiom or an annotation, and reified by the node.
fn states_reified(reading: &Reading, note: &[Triple], triple: &Triple) -> bool
    requires { IsReading reading.now }
    ensures { result ≡ states_reified reading.now note.now triple.now }
{
    reified_by(note, triple) && is_stated(reading, triple)
}

/// Whether the triple is an axiom or an annotation.
fn is_stated(reading: &Reading, triple: &Triple) -> bool
    requires { IsReading reading.now }
    ensures { result ≡ is_stated reading.now triple.now }
{
    is_annotation(reading, triple) || is_main(sort_of(reading, triple))
}

/// Whether the node with these triples reifies the triple.
fn reified_by(note: &[Triple], triple: &Triple) -> bool
    ensures { result ≡ reified_by note.now triple.now }
{
    names(note, Word::AnnotatedSource, &triple.subject)
        && names_iri(note, &triple.predicate)
        && names(note, Word::AnnotatedTarget, &triple.object)
}

/// Whether the term is an object of one of the triples that carries the word.
fn names(triples: &[Triple], word: Word, term: &Term) -> bool
    ensures { result ≡ names triples.now word term.now }
{
    triples.iter().any(|triple| carries(triple, word) && is_same(term, &triple.object))
}

/// Whether the IRI is the property that one of the triples names.
fn names_iri(triples: &[Triple], iri: &Iri) -> bool
    ensures { result ≡ names triples.now word.AnnotatedProperty (held.Iri iri.now) }
{
    triples.iter().any(|triple| carries(triple, Word::AnnotatedProperty)
        && is_iri(&triple.object, iri))
}

/// Whether the term is the IRI.
fn is_iri(term: &Term, iri: &Iri) -> bool
    ensures { result ≡ is_same (held.Iri iri.now) term.now }
{
    match term {
        Term::Iri(other) => *iri == *other,
        Term::Blank(_) | Term::Literal(_) => false,
    }
}
