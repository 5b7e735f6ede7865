//! The roles of blank nodes, by their triples.

ghost use Rattle.std.specs.Prelude.{◌≡◌, ◌↔◌, Some, None, length, nat_le, true};
ghost use Rattle.std.specs.List.{list_any};
ghost use Rattle.rdf_meaning.specs.Nodes.{first_role, is_facet, is_own, is_word, marks_role, words_of};
ghost use Rattle.rdf_rows.specs.Roles.{role_marked, role_rank, roles_in, told_role, with_mark};

use crate::carried::carried_word;
use crate::iris::is_facet;
use rdf_graph::Triple;
use rdf_meaning::{Role, Word, words_of};
use rdf_terms::Iri;

/// How many roles come before that of an individual.
const ROLES: u8 = 8;

/// What the marks among the triples of a blank node make it.
#[derive(Clone, Copy, Debug)]
pub struct Marked {
    /// Its role: of several, the first in the order of roles.
    pub role: Role,
    /// Whether there are marks of several roles.
    pub mixed: bool,
}

/// The role of which the triple is a mark (Mapping to RDF Graphs, section 3).
/// Takes no memory.
pub fn marked_role(triple: &Triple) -> Option<Role>
    ensures { (r : Role) → (marks_role r triple.now ≡ true) ↔ (result ≡ Some r) }
{
    match carried_word(triple) {
        Some(word) => role_marked(word),
        None => role_of_facet(&triple.predicate),
    }
}

/// The role of which the triples that carry the word are marks.
#[tactic(auto, unfolding(crate::specs::Roles::role_marked, rdf_meaning::specs::Words::word_number))]
fn role_marked(word: Word) -> Option<Role>
    ensures { result ≡ role_marked word }
{
    match word {
        Word::First | Word::Rest => Some(Role::List),
        Word::InverseOf => Some(Role::Property),
        Word::Class | Word::Restriction => Some(Role::Class),
        Word::Datatype => Some(Role::Range),
        Word::AllDisjointClasses
        | Word::AllDisjointProperties
        | Word::AllDifferent
        | Word::NegativePropertyAssertion => Some(Role::Main),
        Word::Axiom | Word::Annotation => Some(Role::Note),
        Word::Ontology => Some(Role::Header),
        _ => None,
    }
}

/// The role of a node with such a predicate, which is no word's.
fn role_of_facet(predicate: &Iri) -> Option<Role>
    ensures { result ≡ told_role None (is_facet predicate.now) }
{
    if is_facet(predicate) {
        Some(Role::Facet)
    } else {
        None
    }
}

impl Marked {
    /// What the triples of a blank node make it. Takes no memory.
    pub fn of(triples: &[Triple]) -> Marked
        ensures role { result.role ≡ first_role (roles_in triples.now) }
        ensures mixed { result.mixed ≡ nat_le 2 (length (roles_in triples.now)) }
    {
        let mut marked = Marked {
            role: Role::Individual,
            mixed: false,
        };
        for triple in triples {
            if let Some(role) = marked_role(triple) {
                marked = marked.with(role);
            }
        }
        marked
    }

    /// What a node becomes by one more mark.
    fn with(self, role: Role) -> Marked
        ensures { result ≡ with_mark self role }
    {
        let before = rank(self.role);
        let rank = rank(role);
        Marked {
            role: if rank < before { role } else { self.role },
            mixed: self.mixed || (before < ROLES && before != rank),
        }
    }
}

/// The place of the role in the order of roles, in which individuals come last.
#[tactic(auto, unfolding(crate::specs::Roles::role_rank))]
fn rank(role: Role) -> u8
    ensures { result ≡ role_rank role }
{
    role as u8
}

/// Whether the triple makes its subject, a node of the role, what it is (Mapping
/// to RDF Graphs, section 3). Takes no memory.
#[tactic(auto, unfolding(rdf_meaning::specs::Nodes::words_of))]
pub fn is_own(role: Role, triple: &Triple) -> bool
    ensures { result ≡ is_own role triple.now }
{
    match role {
        Role::Facet => is_facet(&triple.predicate),
        Role::Header | Role::Individual => false,
        _ => match carried_word(triple) {
            Some(word) => is_own_word(role, word),
            None => false,
        },
    }
}

/// Whether the word is one of the role's own triples.
fn is_own_word(role: Role, word: Word) -> bool
    ensures { result ≡ list_any (λ own. is_word own word) (words_of role) }
{
    words_of(role).contains(&word)
}
