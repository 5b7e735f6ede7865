//! What names and other atoms mean.

ghost use Rattle.std.specs.Prelude.{◌≡◌, ◌⊎◌, IfErr, IfOk, Ok, find};
ghost use Rattle.man_resolve.specs.Building.{IsFaultOf, leaf_seen};
ghost use Rattle.man_resolve.specs.Expressions.{is_typed, knows, may_be, meant_atom, misnamed};

use crate::fault::ResolveFault;
use crate::place::Place;
use crate::step::Leaf;
use owl_characters::NoMemory;
use owl_doc::{entity_of, kind_of};
use owl_kind::{Kind, Kinds};
use owl_tree::{Atom, Tag};
use rdf_terms::Iri;

/// The leaf that the atom is at the place (Manchester Syntax, section 2.1).
///
/// `WrongForm` where it may be none, `WrongKind` and `Untyped` where it is a name
/// without a kind that it needs there.
#[tactic(auto, unfolding(crate::specs::Expressions::meant_atom))]
pub fn leaf_of<'a>(
    kinds: &Kinds,
    place: Place,
    at: u64,
    atom: &'a Atom,
) -> Result<Leaf<'a>, ResolveFault>
    ensures leaf { IfOk result (λ leaf.
        meant_atom (knows kinds.now) at atom.now place ≡ Ok (leaf_seen leaf)) }
    ensures fault { IfErr result (
        IsFaultOf (meant_atom (knows kinds.now) at atom.now place)) }
{
    let tags = place.tags(atom);
    if tags.is_empty() {
        return Err(ResolveFault::WrongForm { at });
    }
    match first_of(kinds, tags, atom) {
        Some(tag) => Ok(Leaf { tag, atom }),
        None => Err(misnamed(kinds, at, atom)),
    }
}

/// The first of the tags as which the atom may be a leaf.
fn first_of(kinds: &Kinds, tags: &[Tag], atom: &Atom) -> Option<Tag>
    ensures { result ≡ find (may_be (knows kinds.now) atom.now) tags.now }
{
    tags.iter().copied().find(|tag| may_be(kinds, atom, *tag))
}

/// Whether the atom has the kind that the tag asks for, if it asks for one.
fn may_be(kinds: &Kinds, atom: &Atom, tag: Tag) -> bool
    ensures { result ≡ may_be (knows kinds.now) atom.now tag }
{
    match entity_of(kind_of(tag), atom) {
        Some((kind, iri)) => has_kind(kinds, kind, iri),
        None => true,
    }
}

/// Whether the IRI is declared as this kind, or built in.
pub fn has_kind(kinds: &Kinds, kind: Kind, iri: &Iri) -> bool
    ensures { result ≡ knows kinds.now kind iri.now }
{
    kinds.has(kind, iri)
}

/// Whether the IRI has a kind other than that of individuals.
fn is_typed(kinds: &Kinds, iri: &Iri) -> bool
    ensures { result ≡ is_typed (knows kinds.now) iri.now }
{
    let typed = [
        Kind::Class,
        Kind::Datatype,
        Kind::ObjectProperty,
        Kind::DataProperty,
        Kind::AnnotationProperty,
    ];
    typed.iter().any(|kind| has_kind(kinds, *kind, iri))
}

/// Why the atom has no kind that it needs.
fn misnamed(kinds: &Kinds, at: u64, atom: &Atom) -> ResolveFault
    ensures { (result ≡ ResolveFault.Memory)
        ⊎ (result ≡ misnamed (knows kinds.now) at atom.now) }
{
    let Atom::Iri(iri) = atom else {
        return ResolveFault::WrongForm { at };
    };
    match iri.copy(kinds.allocator()) {
        Ok(copy) if is_typed(kinds, iri) => ResolveFault::WrongKind { iri: copy, at },
        Ok(copy) => ResolveFault::Untyped { iri: copy, at },
        Err(NoMemory) => ResolveFault::Memory,
    }
}
