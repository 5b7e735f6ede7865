//! The faults of single leaves.

ghost use Rattle.std.specs.Prelude.{◌≡◌, ◌↔◌, true, IsTrue};
ghost use Rattle.dl_local.specs.Faults.{AreOwnFaults};
ghost use Rattle.dl_rules.specs.Local.{HasMisusedDatatype, HasWrongForm, IsMisnamed, IsTopData, IsUndeclared, guarded_kind, top_data_property};
ghost use Rattle.owl_breaches.specs.Sites.{Ontologies, axiom_closure};
ghost use Rattle.owl_characters.specs.Order.{text_eq};
ghost use Rattle.owl_tree.specs.declared.tag.Tag.{Tag};
ghost use Rattle.owl_tree.specs.Trees.{leaf};

use crate::faults::LocalFaults;
use owl_doc::{declared_kind, entity_of, is_misused, kind_of};
use owl_kind::{Kind, Kinds};
use owl_tree::{Atom, Tag};
use rdf_terms::{Iri, lexical_ok, owl};

/// The faults of a leaf, of which it is known whether it has a datatype that may not
/// be used.
pub fn leaf_faults(tag: Tag, atom: &Atom, kinds: &Kinds, misused: bool) -> LocalFaults
    ensures { (c : Ontologies) → c.kinds ≡ kinds.now
        → (misused ≡ true) ↔ HasMisusedDatatype (axiom_closure c) (leaf tag atom.now)
        → AreOwnFaults c (leaf tag atom.now) result }
{
    LocalFaults {
        undeclared: is_undeclared(tag, atom, kinds),
        misnamed: is_misnamed(tag, atom),
        datatype: misused,
        form: has_wrong_form(atom),
        range: false,
        top_data: is_top_data(tag, atom),
        not_simple: false,
        anonymous: false,
    }
}

/// Whether the leaf names a class, a datatype or a property that is neither declared
/// nor built in (Structural Specification, section 5.8.1).
fn is_undeclared(tag: Tag, atom: &Atom, kinds: &Kinds) -> bool
    ensures { IsTrue result ↔ IsUndeclared kinds.now (leaf tag atom.now) }
{
    match entity_of(kind_of(tag), atom) {
        Some((kind, iri)) => !kinds.has(kind, iri),
        None => false,
    }
}

/// Whether the leaf names a class, a property or an individual by an IRI that is
/// reserved for something else (Structural Specification, section 2.4).
fn is_misnamed(tag: Tag, atom: &Atom) -> bool
    ensures { IsTrue result ↔ IsMisnamed (leaf tag atom.now) }
{
    match entity_of(guarded_kind(tag), atom) {
        Some((kind, iri)) => is_misused(kind, iri),
        None => false,
    }
}

/// As what a leaf with this tag names an IRI that may not be reserved.
#[tactic(auto, unfolding(dl_rules::specs::Local::guarded_kind), using(crate::proofs::OwnLaws::guarded_other))]
fn guarded_kind(tag: Tag) -> Option<Kind>
    ensures { result ≡ guarded_kind tag }
{
    match tag {
        Tag::Datatype => None,
        other => declared_kind(other),
    }
}

/// Whether a leaf holds a literal whose datatype doesn't have its lexical form.
fn has_wrong_form(atom: &Atom) -> bool
    ensures { (tag : Tag) → IsTrue result ↔ HasWrongForm (leaf tag atom.now) }
{
    match atom {
        Atom::Literal(literal) => !lexical_ok(literal),
        Atom::Iri(_) | Atom::Label(_) | Atom::Number(_) => false,
    }
}

/// Whether the leaf is the top data property.
fn is_top_data(tag: Tag, atom: &Atom) -> bool
    ensures { IsTrue result ↔ IsTopData (leaf tag atom.now) }
{
    match atom {
        Atom::Iri(iri) => tag == Tag::DataProperty && is_top_data_property(iri),
        Atom::Label(_) | Atom::Literal(_) | Atom::Number(_) => false,
    }
}

/// Whether the IRI is `owl:topDataProperty`.
fn is_top_data_property(iri: &Iri) -> bool
    ensures { result ≡ text_eq iri.now top_data_property }
{
    iri.is(owl!("topDataProperty"))
}
