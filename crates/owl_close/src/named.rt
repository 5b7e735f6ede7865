//! Documents by their names.

ghost use Rattle.std.specs.Prelude.{◌↔◌, IfNone, IfSome, IsTrue};
ghost use Rattle.owl_close.specs.Imports.{IsNamedBy, Names, NamesNone, heads_of};
ghost use Rattle.owl_doc.specs.Heads.{head_of};

use owl_atom::Iri;
use owl_doc::Head;

/// The place of the first document that has this name, where there is one. Takes
/// no memory.
pub fn place_named(heads: &[Head], iri: &Iri) -> Option<usize>
    ensures some { IfSome result (Names (heads_of heads.now) iri.now) }
    ensures none { IfNone result (NamesNone (heads_of heads.now) iri.now) }
{
    'places: for place in 0..heads.len() {
        if is_named(&heads[place], iri) {
            return Some(place);
        }
    }
    None
}

/// Whether the IRI is the ontology IRI or the version IRI (Structural
/// Specification, section 3.1).
fn is_named(head: &Head, iri: &Iri) -> bool
    ensures { IsTrue result ↔ IsNamedBy (head_of head.now) iri.now }
{
    // A version stands only beside an ontology IRI.
    match (&head.iri, &head.version) {
        (Some(own), Some(version)) => own == iri || version == iri,
        (Some(own), None) => own == iri,
        (None, _) => false,
    }
}
