//! As what frames declare names.

ghost use Rattle.std.specs.Prelude.{◌≡◌};
ghost use Rattle.man_resolve.specs.Expressions.{knows};
ghost use Rattle.man_sayable.specs.FrameKinds.{frame_kind, frame_kinds};

use man_resolve::has_kind;
use owl_kind::{Kind, Kinds};
use rdf_terms::Iri;

/// As what frames declare names (Manchester Syntax, section 2.5).
const FRAME_KINDS: [Kind; 6] = [
    Kind::Class,
    Kind::Datatype,
    Kind::ObjectProperty,
    Kind::DataProperty,
    Kind::AnnotationProperty,
    Kind::Individual,
];

/// The first of the kinds of frames that the IRI has.
pub fn frame_kind(kinds: &Kinds, iri: &Iri) -> Option<Kind>
    ensures { result ≡ frame_kind (knows kinds.now) iri.now }
{
    FRAME_KINDS
        .iter()
        .copied()
        .find(|kind| has_kind(kinds, *kind, iri))
}
