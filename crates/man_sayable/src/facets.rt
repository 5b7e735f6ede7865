//! Facets by their IRIs.

ghost use Rattle.std.specs.Prelude.{◌≡◌};
ghost use Rattle.owl_characters.specs.Order.{text_eq};
ghost use Rattle.man_resolve.specs.Places.{facet_iri};
ghost use Rattle.man_sayable.specs.Facets.{facet_named};

use man_raw::Facet;
use man_resolve::facet_name;
use rdf_terms::Iri;

/// The facets that have a word or sign (Manchester Syntax, section 2.3).
const FACETS: [Facet; 9] = [
    Facet::AtMost,
    Facet::LessThan,
    Facet::AtLeast,
    Facet::MoreThan,
    Facet::Length,
    Facet::MinLength,
    Facet::MaxLength,
    Facet::Pattern,
    Facet::LangRange,
];

/// The facet with this IRI, where it has a word or sign.
pub fn facet_named(iri: &Iri) -> Option<Facet>
    ensures { result ≡ facet_named iri.now }
{
    FACETS.iter().copied().find(|facet| has_iri(*facet, iri))
}

/// Whether this is the facet's IRI.
fn has_iri(facet: Facet, iri: &Iri) -> bool
    ensures { result ≡ text_eq (facet_iri facet) iri.now }
{
    facet_name(facet) == iri.text()
}
