//! The IRIs of facets.

ghost use Rattle.std.specs.Prelude.{◌≡◌, IfOk, true};
ghost use Rattle.rdf_terms.specs.Tables.{is_ascii_iri};
ghost use Rattle.man_resolve.specs.Places.{facet_iri};

use man_raw::Facet;
use owl_characters::NoMemory;
use rdf_terms::{Iri, rdf, xsd};
use std::alloc::Global;

/// The IRI of the facet (Manchester Syntax, section 2.3, and Structural
/// Specification, section 4).
pub fn facet_iri(alloc: Global, facet: Facet) -> Result<Iri, NoMemory>
    ensures { IfOk result (λ iri. iri ≡ facet_iri facet) }
{
    Iri::of_ascii(alloc, facet_name(facet))
}

/// The characters of that IRI, which are ASCII.
#[tactic(auto, unfolding(crate::specs::Places::facet_iri))]
pub fn facet_name(facet: Facet) -> &'static str
    ensures name { result.now ≡ facet_iri facet }
    ensures ascii { is_ascii_iri result.now ≡ true }
{
    match facet {
        Facet::AtMost => xsd!("maxInclusive"),
        Facet::LessThan => xsd!("maxExclusive"),
        Facet::AtLeast => xsd!("minInclusive"),
        Facet::MoreThan => xsd!("minExclusive"),
        Facet::Length => xsd!("length"),
        Facet::MinLength => xsd!("minLength"),
        Facet::MaxLength => xsd!("maxLength"),
        Facet::Pattern => xsd!("pattern"),
        Facet::LangRange => rdf!("langRange"),
    }
}
