//! The datatype map and the reserved vocabulary.

ghost use Rattle.std.specs.Prelude.{◌≡◌};
ghost use Rattle.rdf_terms.specs.Datatypes.{is_in_map, allows_facet};
ghost use Rattle.rdf_terms.specs.Tables.{begins_with_name, has_datatype, has_facet, is_name};
ghost use Rattle.rdf_terms.specs.Vocabulary.{is_reserved};

use crate::iri::Iri;
use crate::vocabulary::NAMESPACES;
use crate::{owl, rdf, xsd};

/// Datatypes, and the facets that each of them has.
struct DatatypeRow {
    datatypes: &'static [&'static str],
    facets: &'static [&'static str],
}

/// The numbers and the times (sections 4.1, 4.2 and 4.7).
const ORDERED: DatatypeRow = DatatypeRow {
    datatypes: &[
        owl!("real"),
        owl!("rational"),
        xsd!("decimal"),
        xsd!("integer"),
        xsd!("nonNegativeInteger"),
        xsd!("nonPositiveInteger"),
        xsd!("positiveInteger"),
        xsd!("negativeInteger"),
        xsd!("long"),
        xsd!("int"),
        xsd!("short"),
        xsd!("byte"),
        xsd!("unsignedLong"),
        xsd!("unsignedInt"),
        xsd!("unsignedShort"),
        xsd!("unsignedByte"),
        xsd!("double"),
        xsd!("float"),
        xsd!("dateTime"),
        xsd!("dateTimeStamp"),
    ],
    facets: &[
        xsd!("minInclusive"),
        xsd!("maxInclusive"),
        xsd!("minExclusive"),
        xsd!("maxExclusive"),
    ],
};

/// The texts without a language and the IRIs (sections 4.3 and 4.6).
const TEXTS: DatatypeRow = DatatypeRow {
    datatypes: &[
        xsd!("string"),
        xsd!("normalizedString"),
        xsd!("token"),
        xsd!("language"),
        xsd!("Name"),
        xsd!("NCName"),
        xsd!("NMTOKEN"),
        xsd!("anyURI"),
    ],
    facets: &[
        xsd!("length"),
        xsd!("minLength"),
        xsd!("maxLength"),
        xsd!("pattern"),
    ],
};

/// The texts that may have a language (section 4.3).
const PLAIN: DatatypeRow = DatatypeRow {
    datatypes: &[rdf!("PlainLiteral")],
    facets: &[
        rdf!("langRange"),
        xsd!("length"),
        xsd!("minLength"),
        xsd!("maxLength"),
        xsd!("pattern"),
    ],
};

/// The sequences of bytes (section 4.5).
const BINARY: DatatypeRow = DatatypeRow {
    datatypes: &[xsd!("hexBinary"), xsd!("base64Binary")],
    facets: &[xsd!("length"), xsd!("minLength"), xsd!("maxLength")],
};

/// The datatypes without facets (sections 4.4 and 4.8).
const BARE: DatatypeRow = DatatypeRow {
    datatypes: &[xsd!("boolean"), rdf!("XMLLiteral")],
    facets: &[],
};

const DATATYPE_MAP: [DatatypeRow; 5] = [ORDERED, TEXTS, PLAIN, BINARY, BARE];

/// Whether the datatype is in the datatype map (Structural Specification,
/// section 4). Takes no memory.
pub fn in_map(datatype: &Iri) -> bool
    ensures { result ≡ is_in_map datatype.now }
{
    is_in_rows(&DATATYPE_MAP, datatype.text())
}

/// Whether the datatype is in the datatype map and has the facet (Structural
/// Specification, section 4). Takes no memory.
pub fn facet_ok(datatype: &Iri, facet: &Iri) -> bool
    ensures { result ≡ allows_facet datatype.now facet.now }
{
    is_facet_in_rows(&DATATYPE_MAP, datatype.text(), facet.text())
}

/// Whether the IRI begins with the IRI of RDF, RDF Schema, XML Schema or OWL
/// (Structural Specification, section 2.4). Takes no memory.
pub fn reserved(iri: &Iri) -> bool
    ensures { result ≡ is_reserved iri.now }
{
    begins_with_one_of(&NAMESPACES, iri.text())
}

/// Whether a row has the datatype.
#[tactic(auto, unfolding(crate::specs::Tables::has_datatype))]
fn is_in_rows(rows: &[DatatypeRow], datatype: &str) -> bool
    ensures { result ≡ has_datatype rows.now datatype.now }
{
    rows.iter().any(|row| is_one_of(row.datatypes, datatype))
}

/// Whether a row has the datatype and the facet.
#[tactic(auto, unfolding(crate::specs::Tables::has_facet))]
fn is_facet_in_rows(rows: &[DatatypeRow], datatype: &str, facet: &str) -> bool
    ensures { result ≡ has_facet rows.now datatype.now facet.now }
{
    rows.iter().any(|row| is_one_of(row.datatypes, datatype) && is_one_of(row.facets, facet))
}

/// Whether the text is one of the names.
#[tactic(auto, unfolding(crate::specs::Tables::is_name))]
pub fn is_one_of(names: &[&str], text: &str) -> bool
    ensures { result ≡ is_name names.now text.now }
{
    names.iter().any(|name| *name == text)
}

/// Whether the text begins with one of the names.
#[tactic(auto, unfolding(crate::specs::Tables::begins_with_name))]
fn begins_with_one_of(names: &[&str], text: &str) -> bool
    ensures { result ≡ begins_with_name names.now text.now }
{
    names.iter().any(|name| text.starts_with(*name))
}
