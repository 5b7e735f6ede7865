//! The datatypes that are built in.

use owl_atom::{Iri, Literal, facet_ok, in_map, lexical_ok};
use std::test::Fail;

const RDF: &str = "http://www.w3.org/1999/02/22-rdf-syntax-ns#";

const RDFS: &str = "http://www.w3.org/2000/01/rdf-schema#";

const XSD: &str = "http://www.w3.org/2001/XMLSchema#";

const OWL: &str = "http://www.w3.org/2002/07/owl#";

/// The IRI of a name in a namespace.
fn iri(rt: &HostRuntime, namespace: &str, name: &str) -> Result<Iri, Fail> {
    Ok(Iri::of(rt.alloc(), &format!(in rt.alloc(); "{namespace}{name}")?)?)
}

/// Whether the form is one of a datatype of XML Schema.
fn is_form_of(rt: &HostRuntime, name: &str, form: &str) -> Result<bool, Fail> {
    let datatype = iri(rt, XSD, name)?;
    let literal = Literal::of(rt.alloc(), form, Some(datatype), None)?;
    Ok(lexical_ok(&literal))
}

fn is_in_map(rt: &HostRuntime, namespace: &str, name: &str) -> Result<bool, Fail> {
    let datatype = iri(rt, namespace, name)?;
    Ok(in_map(&datatype))
}

/// Whether a datatype has a facet, each by its namespace and name.
fn has_facet(rt: &HostRuntime, datatype: (&str, &str), facet: (&str, &str)) -> Result<bool, Fail> {
    let datatype = iri(rt, datatype.0, datatype.1)?;
    let facet = iri(rt, facet.0, facet.1)?;
    Ok(facet_ok(&datatype, &facet))
}

#[test]
fn forms_of_datatypes(rt: HostRuntime) -> Result<(), Fail> {
    for (name, forms, fit) in [
        ("unsignedByte", "255", true),
        ("unsignedByte", "256", false),
        ("byte", "+007 -128", true),
        ("byte", "128 -129", false),
        ("nonNegativeInteger", "-0 18446744073709551616", true),
        (
            "nonNegativeInteger",
            "-1 -340282366920938463463374607431768211456",
            false,
        ),
        (
            "nonPositiveInteger",
            "340282366920938463463374607431768211456",
            false,
        ),
        ("positiveInteger", "0", false),
        ("negativeInteger", "-1", true),
        ("negativeInteger", "0", false),
        ("long", "9223372036854775807 -9223372036854775808", true),
        ("long", "9223372036854775808", false),
        ("unsignedLong", "18446744073709551615", true),
        ("unsignedLong", "18446744073709551616", false),
        ("integer", "-340282366920938463463374607431768211456", true),
        ("integer", " + 1.0 ++5", false),
        ("boolean", "true 1", true),
        ("boolean", "TRUE", false),
        ("decimal", "1. .5 -1.5 +0", true),
        ("decimal", " . 1e5 1.2.3", false),
        ("string", " any\ntext", true),
        ("elsewhere", "+", true),
    ] {
        for form in forms.split(' ') {
            assert_eq!(rt; is_form_of(&rt, name, form)?, fit, "{name} {form}");
        }
    }
    Ok(())
}

#[test]
fn datatypes_of_the_map(rt: HostRuntime) -> Result<(), Fail> {
    for (namespace, names, mapped) in [
        (OWL, "real rational", true),
        (
            XSD,
            "decimal integer nonNegativeInteger nonPositiveInteger positiveInteger",
            true,
        ),
        (
            XSD,
            "negativeInteger long int short byte unsignedLong unsignedInt",
            true,
        ),
        (
            XSD,
            "unsignedShort unsignedByte double float dateTime dateTimeStamp",
            true,
        ),
        (
            XSD,
            "string normalizedString token language Name NCName NMTOKEN anyURI",
            true,
        ),
        (XSD, "hexBinary base64Binary boolean", true),
        (RDF, "PlainLiteral XMLLiteral", true),
        (RDFS, "Literal", false),
        ("http://e/", "x", false),
        (XSD, "duration", false),
    ] {
        for name in names.split(' ') {
            assert_eq!(rt; is_in_map(&rt, namespace, name)?, mapped, "{name}");
        }
    }
    Ok(())
}

#[test]
fn facets_of_datatypes(rt: HostRuntime) -> Result<(), Fail> {
    for (datatype, facet, allowed) in [
        ((XSD, "decimal"), (XSD, "minInclusive"), true),
        ((XSD, "decimal"), (XSD, "length"), false),
        ((XSD, "string"), (XSD, "pattern"), true),
        ((XSD, "string"), (RDF, "langRange"), false),
        ((RDF, "PlainLiteral"), (RDF, "langRange"), true),
        ((XSD, "hexBinary"), (XSD, "length"), true),
        ((XSD, "hexBinary"), (XSD, "pattern"), false),
        ((XSD, "boolean"), (XSD, "pattern"), false),
        ((XSD, "boolean"), (XSD, "minInclusive"), false),
    ] {
        assert_eq!(rt;
            has_facet(&rt, datatype, facet)?,
            allowed,
            "{} {}",
            datatype.1,
            facet.1
        );
    }
    Ok(())
}
