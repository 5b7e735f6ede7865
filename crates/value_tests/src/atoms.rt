//! Texts that are IRIs, labels and literals, and copies of these.

use owl_atom::{Iri, IriFault, Label, LabelFault, Literal, LiteralFault};
use std::alloc::Global;
use std::test::Fail;

fn iri_fault(alloc: Global, text: &str) -> Option<IriFault> {
    Iri::of(alloc, text).err()
}

#[test]
fn an_iri_has_a_scheme_and_no_space(rt: HostRuntime) {
    for (text, fault) in [
        ("http://e/a", None),
        ("e/a", Some(IriFault::BadIri)),
        ("http://e/a b", Some(IriFault::BadIri)),
    ] {
        assert_eq!(rt; iri_fault(rt.alloc(), text), fault, "{text}");
    }
}

fn label_fault(alloc: Global, text: &str) -> Option<LabelFault> {
    Label::of(alloc, text).err()
}

#[test]
fn a_label_ends_in_no_dot(rt: HostRuntime) {
    for (text, fault) in [("gen1", None), ("a.", Some(LabelFault::BadLabel))] {
        assert_eq!(rt; label_fault(rt.alloc(), text), fault, "{text}");
    }
}

/// The literal that a form of rdf:PlainLiteral is.
fn plain(alloc: Global, form: &str) -> Result<Literal, LiteralFault> {
    match Iri::of(
        alloc,
        "http://www.w3.org/1999/02/22-rdf-syntax-ns#PlainLiteral",
    ) {
        Ok(datatype) => Literal::of(alloc, form, Some(datatype), None),
        Err(_) => Err(LiteralFault::Memory),
    }
}

/// Whether a form of rdf:PlainLiteral is this lexical form with this tag.
fn is_plain(
    alloc: Global,
    form: &str,
    lexical: &str,
    tag: Option<&str>,
) -> Result<bool, LiteralFault> {
    let literal = plain(alloc, form)?;
    Ok(literal.lexical() == lexical && literal.tag() == tag)
}

#[test]
fn a_plain_literal_has_a_mark(rt: HostRuntime) {
    assert_eq!(rt; is_plain(rt.alloc(), "abc@", "abc", None), Ok(true));
    assert_eq!(rt; is_plain(rt.alloc(), "abc@en", "abc", Some("en")), Ok(true));
    assert_eq!(rt;
        is_plain(rt.alloc(), "abc", "abc", None),
        Err(LiteralFault::BadLiteral)
    );
}

fn iri_is_its_copy(alloc: Global) -> Result<bool, Fail> {
    let iri = Iri::of(alloc, "http://e/a")?;
    Ok(iri.copy(alloc)? == iri)
}

fn label_is_its_copy(alloc: Global) -> Result<bool, Fail> {
    let label = Label::of(alloc, "a")?;
    Ok(label.copy(alloc)? == label)
}

fn literal_is_its_copy(alloc: Global) -> Result<bool, Fail> {
    let literal = plain(alloc, "x@en")?;
    Ok(literal.copy(alloc)? == literal)
}

#[test]
fn copies_are_equal(rt: HostRuntime) -> Result<(), Fail> {
    assert!(rt; iri_is_its_copy(rt.alloc())?);
    assert!(rt; label_is_its_copy(rt.alloc())?);
    assert!(rt; literal_is_its_copy(rt.alloc())?);
    Ok(())
}
