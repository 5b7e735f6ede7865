//! What is read of bytes: what leaves hold.

ghost use Rattle.std.specs.Prelude.{◌≡◌, ◌++◌, ℕ, List, IfOk, IfSome, Option, codes, true};
ghost use Rattle.std.specs.Option.{option_map};
ghost use Rattle.std.specs.Str.{chars};
ghost use Rattle.owl_canon.specs.Bytes.{atom_bytes, optional_bytes, text_bytes};
ghost use Rattle.owl_canon.specs.Inputs.{Finds};
ghost use Rattle.owl_canon.specs.Limits.{HasTexts, IsText};
ghost use Rattle.owl_characters.specs.Iri.{IsIri};
ghost use Rattle.owl_characters.specs.Names.{IsLabel};
ghost use Rattle.owl_tree.specs.Atoms.{IsAtom};
ghost use Rattle.owl_tree.specs.Rows.{is_of_sort};
ghost use Rattle.owl_tree.specs.declared.atom.Atom.{Atom};
ghost use Rattle.rdf_terms.specs.Literals.{DenotesTyped, IsLiteral, LiteralParts};

use crate::fault::CanonFault;
use crate::input::Input;
use owl_atom::{Iri, IriFault, Label, LabelFault, Literal, LiteralFault};
use owl_characters::{NoMemory, Text};
use owl_tree::{Atom, AtomSort};
use std::alloc::Global;

/// An IRI.
pub fn read_iri(alloc: Global, input: &mut Input) -> Result<Iri, CanonFault>
    ensures { (iri more : List ℕ) → IsIri iri → IsText iri →
        input.old.rest.now ≡ text_bytes iri ++ more →
        Finds result (λ found. (found ≡ iri) × (input.new.rest.now ≡ more)) }
{
    let text = input.text()?;
    iri_of(alloc, text)
}

/// An IRI, or none.
pub fn read_optional_iri(alloc: Global, input: &mut Input) -> Result<Option<Iri>, CanonFault>
    ensures { (iri : Option (List ℕ)) (more : List ℕ) → IfSome iri IsIri → IfSome iri IsText →
        input.old.rest.now ≡ optional_bytes iri ++ more →
        Finds result (λ found. (found ≡ iri) × (input.new.rest.now ≡ more)) }
{
    match input.optional()? {
        Some(text) => Ok(Some(iri_of(alloc, text)?)),
        None => Ok(None),
    }
}

/// What a leaf holds, of this sort.
pub fn read_atom(alloc: Global, input: &mut Input, sort: AtomSort) -> Result<Atom, CanonFault>
    ensures { (atom : Atom) (more : List ℕ) → is_of_sort sort atom ≡ true → IsAtom atom →
        HasTexts atom → input.old.rest.now ≡ atom_bytes atom ++ more →
        Finds result (λ found. (found ≡ atom) × (input.new.rest.now ≡ more)) }
{
    match sort {
        AtomSort::Iri => Ok(Atom::Iri(read_iri(alloc, input)?)),
        AtomSort::Label => Ok(Atom::Label(read_label(alloc, input)?)),
        AtomSort::Literal => Ok(Atom::Literal(read_literal(alloc, input)?)),
        AtomSort::Number => Ok(Atom::Number(input.number()?)),
    }
}

/// The label of an anonymous individual.
fn read_label(alloc: Global, input: &mut Input) -> Result<Label, CanonFault>
    ensures { (label more : List ℕ) → IsLabel label → IsText label →
        input.old.rest.now ≡ text_bytes label ++ more →
        Finds result (λ found. (found ≡ label) × (input.new.rest.now ≡ more)) }
{
    let text = input.text()?;
    label_of(alloc, text)
}

/// A literal.
fn read_literal(alloc: Global, input: &mut Input) -> Result<Literal, CanonFault>
    ensures { (literal : LiteralParts) (more : List ℕ) → IsLiteral literal →
        HasTexts (Atom.Literal literal) →
        input.old.rest.now ≡ atom_bytes (Atom.Literal literal) ++ more →
        Finds result (λ found. (found ≡ literal) × (input.new.rest.now ≡ more)) }
{
    let lexical = input.text()?;
    let datatype = input.text()?;
    let tag = input.optional()?;
    literal_of(alloc, lexical, datatype, tag)
}

/// The IRI with these characters.
fn iri_of(alloc: Global, text: &str) -> Result<Iri, CanonFault>
    ensures { IsIri (chars text.now) → Finds result (λ iri. iri ≡ chars text.now) }
{
    match Iri::of(alloc, text) {
        Ok(iri) => Ok(iri),
        Err(IriFault::BadIri) => Err(CanonFault::NotCanon),
        Err(IriFault::Memory) => Err(CanonFault::Memory),
    }
}

/// The label with these characters.
fn label_of(alloc: Global, text: &str) -> Result<Label, CanonFault>
    ensures { IsLabel (chars text.now) → Finds result (λ label. label ≡ chars text.now) }
{
    match Label::of(alloc, text) {
        Ok(label) => Ok(label),
        Err(LabelFault::BadLabel) => Err(CanonFault::NotCanon),
        Err(LabelFault::Memory) => Err(CanonFault::Memory),
    }
}

/// The literal with these parts. A language tag is read behind the lexical form.
fn literal_of(
    alloc: Global,
    lexical: &str,
    datatype: &str,
    tag: Option<&str>,
) -> Result<Literal, CanonFault>
    ensures { (literal : LiteralParts) → IsLiteral literal →
        chars lexical.now ≡ literal.lexical → chars datatype.now ≡ literal.datatype →
        option_map (λ tag. chars tag.now) tag.entry ≡ literal.tag →
        Finds result (λ found. found ≡ literal) }
{
    let datatype = iri_of(alloc, datatype)?;
    match tag {
        Some(tag) => {
            let form = tagged_form(alloc, lexical, tag)?;
            typed(alloc, form.as_str(), datatype)
        }
        None => typed(alloc, lexical, datatype),
    }
}

/// A lexical form, an `@`, and a language tag.
fn tagged_form(alloc: Global, lexical: &str, tag: &str) -> Result<Text, NoMemory>
    ensures { IfOk result (λ form. form ≡ chars lexical.now ++ (codes "@" ++ chars tag.now)) }
{
    let mut form = Text::of(alloc, lexical)?;
    form.push_str("@")?;
    form.push_str(tag)?;
    Ok(form)
}

/// The literal that is written as this form with this datatype.
fn typed(alloc: Global, form: &str, datatype: Iri) -> Result<Literal, CanonFault>
    ensures { (literal : LiteralParts) → DenotesTyped (chars form.now) datatype literal →
        Finds result (λ found. found ≡ literal) }
{
    match Literal::of(alloc, form, Some(datatype), None) {
        Ok(literal) => Ok(literal),
        Err(LiteralFault::BadLiteral) => Err(CanonFault::NotCanon),
        Err(LiteralFault::Memory) => Err(CanonFault::Memory),
    }
}
