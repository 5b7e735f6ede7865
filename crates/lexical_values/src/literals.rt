//! Literals of forms.

ghost use Rattle.std.specs.Prelude.{◌≡◌, IfOk};
ghost use Rattle.std.specs.Str.{chars};
ghost use Rattle.owl_characters.specs.Names.{IsLanguageTag};
ghost use Rattle.rdf_terms.specs.Literals.{of_datatype, string, with_tag};
ghost use Rattle.lexical_values.specs.TypedLiterals.{typed_literal};

use owl_characters::NoMemory;
use rdf_terms::{Iri, Literal, LiteralFault};
use std::alloc::Global;

/// The literal of a form alone (RDF 1.1 Concepts, section 3.3).
pub fn plain_literal(alloc: Global, form: &str) -> Result<Literal, NoMemory>
    ensures { IfOk result (λ literal. literal ≡ of_datatype (chars form.now) string) }
{
    match Literal::of(alloc, form, None, None) {
        Ok(literal) => Ok(literal),
        Err(LiteralFault::BadLiteral) => unreachable!(),
        Err(LiteralFault::Memory) => Err(NoMemory),
    }
}

/// The literal of a form with a language tag.
pub fn tagged_literal(alloc: Global, form: &str, tag: &str) -> Result<Literal, NoMemory>
    requires { IsLanguageTag (chars tag.now) }
    ensures { IfOk result (λ literal. literal ≡ with_tag (chars form.now) (chars tag.now)) }
{
    match Literal::of(alloc, form, None, Some(tag)) {
        Ok(literal) => Ok(literal),
        Err(LiteralFault::BadLiteral) => unreachable!(),
        Err(LiteralFault::Memory) => Err(NoMemory),
    }
}

/// The literal of a form with a datatype, if there is one (RDF 1.1 Concepts,
/// section 3.3, and rdf:PlainLiteral, section 3).
pub fn typed_literal(alloc: Global, form: &str, datatype: Iri) -> Result<Option<Literal>, NoMemory>
    ensures { IfOk result (λ literal. literal ≡ typed_literal (chars form.now) datatype) }
{
    match Literal::of(alloc, form, Some(datatype), None) {
        Ok(literal) => Ok(Some(literal)),
        Err(LiteralFault::BadLiteral) => Ok(None),
        Err(LiteralFault::Memory) => Err(NoMemory),
    }
}
