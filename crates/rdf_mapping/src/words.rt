//! Terms that the mapping names.

ghost use Rattle.std.specs.Prelude.{◌≡◌, ◌≢◌, IfOk};
ghost use Rattle.std.specs.Str.{chars};
ghost use Rattle.rdf_graph.specs.declared.term.Term.TheVariants as held;
ghost use Rattle.rdf_terms.specs.Literals.{lang_string, of_datatype, plain_literal};
ghost use Rattle.rdf_terms.specs.Vocabulary.{xsd};
ghost use Rattle.rdf_meaning.specs.Denotation.{true_literal};
ghost use Rattle.rdf_meaning.specs.Nodes.{nil_iri, type_iri};
ghost use Rattle.rdf_meaning.specs.Words.{word_iri};
ghost use Rattle.rdf_mapping.specs.Drawing.{arc_iri, number_literal};

use owl_characters::NoMemory;
use rdf_graph::Term;
use rdf_meaning::Word;
use rdf_terms::{Iri, Literal, LiteralFault, rdf, xsd};
use std::alloc::Global;

/// The IRI of a word.
pub fn word_iri(alloc: Global, word: Word) -> Result<Iri, NoMemory>
    ensures { IfOk result (λ iri. iri ≡ word_iri word) }
{
    Iri::of_ascii(alloc, word.iri())
}

/// rdf:type
pub fn type_iri(alloc: Global) -> Result<Iri, NoMemory>
    ensures { IfOk result (λ iri. iri ≡ type_iri) }
{
    Iri::of_ascii(alloc, rdf!("type"))
}

/// The predicate of a word's triples: rdf:type for a class.
#[tactic(auto, unfolding(crate::specs::Drawing::arc_iri))]
pub fn arc_iri(alloc: Global, word: Word) -> Result<Iri, NoMemory>
    ensures { IfOk result (λ iri. iri ≡ arc_iri word) }
{
    if word.is_type() {
        type_iri(alloc)
    } else {
        word_iri(alloc, word)
    }
}

/// rdf:nil, the list without elements.
pub fn nil(alloc: Global) -> Result<Term, NoMemory>
    ensures { IfOk result (λ term. term ≡ held.Iri nil_iri) }
{
    let iri = Iri::of_ascii(alloc, rdf!("nil"))?;
    Ok(Term::Iri(iri))
}

/// The literal "true".
pub fn true_literal(alloc: Global) -> Result<Literal, NoMemory>
    ensures { IfOk result (λ literal. literal ≡ true_literal) }
{
    let datatype = Iri::of_ascii(alloc, xsd!("boolean"))?;
    typed(alloc, "true", datatype)
}

/// The literal of a cardinality.
pub fn number_literal(alloc: Global, number: u64) -> Result<Literal, NoMemory>
    ensures { IfOk result (λ literal. literal ≡ number_literal number) }
{
    let datatype = Iri::of_ascii(alloc, xsd!("nonNegativeInteger"))?;
    let digits = format!(in alloc; "{number}")?;
    typed(alloc, &digits, datatype)
}

/// A literal of a datatype that any text is a form of.
fn typed(alloc: Global, form: &str, datatype: Iri) -> Result<Literal, NoMemory>
    requires { (datatype ≢ plain_literal) × (datatype ≢ lang_string) }
    ensures { IfOk result (λ literal. literal ≡ of_datatype (chars form.now) datatype) }
{
    match Literal::of(alloc, form, Some(datatype), None) {
        Ok(literal) => Ok(literal),
        Err(LiteralFault::Memory) => Err(NoMemory),
        Err(LiteralFault::BadLiteral) => unreachable!(),
    }
}
