//! Tests of IRIs.

ghost use Rattle.std.specs.Prelude.{◌≡◌, ◌↔◌, [], IsTrue, codes, nat_eq, true};
ghost use Rattle.std.specs.List.{list_all, starts_with};
ghost use Rattle.std.specs.Str.{bytes_eq};
ghost use Rattle.owl_characters.specs.Iri.{is_ascii};
ghost use Rattle.rdf_terms.specs.Vocabulary.{rdf, xsd};
ghost use Rattle.rdf_graph.specs.declared.term.Term.TheVariants as held;
ghost use Rattle.rdf_meaning.specs.Nodes.{is_facet, nil_iri, type_iri};
ghost use Rattle.rdf_meaning.specs.Words.{word_iri};

use rdf_graph::Term;
use rdf_meaning::Word;
use rdf_terms::{Iri, XSD, rdf};

/// Whether the IRI is rdf:type.
pub fn is_type_iri(iri: &Iri) -> bool
    ensures { result ≡ bytes_eq iri.now type_iri }
{
    is_spelled(iri, rdf!("type"))
}

/// Whether the IRI is the word's.
pub fn has_iri(iri: &Iri, word: Word) -> bool
    ensures { result ≡ bytes_eq iri.now (word_iri word) }
{
    is_spelled(iri, word.iri())
}

/// Whether the term is rdf:nil, the list of no elements. Takes no memory.
pub fn is_nil(term: &Term) -> bool
    ensures { IsTrue result ↔ (term.now ≡ held.Iri nil_iri) }
{
    match term {
        Term::Iri(iri) => is_nil_iri(iri),
        Term::Blank(_) | Term::Literal(_) => false,
    }
}

/// Whether the IRI is rdf:nil. Takes no memory.
pub fn is_nil_iri(iri: &Iri) -> bool
    ensures { IsTrue result ↔ (iri.now ≡ nil_iri) }
{
    iri.is(rdf!("nil"))
}

/// Whether the IRI is that of a facet: one of XML Schema, or rdf:langRange
/// (Mapping to RDF Graphs, table 14). Takes no memory.
#[tactic(auto, unfolding(rdf_meaning::specs::Nodes::is_facet))]
pub fn is_facet(iri: &Iri) -> bool
    ensures { result ≡ is_facet iri.now }
{
    is_of_xml_schema(iri) || is_lang_range(iri)
}

/// Whether the IRI is one of XML Schema.
fn is_of_xml_schema(iri: &Iri) -> bool
    ensures { result ≡ starts_with nat_eq iri.now (xsd []) }
{
    iri.text().starts_with(XSD)
}

fn is_lang_range(iri: &Iri) -> bool
    ensures { result ≡ bytes_eq iri.now (rdf (codes "langRange")) }
{
    is_spelled(iri, rdf!("langRange"))
}

/// Whether the IRI has the characters of a text in ASCII.
pub fn is_spelled(iri: &Iri, text: &str) -> bool
    requires { list_all is_ascii text.now ≡ true }
    ensures { result ≡ bytes_eq iri.now text.now }
{
    iri.is(text)
}
