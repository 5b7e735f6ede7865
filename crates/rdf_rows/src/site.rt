//! Which rows may say a triple.

ghost use Rattle.std.specs.Prelude.{◌≡◌};
ghost use Rattle.std.specs.List.{list_any};
ghost use Rattle.rdf_meaning.specs.Denotation.{axiom_predicates, axiom_types, site_of};
ghost use Rattle.rdf_meaning.specs.Nodes.{is_word};
ghost use Rattle.rdf_rows.specs.Sites.{linked_site, typed_site};

use crate::carried::word_of_class;
use crate::iris::is_type_iri;
use rdf_graph::Triple;
use rdf_meaning::{Site, Word, axiom_predicates, axiom_types, predicate_word};

/// Which rows may say the triple, whatever the kinds of its terms (Mapping to
/// RDF Graphs, tables 16 and 17). Takes no memory.
pub fn site_of(triple: &Triple) -> Site
    ensures { result ≡ site_of triple.now }
{
    if is_type_iri(&triple.predicate) {
        typed_site(word_of_class(&triple.object))
    } else {
        linked_site(predicate_word(&triple.predicate))
    }
}

/// The rows for a triple of rdf:type with the class.
fn typed_site(class: Option<Word>) -> Site
    ensures { result ≡ typed_site class }
{
    match class {
        Some(word) => {
            if is_axiom_type(word) {
                Site::TypedBy(word)
            } else {
                Site::OtherType
            }
        }
        None => Site::OtherType,
    }
}

/// The rows for a triple with the predicate.
fn linked_site(predicate: Option<Word>) -> Site
    ensures { result ≡ linked_site predicate }
{
    match predicate {
        Some(word) => {
            if is_axiom_predicate(word) {
                Site::LinkedBy(word)
            } else {
                Site::OtherLink
            }
        }
        None => Site::OtherLink,
    }
}

fn is_axiom_type(word: Word) -> bool
    ensures { result ≡ list_any (λ v. is_word v word) axiom_types }
{
    axiom_types().contains(&word)
}

fn is_axiom_predicate(word: Word) -> bool
    ensures { result ≡ list_any (λ v. is_word v word) axiom_predicates }
{
    axiom_predicates().contains(&word)
}
