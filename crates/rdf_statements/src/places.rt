//! The terms at the places of a row.

ghost use Rattle.std.specs.Prelude.{◌≡◌, List, option_map};
ghost use Rattle.rdf_rows.specs.Chosen.{the_only};
ghost use Rattle.rdf_graph.specs.declared.triple.Triple.{Triple};
ghost use Rattle.rdf_meaning.specs.Denotation.{Bearer, select};
ghost use Rattle.rdf_statements.specs.Forms.{ArePlacesOf};

use rdf_graph::{Term, Triple};
use rdf_meaning::Place;
use rdf_rows::only_object;

/// Where the parts of a row of a node or of a triple find their terms: among the
/// triples of the node, or at the ends of the triple.
#[derive(Clone, Copy)]
pub(crate) struct Places<'a> {
    pub triples: &'a [Triple],
    pub subject: Option<&'a Term>,
    pub predicate: Option<&'a Term>,
    pub object: Option<&'a Term>,
}

/// The only term at the place.
pub(crate) fn term_at<'a>(places: &Places<'a>, place: Place) -> Option<&'a Term>
    ensures { (g : List Triple) (b : Bearer) → ArePlacesOf g b places.now →
        option_map (λ term. term.now) result ≡ the_only (select g b place) }
{
    match place {
        Place::At(word) => only_object(places.triples, word),
        Place::Subject => places.subject,
        Place::Predicate => places.predicate,
        Place::Object => places.object,
    }
}
