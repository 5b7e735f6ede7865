//! Which rows the triples of one node fit.

ghost use Rattle.std.specs.Prelude.{◌≡◌, ◌↔◌, ◌==◌, ◌<◌, IsTrue, List, slice_index};
ghost use Rattle.std.specs.List.{list_all};
ghost use Rattle.rdf_graph.specs.declared.triple.Triple.{Triple};
ghost use Rattle.rdf_meaning.specs.declared.row.Site.{Site};
ghost use Rattle.rdf_meaning.specs.Denotation.{stands_at, times};
ghost use Rattle.rdf_meaning.specs.Rows.{row_seen};
ghost use Rattle.rdf_meaning.specs.Words.{word_number};
ghost use Rattle.rdf_rows.specs.Fits.{CountsWords, FitsRow};

use crate::carried::carried_word;
use rdf_graph::Triple;
use rdf_meaning::{Part, Place, Role, Row, Site, Word, words_of};

/// One more than the number of the last word.
const WORDS: usize = 70;

/// How often the triples of one node carry each word.
#[derive(Debug, Drop)]
pub struct NodeWords {
    counts: [usize; WORDS],
}

impl NodeWords {
    /// The words of these triples. Takes no memory.
    pub fn of(triples: &[Triple]) -> NodeWords
        ensures { CountsWords result triples.now }
    {
        let mut counts = [0; WORDS];
        for triple in triples {
            if let Some(word) = carried_word(triple) {
                counts[place_of(word)] += 1;
            }
        }
        NodeWords { counts }
    }

    /// Whether the row is one of a node of the role with these triples. Takes no
    /// memory.
    pub fn fit(&self, role: Role, row: &Row) -> bool
        ensures { (ts : List Triple) → CountsWords self.now ts →
            (IsTrue result ↔ FitsRow role ts (row_seen row.now)) }
    {
        is_of_role(row.site, role) && self.has_counts(words_of(role), row.parts)
    }

    /// Whether each of the words is carried as often as it stands among the
    /// parts.
    fn has_counts(&self, words: &[Word], parts: &[Part]) -> bool
        ensures { result
            ≡ list_all (λ w. slice_index self.now.counts (word_number w) == times w parts.now)
            words.now }
    {
        words
            .iter()
            .all(|word| self.count(*word) == times(*word, parts))
    }

    /// How often the word is carried.
    fn count(&self, word: Word) -> usize
        ensures { result ≡ slice_index self.now.counts (word_number word) }
    {
        self.counts[place_of(word)]
    }
}

/// Where the count of the word stands.
fn place_of(word: Word) -> usize
    ensures number { result ≡ word_number word }
    ensures within { result < WORDS }
{
    word.number() as usize
}

/// Whether the site is a node of the role.
fn is_of_role(site: Site, role: Role) -> bool
    ensures { IsTrue result ↔ (site ≡ Site.Node role) }
{
    match site {
        Site::Node(other) => other == role,
        Site::TypedBy(_) | Site::OtherType | Site::LinkedBy(_) | Site::OtherLink => false,
    }
}

/// How often the word stands among the parts.
fn times(word: Word, parts: &[Part]) -> usize
    ensures { result ≡ times word parts.now }
{
    parts.iter().filter(|part| stands_at(word, *part)).count()
}

/// Whether the part is that of the word.
fn stands_at(word: Word, part: &Part) -> bool
    ensures { result ≡ stands_at word part.now }
{
    match part.place {
        Place::At(other) => word == other,
        Place::Subject | Place::Predicate | Place::Object => false,
    }
}
