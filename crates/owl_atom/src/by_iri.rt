//! Prefixes by their IRIs.

ghost use Rattle.std.specs.Prelude.{◌≡◌, ◌<◌, ◌≤◌, ◌++◌, ◌∷◌, [], ℕ, List, map, length, slice_get, true, false, Contains, IfOk, IfSome, IsNone, Some};
ghost use Rattle.std.specs.Str.{chars, encode_utf8_all};
ghost use Rattle.std.specs.Ordering.{is_lt};
ghost use Rattle.std.specs.List.Sorted.{IsPartitionPoint, IsStrictlySortedBy};
ghost use Rattle.owl_characters.specs.Order.{text_cmp};
ghost use Rattle.owl_atom.specs.declared.by_iri.Front.{Front};
ghost use Rattle.owl_atom.specs.declared.prefixes.Prefix.{Prefix};
ghost use Rattle.owl_atom.specs.ByIri.{AreFronts, IsFirst, IsIndex, IsPlainFrom, front_cmp, of_size, size_of, sized};
ghost use Rattle.owl_atom.specs.Places.{IsBest, first};
ghost use Rattle.owl_atom.specs.Prefixes.{AreAscending};

use crate::blocks::Blocks;
use crate::prefixes::{is_plain_behind, is_plain_character, longer, push};
use owl_characters::NoMemory;
use owl_list::arrange;
use rdf_terms::Iri;
use std::alloc::Global;

/// The IRI of a prefix, and the place of the prefix in its table.
#[derive(Debug, Drop, PartialEq, Eq, PartialOrd, Ord)]
pub struct Front {
    pub iri: Iri,
    pub place: usize,
}

/// The prefixes of a table by their IRIs: all in the order of the IRIs, those
/// with one IRI in the order of their names, and the lengths of the IRIs in
/// bytes, the greatest first.
#[derive(Debug, Drop)]
pub struct ByIri {
    pub fronts: Vec<Front>,
    pub lengths: Vec<usize>,
}

impl ByIri {
    /// The prefixes of this table by their IRIs.
    pub fn of(alloc: Global, held: &Blocks) -> Result<ByIri, NoMemory>
        ensures { IfOk result (λ index. IsIndex held.now index) }
    {
        let mut fronts = fronts_of(alloc, held)?;
        arrange(&mut fronts);
        let mut lengths = lengths_of(alloc, held)?;
        arrange(&mut lengths);
        lengths.reverse();
        Ok(ByIri { fronts, lengths })
    }

    /// The best of the prefixes that cut the IRI, with the byte where it cuts.
    /// Takes no memory.
    pub fn best_of(&self, iri: &Iri) -> Option<(usize, usize)>
        requires { IsStrictlySortedBy front_cmp self.now.fronts.items }
        ensures { (held : List Prefix) → AreAscending held → IsIndex held self.now → IsBest held (first (length held)) iri.now result }
    {
        let plain_from = plain_from(iri.text());
        let mut best = None;
        for length in &self.lengths {
            best = self.better_at(iri, best, *length, plain_from);
        }
        best
    }

    /// The better one of a cut and of those at this byte, which are looked for only
    /// where the cut is not the longer one.
    fn better_at(
        &self,
        iri: &Iri,
        best: Option<(usize, usize)>,
        length: usize,
        plain_from: usize,
    ) -> Option<(usize, usize)>
        requires sorted { IsStrictlySortedBy front_cmp self.now.fronts.items }
        requires plain { IsPlainFrom (encode_utf8_all iri.now) plain_from }
        ensures { (held : List Prefix) (lengths : List ℕ) → AreAscending held → IsIndex held self.now
            → IsBest held (sized lengths) iri.now best → IsBest held (sized (lengths ++ length ∷ [])) iri.now result }
    {
        match best {
            Some((_, begin)) if length < begin => best,
            _ => longer(best, self.cut_at(iri, length, plain_from)),
        }
    }

    /// The best of the prefixes that cut the IRI at this byte. Where its characters
    /// are plain is asked once for all bytes, since there may be many.
    fn cut_at(&self, iri: &Iri, length: usize, plain_from: usize) -> Option<(usize, usize)>
        requires sorted { IsStrictlySortedBy front_cmp self.now.fronts.items }
        requires plain { IsPlainFrom (encode_utf8_all iri.now) plain_from }
        ensures { (held : List Prefix) → AreAscending held → IsIndex held self.now → IsBest held (of_size length) iri.now result }
    {
        let (front, local) = iri.text().split_at_checked(length)?;
        if !is_plain_behind(local, plain_from <= length) {
            return None;
        }
        let place = first_of(&self.fronts, front)?;
        Some((place, length))
    }
}

/// Where the characters that may stand in a plain local part begin of which the
/// text ends: the byte behind the last other one.
fn plain_from(text: &str) -> usize
    ensures { IsPlainFrom text.now result }
{
    let bytes = text.as_bytes();
    let mut from = bytes.len();
    while from > 0 && is_plain_character(char::from(bytes[from - 1])) {
        from -= 1;
    }
    from
}

/// The fronts of all prefixes of a table.
fn fronts_of(alloc: Global, held: &Blocks) -> Result<Vec<Front>, NoMemory>
    ensures { IfOk result (λ fronts. AreFronts held.now (length held.now) fronts.items) }
{
    let mut fronts = Vec::new(alloc);
    for place in 0..held.len() {
        let iri = held.at(place).iri.copy(alloc)?;
        push(&mut fronts, Front { iri, place })?;
    }
    Ok(fronts)
}

/// The lengths of the IRIs of all prefixes of a table, in bytes.
fn lengths_of(alloc: Global, held: &Blocks) -> Result<Vec<usize>, NoMemory>
    ensures { IfOk result (λ lengths. lengths.items ≡ map size_of held.now) }
{
    let mut lengths = Vec::new(alloc);
    for place in 0..held.len() {
        push(&mut lengths, held.at(place).iri.text().len())?;
    }
    Ok(lengths)
}

/// The first place of a prefix with this IRI.
fn first_of(fronts: &[Front], iri: &str) -> Option<usize>
    requires { IsStrictlySortedBy front_cmp fronts.now }
    ensures some { IfSome result (λ place. IsFirst fronts.now (chars iri.now) place) }
    ensures none { IsNone result → (place : ℕ) → Contains fronts.now (record { iri = chars iri.now; place = place }) → ⊥ }
{
    let front = fronts.get(count_below(fronts, iri))?;
    if front.iri.is(iri) {
        Some(front.place)
    } else {
        None
    }
}

/// How many fronts stand before those with this IRI, and before where they
/// would stand.
fn count_below(fronts: &[Front], iri: &str) -> usize
    requires { IsStrictlySortedBy front_cmp fronts.now }
    ensures bound { result ≤ length fronts.now }
    ensures parted { IsPartitionPoint (λ front. is_lt (text_cmp front.iri (chars iri.now)) ≡ true) (λ front. is_lt (text_cmp front.iri (chars iri.now)) ≡ false) fronts.now result }
{
    fronts.partition_point(|front| front.iri.text().cmp(iri).is_lt())
}
